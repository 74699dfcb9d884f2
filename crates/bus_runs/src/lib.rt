// No code: what whole runs on the bus come to is in specs/ and proofs/.
#![tactic(auto)]
