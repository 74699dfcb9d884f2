// No code: what factoring and the residual test prove of each other is in proofs/.
#![tactic(auto)]
