// No code: the starred cases of docs/RULES.md, in proofs/Starred.antt.
#![tactic(auto)]
