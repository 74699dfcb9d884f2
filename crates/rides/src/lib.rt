// R22 and R23 of docs/RULES.md: rides gathered into running sums.
#![tactic(auto)]

pub mod gather;
pub mod reading;
