// R22 of docs/RULES.md: samples, what each adds to running sums, and the checks of the sums.
#![tactic(auto)]

pub mod adding;
pub mod checking;
pub mod sample;
