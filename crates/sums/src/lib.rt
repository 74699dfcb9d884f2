// R23 of docs/RULES.md: running sums of any order: their checks, what is added to them, and their halves.
#![tactic(auto)]

pub mod adding;
pub mod checking;
pub mod copying;
pub mod halving;
pub mod mending;
pub mod running;
