// R27 of docs/RULES.md: problems pooled into running sums.
#![tactic(auto)]

pub mod entering;
pub mod lists;
pub mod loading;
pub mod parts;
pub mod pool;
pub mod problems;

// A pool has at most this many problems (R27.1).
pub const GREATEST_POOL: usize = 64;
