// The judge: whether every member of a bounded matrix is positive definite.
#![tactic(auto)]

pub mod factor_table;
pub mod judge;
pub mod listed;
