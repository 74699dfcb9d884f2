// The bracket of the stiffness: how stiff every member of a bounded matrix is at least, and one of them at most.
#![tactic(auto)]

pub mod bracket;
pub mod least_bound;
