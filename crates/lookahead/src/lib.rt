// The search for the first tried vector looks ahead: where few entries are left, the least sum over all their choices tells whether any
// of them is worth a search.
#![tactic(auto)]

pub mod ahead;
mod least;
