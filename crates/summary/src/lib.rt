// The summary file: the problem that it spells.
#![tactic(auto)]

pub mod problem;
