// What the program prints of a summary file: the answers to its problem are worked out first, and then printed.
#![tactic(auto)]

pub mod answers;
pub mod lines;
pub mod report;
