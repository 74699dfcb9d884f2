// The writer of summary files, R24 of docs/RULES.md: the file of a problem, with its tables mended.
#![tactic(auto)]

pub mod storing;
pub mod write;
