// The fields of a summary file: each by itself, where all of them stand, and the reader over the file.
#![tactic(auto)]

pub mod field;
pub mod layout;
pub mod reader;
