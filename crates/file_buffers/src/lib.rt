// Summary files on buffers of bytes: a file read into the buffers of its problem, with its tables mended; and what the writer makes of
// such buffers.
#![tactic(auto)]

pub mod reading;
pub mod storing;
