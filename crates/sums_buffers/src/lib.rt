// The acts on running sums, on buffers of bytes: the sums are loaded and checked, the act is asked, and what it gives is stored.
#![tactic(auto)]

pub mod reading;
