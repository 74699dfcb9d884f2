// The bracket of the stiffness, on buffers of bytes: the act is asked, and step and bound are stored beside its vector.
#![tactic(auto)]

pub mod bracketing;
