// The box.
#![tactic(auto)]

pub mod enclose;
