// The judge and the factor test on buffers of bytes: the act over any buffers is asked, and what the rows have over is stored.
#![tactic(auto)]

pub mod entering;
pub mod judging;
pub mod tests;
