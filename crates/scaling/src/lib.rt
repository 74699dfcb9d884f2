// Tables whose rows and columns are scaled by powers of two.
#![tactic(auto)]

pub mod exponents;
pub mod rescaling;
