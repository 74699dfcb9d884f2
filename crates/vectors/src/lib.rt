// Vectors that show 'not definite': the least value, and the vector test.
#![tactic(auto)]

pub mod least;
pub mod vector_test;
