// The residual of an offered factor, the row test over it, and the factor test.
#![tactic(auto)]

pub mod factor_test;
pub mod offered;
pub mod residual;
pub mod row_test;
