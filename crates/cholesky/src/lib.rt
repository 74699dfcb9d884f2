// Factoring: the matrix H of a problem, and its Cholesky factor, in whole numbers.
#![tactic(auto)]

use tables::GREATEST_ORDER;

pub mod column_step;
pub mod factoring;
pub mod problem;
pub mod row_step;
pub mod scaling;

// Entry (i, j) of H and of a factor stands at STRIDE j + i, so that a column lies in one piece.
pub const STRIDE: usize = GREATEST_ORDER;
