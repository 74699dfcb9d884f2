// Factoring, R6 of docs/RULES.md: a matrix H into its Cholesky factor, in whole numbers, row by row and in place.
ghost use Rattle.std.specs.Prelude.{◌<◌, IfSome, unwrap_or};
ghost use Rattle.cholesky.specs.Factoring.{factoring};
ghost use Rattle.cholesky.specs.Store.{upper, Stored};
ghost use Rattle.cholesky.specs.Rows.{Factorable, FirstBelowOne};

use crate::STRIDE;
use crate::row_step::take_row;
use tables::Table;

// Where a factoring stops: in a column, after some rows of it. Both are counted from 0.
#[derive(Clone, Copy, Debug, PartialEq, Eq)]
pub struct Stop {
    pub column: usize,
    pub rows: usize,
}

// The first column whose diagonal entry is below 1, if one is: it stops with no row.
fn start(s: &Table, n: usize) -> Option<usize>
    requires { Factorable s.now n 0 }
    ensures { IfSome result (λ j. j < n) × FirstBelowOne s.now n (unwrap_or result n) }
{
    for j in 0..n {
        if s[STRIDE * j + j] < 1 {
            return Some(j);
        }
    }
    None
}

// Factors H of order n, which s holds, into the factor's columns. Where a column stops, the columns from it on are left out, and one
// before it may stop yet: the last stop seen is that of the first column.
pub fn factor(n: usize, s: &mut Table) -> Result<(), Stop>
    requires { Factorable s.old n 0 }
    ensures { Stored (factoring n (upper s.old)) result s.new }
{
    let mut end = start(s, n).unwrap_or(n);
    let mut rows = 0;
    for i in 0..n {
        if i == end {
            return Err(Stop { column: end, rows });
        }
        if let Some(stop) = take_row(s, i, end) {
            end = stop;
            rows = i + 1;
        }
    }
    Ok(())
}
