// The column step of factoring (R6.2 to R6.5 of docs/RULES.md): column j of a matrix becomes the factor's, after the columns before it. It
// takes the leaf of the row step with the loops exchanged: all rows of one column, in place of all columns of one row.
ghost use Rattle.std.specs.Prelude.{pos, ◌≤ℤ◌, unwrap_or, IfSome, ◌<◌};
ghost use Rattle.cholesky.specs.Factoring.{next_column};
ghost use Rattle.cholesky.specs.Store.{upper, columns_of};
ghost use Rattle.cholesky.specs.Columns.{ColumnReady, RowsTaken, ColumnWorked};

use crate::STRIDE;
use crate::row_step::take_column;
use tables::Table;

// The rows of column j above the diagonal, one after the other. Answers the row that stopped, if one did.
fn take_rows(s: &mut Table, j: usize) -> Option<usize>
    requires { ColumnReady s.old j × (pos 1 ≤ℤ upper s.old j j) }
    ensures { IfSome result (λ i. i < j) × RowsTaken s.old j (unwrap_or result j) s.new }
{
    for i in 0..j {
        let d = s[STRIDE * i + i];
        if !take_column(s, i, j, d) {
            return Some(i);
        }
    }
    None
}

// Works out column j, after the columns before it. Where it stops, the error is how many of its rows were worked out.
pub fn work_column(s: &mut Table, j: usize) -> Result<(), usize>
    requires { ColumnReady s.old j }
    ensures { ColumnWorked (next_column (upper s.old) (columns_of s.old j)) j result s.new }
{
    if s[STRIDE * j + j] < 1 {
        return Err(0);
    }
    if let Some(row) = take_rows(s, j) {
        return Err(row + 1);
    }
    s[STRIDE * j + j] = integers::whole_root(s[STRIDE * j + j]);
    Ok(())
}
