// The row step of factoring (R6.3 and R6.4 of docs/RULES.md, by rows): row i of what is left of a matrix becomes the factor's, and the
// rows after it the Schur complement, in place. Entry (i, j) of a table stands at STRIDE j + i. Factoring, and the trials that ask only
// whether it ends, take their rows here; the step that adds a column to a factor is column_step.rt, over the same leaf.
ghost use Rattle.std.specs.Prelude.{◌≡◌, suc, ◌-◌, ◌<◌, pos, ◌≤ℤ◌, unwrap_or, IfSome};
ghost use Rattle.integers.specs.Division.{floor_div};
ghost use Rattle.integers.specs.Numbers.{Within};
ghost use Rattle.integers.specs.Root.{whole_root};
ghost use Rattle.tables.specs.Ranges.{factor_range};
ghost use Rattle.cholesky.specs.Store.{upper};
ghost use Rattle.cholesky.specs.Reduced.{ends_from};
ghost use Rattle.cholesky.specs.Rows.{Factorable, Rowed, Subtracted, ColumnTaken, ColumnsTaken, RowTaken};

use crate::STRIDE;
use tables::{FACTOR_RANGE, Table};

// Subtracts r(i,a) r from each entry (a, j) from row i + 1 to the diagonal; r is r(i,j).
fn subtract_products(s: &mut Table, i: usize, j: usize, r: i64)
    requires { Rowed s.old i j (suc j) × Within factor_range r }
    ensures { Subtracted s.old i j r (suc j) s.new }
{
    for a in i + 1..j + 1 {
        s[STRIDE * j + a] -= s[STRIDE * a + i] * r;
    }
}

// Column j of row i, whose diagonal entry is d. False where r(i,j) passes a factor's range or less than 1 is left of entry (j, j).
pub fn take_column(s: &mut Table, i: usize, j: usize, d: i64) -> bool
    requires { Rowed s.old i j j × (pos 1 ≤ℤ d) }
    ensures { ColumnTaken s.old i j (floor_div (upper s.old i j) d) result s.new }
{
    let r = integers::floor_div(s[STRIDE * j + i], d);
    s[STRIDE * j + i] = r;
    if !tables::within(r, FACTOR_RANGE) {
        return false;
    }
    subtract_products(s, i, j, r);
    1 <= s[STRIDE * j + j]
}

// Works out row i to the right of its diagonal entry d, in the columns before end. The divisions do not wait for each other. Answers
// the column that stopped, if one did.
fn take_columns(s: &mut Table, i: usize, end: usize, d: i64) -> Option<usize>
    requires { Factorable s.old end i × (i < end) × (pos 1 ≤ℤ d) × (d ≡ whole_root (upper s.old i i)) }
    ensures { IfSome result (λ c. c < end) × ColumnsTaken s.old i end (unwrap_or result end) s.new }
{
    for j in i + 1..end {
        if !take_column(s, i, j, d) {
            return Some(j);
        }
    }
    None
}

// Works out row i in the columns before end: its diagonal entry is the root of what is left there. Answers the column that stopped, if one
// did.
pub fn take_row(s: &mut Table, i: usize, end: usize) -> Option<usize>
    requires { Factorable s.old end i × (i < end) × (pos 1 ≤ℤ upper s.old i i) }
    ensures { IfSome result (λ c. c < end) × RowTaken s.old i end (unwrap_or result end) s.new }
{
    let d = integers::whole_root(s[STRIDE * i + i]);
    let stop = take_columns(s, i, end, d);
    s[STRIDE * i + i] = d;
    stop
}

// Whether factoring ends in the rows from first on, of order n. A row that goes on leaves at least 1 of each diagonal entry after it.
pub fn ends_from(s: &mut Table, n: usize, first: usize) -> bool
    requires { Factorable s.old n first × (first < n) × (pos 1 ≤ℤ upper s.old first first) }
    ensures { result ≡ ends_from (n - first) (upper s.old) first }
{
    for i in first..n - 1 {
        if take_row(s, i, n).is_some() {
            return false;
        }
    }
    true
}
