// The table of a factor, row by row, from the columns in which factoring leaves it.
ghost use Rattle.std.specs.Prelude.{◌≡◌, suc, ◌*◌, ◌≤◌, ◌<◌, length};
ghost use Rattle.tables.specs.Ranges.{greatest_order};
ghost use Rattle.cholesky.specs.Store.{triangle};
ghost use Rattle.verdict.specs.FactorTable.{Written};

use cholesky::STRIDE;
use tables::Table;

// Entry (i, j) of the factor: 0 below the diagonal.
pub fn factor_entry(t: &Table, i: usize, j: usize) -> i64
    requires { (i < greatest_order) × (j < greatest_order) }
    ensures { result ≡ triangle t.now i j }
{
    if i <= j {
        return t[STRIDE * j + i];
    }
    0
}

// Writes row i, after the rows before it.
fn write_row(n: usize, t: &Table, i: usize, factor: &mut [i64])
    requires { (n ≤ greatest_order) × (i < n) × (n * n ≤ length factor.old) × Written n (triangle t.now) factor.old (i *
        n) }
    ensures { Written n (triangle t.now) factor.new (suc i * n) }
{
    let start = i * n;
    for j in 0..n {
        factor[start + j] = factor_entry(t, i, j);
    }
}

// Writes the factor of order n, row by row, to the first n² numbers.
pub fn write_factor(n: usize, t: &Table, factor: &mut [i64])
    requires { (n ≤ greatest_order) × (n * n ≤ length factor.old) }
    ensures { Written n (triangle t.now) factor.new (n * n) }
{
    for i in 0..n {
        write_row(n, t, i, factor);
    }
}
