// R6.1 of docs/RULES.md: the matrix H that is factored, from the tables of L and U.
// L and U lie row by row, entry (i, j) at n i + j. H lies column by column, entry (i, j) at STRIDE j + i, down to the diagonal.
ghost use Rattle.std.specs.Prelude.{◌≡◌, suc, ◌<◌, ◌+ℤ◌, ◌*ℤ◌, length};
ghost use Rattle.tables.specs.Ranges.{table_room};
ghost use Rattle.tables.specs.Matrix.{at, row_width};
ghost use Rattle.cholesky.specs.Scale.{half_scale, take_off, scaled};
ghost use Rattle.cholesky.specs.Scaling.{Lent, Scaled};

use crate::STRIDE;
use tables::Table;

// A factor R is held against 2^32 M.
pub const SCALE: i64 = 1 << 32;

// H is 2^32 times the middle of L and U, so 2^31 times their sum.
const HALF_SCALE: i64 = 1 << 31;

// `take_off` of the definitions: a factor's range once for each row at the greatest order.
const ALLOWANCE: i64 = 1 << 29;

// What is taken off each diagonal entry of a matrix of order n, besides the width of its row: the same for every order.
fn diagonal_allowance(n: usize) -> i64
    ensures { result ≡ take_off n }
{
    ALLOWANCE
}

// w(i): the sum of U(i,k) - L(i,k) over all k, i included.
fn row_width(n: usize, low: &[i64], high: &[i64], i: usize) -> i64
    requires { Lent n low.now high.now × (i < n) }
    ensures { result ≡ row_width n (at n low.now) (at n high.now) i }
{
    let start = i * n;
    let mut w: i64 = 0;
    for k in 0..n {
        w += high[start + k] - low[start + k];
    }
    w
}

// 2^31 (L(i,j) + U(i,j)): H(i,j) off the diagonal.
fn middle(n: usize, low: &[i64], high: &[i64], i: usize, j: usize) -> i64
    requires { Lent n low.now high.now × (i < n) × (j < n) }
    ensures { result ≡ half_scale *ℤ (at n low.now i j +ℤ at n high.now i j) }
{
    let at = i * n + j;
    HALF_SCALE * (low[at] + high[at])
}

// H(j,j).
fn diagonal(n: usize, low: &[i64], high: &[i64], j: usize) -> i64
    requires { Lent n low.now high.now × (j < n) }
    ensures { result ≡ scaled n (at n low.now) (at n high.now) j j }
{
    middle(n, low, high, j, j) - (diagonal_allowance(n) + HALF_SCALE * row_width(n, low, high, j))
}

// Fills column j of h, after the columns before it.
fn scale_column(n: usize, low: &[i64], high: &[i64], j: usize, h: &mut Table)
    requires { Lent n low.now high.now × (j < n) × Scaled n (at n low.now) (at n high.now) h.old j }
    ensures { Scaled n (at n low.now) (at n high.now) h.new (suc j) }
{
    for i in 0..j {
        h[STRIDE * j + i] = middle(n, low, high, i, j);
    }
    h[STRIDE * j + j] = diagonal(n, low, high, j);
}

// Fills h with the matrix H of order n: each entry once, down to the diagonal.
pub fn scale(n: usize, low: &[i64], high: &[i64], h: &mut Table)
    requires { Lent n low.now high.now × (length h.old ≡ table_room) }
    ensures { Scaled n (at n low.now) (at n high.now) h.new n }
{
    for j in 0..n {
        scale_column(n, low, high, j, h);
    }
}
