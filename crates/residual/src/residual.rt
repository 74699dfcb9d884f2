// The residual, R7.1 and R7.5 of docs/RULES.md: 2^32 L - P and 2^32 U - P, for an offered factor, both worked out whole.
ghost use Rattle.std.specs.Prelude.{◌≡◌, suc, ◌*◌, ◌≤◌, ◌<◌, length};
ghost use Rattle.integers.specs.Numbers.{Within};
ghost use Rattle.tables.specs.Ranges.{greatest_order};
ghost use Rattle.tables.specs.Matrix.{at};
ghost use Rattle.tables.specs.Entering.{Rooms};
ghost use Rattle.tables.specs.Bounds.{CheckedTables};
ghost use Rattle.residual.specs.ResidualAct.{Tabled, tabled, residual_sizes, residual_act};
ghost use Rattle.residual.specs.Scratch.{gram_range, Shaped, Offer, gram_at};
ghost use Rattle.residual.specs.Scratch.{Unturned, UnturnedColumn, turned_pair, turned_column, turned};

use crate::offered::factor_shape;
use cholesky::scaling::SCALE;
use tables::entering::{enter, order};
use tables::{Refusal, TABLE_ROOM, Table};

// P(i,j), for i ≤ j: the factor's entries below the diagonal are 0.
#[tactic(auto, unfolding(crate::specs::Scratch::gram_at, integers::specs::Sum::sum))]
fn product(n: usize, factor: &[i64], i: usize, j: usize) -> i64
    requires { Shaped n factor.now × (i ≤ j) × (j < n) }
    ensures { result ≡ gram_at (at n factor.now) i j }
{
    let mut s: i64 = 0;
    for k in 0..i + 1 {
        s += tables::entry(n, factor, k, i) * tables::entry(n, factor, k, j);
    }
    s
}

// The entry at (i, j) of a bound becomes the residual's, in both places of the pair; p is P(i,j).
#[tactic(auto, unfolding(tables::specs::Matrix::at))]
fn turn_pair(n: usize, t: &mut Table, i: usize, j: usize, p: i64)
    requires { (n ≤ greatest_order) × (i < n) × (j < n) × Unturned n t.old i j × Within gram_range p }
    ensures { t.new ≡ turned_pair n t.old i j p }
{
    let here = i * n + j;
    let across = j * n + i;
    let x = SCALE * t[here] - p;
    t[here] = x;
    t[across] = x;
}

// The pairs of column j, down to the diagonal, of both tables.
#[tactic(auto, unfolding(crate::specs::Scratch::turned_column))]
fn turn_column(n: usize, factor: &[i64], j: usize, low: &mut Table, high: &mut Table)
    requires { Shaped n factor.now × (j < n) × UnturnedColumn n low.old j × UnturnedColumn n high.old j }
    ensures { (low.new ≡ turned_column n (at n factor.now) low.old j (suc j)) ×
        (high.new ≡ turned_column n (at n factor.now) high.old j (suc j)) }
{
    for i in 0..j + 1 {
        let p = product(n, factor, i, j);
        turn_pair(n, low, i, j, p);
        turn_pair(n, high, i, j, p);
    }
}

// The residual of a factor that passed check 6, in the place of bounds that passed checks 3 to 5.
#[tactic(auto, unfolding(crate::specs::Scratch::turned))]
pub fn turn(n: usize, factor: &[i64], low: &mut Table, high: &mut Table)
    requires { Offer n low.old high.old factor.now }
    ensures { (low.new ≡ turned n (at n factor.now) low.old n) × (high.new ≡ turned n
        (at n factor.now) high.old n) }
{
    for j in 0..n {
        turn_column(n, factor, j, low, high);
    }
}

// Check 6, and then the residual of bounds of order n into both lent tables. Where 6 refuses, none of their entries is written.
#[tactic(auto, unfolding(crate::specs::ResidualAct::tabled, tables::specs::Answers::after, tables::specs::Checks::first_refusal))]
fn write_residual(
    n: usize,
    low: &mut Table,
    high: &mut Table,
    factor: &[i64],
    low_residual: &mut [i64],
    high_residual: &mut [i64],
) -> Result<(), Refusal>
    requires { CheckedTables n low.old high.old × Rooms low.old high.old × (n * n ≤ length factor.now) × (length
        low_residual.old ≡ n * n) × (length high_residual.old ≡ n * n) }
    ensures { ◌≡◌ {A = Tabled} (record {
      checked = result;
      low = low_residual.new;
      high = high_residual.new;
    }) (tabled n (at n low.old) (at n high.old) (at n factor.now)
        low_residual.old high_residual.old) }
{
    if !factor_shape(n, factor) {
        return Err(Refusal::Factor);
    }
    turn(n, factor, low, high);
    let size = n * n;
    tables::copy_numbers(size, low, low_residual);
    tables::copy_numbers(size, high, high_residual);
    Ok(())
}

// Whether the tables of a call have their size.
#[tactic(auto, unfolding(crate::specs::ResidualAct::residual_sizes))]
fn sizes_ok(
    size: usize,
    low: usize,
    high: usize,
    factor: usize,
    low_residual: usize,
    high_residual: usize,
) -> bool
    ensures { result ≡ residual_sizes size low high factor low_residual high_residual }
{
    tables::sizes_ok(size, size, low, high, factor)
        && (low_residual == size && high_residual == size)
}

// The residual, of any numbers at all: n is an order or not, and each slice has any length.
// Refused by the first of the checks 1 to 6 that fails, with both lent tables kept. Else both are written, whole.
pub fn residual(
    n: i64,
    low: &[i64],
    high: &[i64],
    factor: &[i64],
    low_residual: &mut [i64],
    high_residual: &mut [i64],
) -> Result<(), Refusal>
    ensures exact { ◌≡◌ {A = Tabled} (record {
      checked = result;
      low = low_residual.new;
      high = high_residual.new;
    }) (residual_act n low.now high.now factor.now low_residual.old
        high_residual.old) }
{
    let m = order(n)?;
    let sized = sizes_ok(
        m * m,
        low.len(),
        high.len(),
        factor.len(),
        low_residual.len(),
        high_residual.len(),
    );
    let mut l = [0i64; TABLE_ROOM];
    let mut u = [0i64; TABLE_ROOM];
    enter(n, sized, true, low, high, &mut l, &mut u)?;
    write_residual(m, &mut l, &mut u, factor, low_residual, high_residual)
}
