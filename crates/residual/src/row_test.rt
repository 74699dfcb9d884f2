// The row test, R7.2 and R7.7 of docs/RULES.md, over the two tables of a residual: what each row's diagonal entry has over its radii.
ghost use Rattle.std.specs.Prelude.{◌≡◌, ◌<◌, ◌≤ℤ◌};
ghost use Rattle.integers.specs.Numbers.{Within, abs_ℤ, max_ℤ};
ghost use Rattle.tables.specs.Matrix.{at};
ghost use Rattle.residual.specs.Residual.{radius, row_over, least_over};
ghost use Rattle.residual.specs.Scratch.{residual_range, Residue};

use tables::Table;

// The greater of |a| and |b|, where a is at most b.
fn radius(a: i64, b: i64) -> i64
    requires { (a ≤ℤ b) × Within residual_range a × Within residual_range b }
    ensures { result ≡ max_ℤ (abs_ℤ a) (abs_ℤ b) }
{
    let below = -a;
    if below <= b { b } else { below }
}

// The radius at (i, j).
#[tactic(auto, unfolding(crate::specs::Residual::radius, tables::specs::Matrix::at))]
fn radius_at(n: usize, low: &Table, high: &Table, i: usize, j: usize) -> i64
    requires { Residue n low.now high.now × (i < n) × (j < n) }
    ensures { result ≡ radius (at n low.now) (at n high.now) i j }
{
    let here = i * n + j;
    radius(low[here], high[here])
}

// What row i has over: its diagonal entry less its radii. The radius on the diagonal is no part of them: it is added first, and subtracted
// with the others.
fn row_over(n: usize, low: &Table, high: &Table, i: usize) -> i64
    requires { Residue n low.now high.now × (i < n) }
    ensures { result ≡ row_over n (at n low.now) (at n high.now) i }
{
    let mut over = low[i * n + i] + radius_at(n, low, high, i, i);
    for j in 0..n {
        over -= radius_at(n, low, high, i, j);
    }
    over
}

// What the rows of a residual have over: the least over all of them.
#[tactic(auto, unfolding(crate::specs::Residual::least_over, integers::specs::Numbers::least_of))]
pub fn least_over(n: usize, low: &Table, high: &Table) -> i64
    requires { Residue n low.now high.now × (0 < n) }
    ensures { result ≡ least_over n (at n low.now) (at n high.now) }
{
    let mut least = row_over(n, low, high, 0);
    for i in 1..n {
        let over = row_over(n, low, high, i);
        if over < least {
            least = over;
        }
    }
    least
}
