// An offered factor: check 6 (R4.6 of docs/RULES.md).
ghost use Rattle.std.specs.Prelude.{◌≡◌, ◌*◌, ◌≤◌, ◌<◌, length};
ghost use Rattle.tables.specs.Ranges.{greatest_order};
ghost use Rattle.tables.specs.Matrix.{nth, at};
ghost use Rattle.tables.specs.Checks.{all};
ghost use Rattle.residual.specs.FactorTest.{factor_entry, factor_shape};

use tables::FACTOR_RANGE;

// Whether x may stand at (i, j): 0 below the diagonal, 1 to 2^26 on it, within ±2^26 above it.
#[tactic(auto, unfolding(crate::specs::FactorTest::factor_entry, tables::specs::Checks::within, tables::specs::Checks::same))]
fn entry_shape(i: usize, j: usize, x: i64) -> bool
    ensures { result ≡ factor_entry i j x }
{
    if j < i {
        return x == 0;
    }
    if i < j {
        return tables::within(x, FACTOR_RANGE);
    }
    if x < 1 {
        return false;
    }
    x <= FACTOR_RANGE
}

// Whether row i of a factor has its shape.
#[tactic(auto, unfolding(tables::specs::Checks::all))]
fn row_shape(i: usize, row: &[i64]) -> bool
    ensures { result ≡ all (length row.now) (λ j. factor_entry i j (nth row.now j)) }
{
    for (j, x) in row.iter().enumerate() {
        if !entry_shape(i, j, *x) {
            return false;
        }
    }
    true
}

// Whether a factor of order n has its shape.
#[tactic(auto, unfolding(tables::specs::Checks::all, crate::specs::FactorTest::factor_shape))]
pub fn factor_shape(n: usize, factor: &[i64]) -> bool
    requires { (n ≤ greatest_order) × (n * n ≤ length factor.now) }
    ensures { result ≡ factor_shape n (at n factor.now) }
{
    for i in 0..n {
        let row = &factor[i * n..i * n + n];
        if !row_shape(i, row) {
            return false;
        }
    }
    true
}
