// R2.10 of docs/RULES.md: bounds whose two halves may be rounded apart, checked and mended in place.
ghost use Rattle.std.specs.Prelude.{◌≡◌, ◌*◌, ◌≤◌, ◌<◌, length, set};
ghost use Rattle.integers.specs.Numbers.{min_ℤ, max_ℤ};
ghost use Rattle.tables.specs.Ranges.{greatest_order};
ghost use Rattle.tables.specs.Mending.{mended_low, mended_high};
ghost use Rattle.tables.specs.Pairs.{joined_row};
ghost use Rattle.tables.specs.Checks.{bounds_checks};
ghost use Rattle.tables.specs.Entering.{Mended};

use crate::bounded::Handed;
use crate::{Even, Refusal, check_apart, tables_bounded};
use integers::{greater, smaller};

// One number into both places of a pair.
fn put_pair(t: &mut [i64], p: usize, q: usize, x: i64)
    requires { (p < length t.old) × (q < length t.old) }
    ensures { t.new ≡ set (set t.old p x) q x }
{
    t[p] = x;
    t[q] = x;
}

// The pairs of row i, left of the diagonal, and column i.
fn mend_row(n: usize, low: &mut [i64], high: &mut [i64], i: usize)
    requires { (n ≤ greatest_order) × (i < n) × (n * n ≤ length low.old) × (n * n ≤ length high.old) }
    ensures { (low.new ≡ joined_row max_ℤ n i i low.old)
        × (high.new ≡ joined_row min_ℤ n i i high.old) }
{
    for j in 0..i {
        let p = i * n + j;
        let q = j * n + i;
        let greatest = greater(low[p], low[q]);
        put_pair(low, p, q, greatest);
        let least = smaller(high[p], high[q]);
        put_pair(high, p, q, least);
    }
}

// Both tables, mended in place.
fn mend(n: usize, low: &mut [i64], high: &mut [i64])
    requires { (n ≤ greatest_order) × (n * n ≤ length low.old) × (n * n ≤ length high.old) }
    ensures { (low.new ≡ mended_low n low.old) × (high.new ≡ mended_high n high.old) }
{
    for i in 0..n {
        mend_row(n, low, high, i);
    }
}

// Checks 3, 4 and 5 of bounds of order n whose halves may differ, and where they pass both tables mended. `within` says whether the call's
// other numbers are in their ranges.
fn mend_apart(n: usize, within: bool, low: &mut [i64], high: &mut [i64]) -> Result<(), Refusal>
    requires { (n ≤ greatest_order) × (n * n ≤ length low.old) × (n * n ≤ length high.old) }
    ensures { Mended (bounds_checks within n low.old high.old) n low.old high.old result
        low.new high.new }
{
    if !within {
        return Err(Refusal::Range);
    }
    check_apart(Handed {
        order: n,
        low,
        high,
    })?;
    mend(n, low, high);
    Ok(())
}

// The same. Tables whose halves agree, which most have, pass at once and are left as they are.
pub fn mend_bounds(n: usize, within: bool, low: &mut [i64], high: &mut [i64]) -> Result<(), Refusal>
    requires { (n ≤ greatest_order) × (n * n ≤ length low.old) × (n * n ≤ length high.old) }
    ensures { Mended (bounds_checks within n low.old high.old) n low.old high.old result
        low.new high.new }
{
    if within {
        let handed = Handed {
            order: n,
            low,
            high,
        };
        if tables_bounded::<Even>(handed) {
            return Ok(());
        }
    }
    mend_apart(n, within, low, high)
}
