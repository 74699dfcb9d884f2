// R23.6 of docs/RULES.md: adding to running sums, with at most one halving. What is added stands in slices as the sums do.
ghost use Rattle.std.specs.Prelude.{◌≡◌, ◌*◌, ◌≤◌, pos, nat_abs, ◌+ℤ◌, ◌≤ℤ◌, length};
ghost use Rattle.tables.specs.Ranges.{greatest_order, limit_range};
ghost use Rattle.tables.specs.Matrix.{nth};
ghost use Rattle.tables.specs.Buffers.{Filled};
ghost use Rattle.tables.specs.Checks.{all_within};
ghost use Rattle.sums.specs.Sums.{added_to, plus, sums_within};
ghost use Rattle.sums.specs.Halving.{fitted};
ghost use Rattle.sums.specs.Required.{FrontWithin};
ghost use Rattle.sums.specs.Running.{sums_in, sums_behind, InRanges, BehindInRanges, Standing, SamePlace, Trying, Leaving};

use crate::halving::halve;
use crate::running::{SumsMut, SumsRef};
use tables::{ENTRY_RANGE, LIMIT_RANGE, LINEAR_RANGE, Refusal, within};

// Whether the first numbers of x, count of them, each with that of g added, are within the bound.
fn added_within(count: usize, g: &[i64], x: &[i64], bound: i64) -> bool
    requires { FrontWithin count limit_range g.now × FrontWithin count limit_range x.now × (pos 0 ≤ℤ bound) }
    ensures { result ≡ all_within (nat_abs bound) count (added_to count g.now x.now) }
{
    for (v, more) in x[..count].iter().zip(&g[..count]) {
        if !within(*v + *more, bound) {
            return false;
        }
    }
    true
}

// The first numbers of x, count of them, with those of g added in place.
fn add_numbers(count: usize, g: &[i64], x: &mut [i64])
    requires { FrontWithin count limit_range g.now × FrontWithin count limit_range x.old }
    ensures { Filled (length x.old) count (λ k. nth x.old k +ℤ nth g.now k)
        x.new }
{
    for k in 0..count {
        x[k] += g[k];
    }
}

// Check 18: whether sums, with what is added, are in their ranges.
fn sums_within(gains: SumsRef, sums: &SumsMut) -> bool
    requires { InRanges sums.now × BehindInRanges sums.now.order gains }
    ensures { result ≡ sums_within (plus (sums_behind sums.entry.now.order gains.entry) (sums_in sums.entry.now)) }
{
    let n = sums.order;
    if !added_within(n, gains.from, sums.from, LINEAR_RANGE) {
        return false;
    }
    if !added_within(n, gains.to, sums.to, LINEAR_RANGE) {
        return false;
    }
    if !within(sums.limit + gains.limit, LIMIT_RANGE) {
        return false;
    }
    if !added_within(n * n, gains.low, sums.low, ENTRY_RANGE) {
        return false;
    }
    added_within(n * n, gains.high, sums.high, ENTRY_RANGE)
}

// Sums with what is added, in place of the sums.
fn add_sums(gains: SumsRef, sums: &mut SumsMut)
    requires { InRanges sums.old × BehindInRanges sums.old.order gains }
    ensures place { SamePlace sums.old sums.new }
    ensures sums { Standing (plus (sums_behind sums.old.order gains.entry) (sums_in sums.old)) sums.new }
{
    let n = sums.order;
    add_numbers(n * n, gains.low, sums.low);
    add_numbers(n * n, gains.high, sums.high);
    add_numbers(n, gains.from, sums.from);
    add_numbers(n, gains.to, sums.to);
    sums.limit += gains.limit;
}

// Sums with what is added, where each is in its range then; or a refusal, and the sums are as they were.
fn add_inside(gains: SumsRef, sums: &mut SumsMut) -> Result<(), Refusal>
    requires { InRanges sums.old × BehindInRanges sums.old.order gains }
    ensures place { SamePlace sums.old sums.new }
    ensures sums { Trying (sums_behind sums.old.order gains.entry) (sums_in sums.old) result sums.new }
{
    if !sums_within(gains, sums) {
        return Err(Refusal::Full);
    }
    add_sums(gains, sums);
    Ok(())
}

// Sums with what is added: to the sums, or else to their halves; or check 18 refuses (R23.6).
pub fn add_fitted(gains: SumsRef, sums: &mut SumsMut) -> Result<(), Refusal>
    requires { InRanges sums.old × BehindInRanges sums.old.order gains }
    ensures place { SamePlace sums.old sums.new }
    ensures sums { Leaving (fitted (sums_behind sums.old.order gains.entry) (sums_in sums.old)) result sums.new }
{
    if let Ok(()) = add_inside(gains, sums) {
        return Ok(());
    }
    halve(sums);
    add_inside(gains, sums)
}
