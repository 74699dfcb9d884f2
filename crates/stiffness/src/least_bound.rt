// R26.2 to R26.4 of docs/RULES.md: the least number that a tried vector is under, and the first vector that is.
ghost use Rattle.std.specs.Prelude.{◌≡◌, ◌+◌, ◌<◌, pos, ◌+ℤ◌};
ghost use Rattle.integers.specs.Numbers.{Within};
ghost use Rattle.tables.specs.Bounded.{low_of, high_of};
ghost use Rattle.tables.specs.Matrix.{nth};
ghost use Rattle.tables.specs.Members.{Nonzero};
ghost use Rattle.lookahead.specs.Pairs.{under_range};
ghost use Rattle.stiffness.specs.Bracket.{quotient};
ghost use Rattle.stiffness.specs.Descent.{TriedEntries, Inside, Least};

use arithmetic::{ceil_div, product_sum};
use integers::floor_div;
use tables::bounded::Bounded;
use tables::{ENTRY_RANGE, GREATEST_ORDER, Vector};
use tried::first_under;
use vectors::least::least_value;

// No vector is under a number below this range.
const UNDER_RANGE: i64 = (GREATEST_ORDER as i64) * ENTRY_RANGE + 1;

// So many searches ask for one less than the last quotient.
const DESCENTS: usize = 24;

// The quotient of a vector but 0 (R26.2).
fn quotient(bounds: Bounded, x: &Vector) -> i64
    requires { TriedEntries bounds.order x.now × Nonzero bounds.order (nth x.now) }
    ensures { result ≡ quotient bounds.entry.order (low_of bounds.entry) (high_of bounds.entry) (nth x.now) }
{
    ceil_div(least_value(bounds, x), product_sum(bounds.order, x, x))
}

// The next number to ask for, between two others: one less than the upper one, so often as is left, and after that the middle.
fn next(below: i64, v: i64, left: usize) -> i64
    requires { Within (under_range + 1) below × Within (under_range + 1) v × Inside below v (below +ℤ pos 1) }
    ensures { Inside below v result }
{
    if 0 < left {
        return v - 1;
    }
    floor_div(below + v, 2)
}

// v, with the vector that is shown in x. A vector that is found is the first that is under its own quotient, so that only less than that is
// asked for: one less at first, which most tables answer soon, and where DESCENTS searches did not do, the middle of what is left.
pub fn least_bound(bounds: Bounded, x: &mut Vector) -> i64
    requires { 0 < bounds.order }
    ensures { Least bounds.entry.order (low_of bounds.entry) (high_of bounds.entry) result x.new }
{
    let mut below = -UNDER_RANGE;
    let mut v = bounds.low_at(0, 0) + 1;
    let mut left = DESCENTS;
    while below + 1 < v {
        let w = next(below, v, left);
        left = left.saturating_sub(1);
        match first_under(bounds, w) {
            Some(found) => {
                v = quotient(bounds, &found);
                *x = found;
            }
            None => below = w,
        }
    }
    v
}
