// R29.1 of docs/RULES.md: the scale, a number k for each row and column.
ghost use Rattle.std.specs.Prelude.{◌≡◌, ◌*◌, ◌^◌, ◌≤◌, pos};
ghost use Rattle.integers.specs.Numbers.{Within};
ghost use Rattle.tables.specs.Ranges.{entry_range};
ghost use Rattle.tables.specs.Bounded.{high_of};
ghost use Rattle.scaling.specs.Scaling.{greatest_exponent, stays_within, exponent, exponents};
ghost use Rattle.scaling.specs.Scratch.{Scale};

use tables::bounded::Bounded;
use tables::{ENTRY_RANGE, GREATEST_ORDER, Vector};

// The greatest number of a scale.
const GREATEST_EXPONENT: usize = 10;

// 2^k.
pub fn power(k: usize) -> i64
    requires { k ≤ 2 * greatest_exponent }
    ensures { result ≡ pos (2 ^ k) }
{
    1 << k
}

// Whether 4^k u ≤ 2^20.
fn stays_within(u: i64, k: usize) -> bool
    requires { Within entry_range u × (k ≤ greatest_exponent) }
    ensures { result ≡ stays_within u k }
{
    power(2 * k) * u <= ENTRY_RANGE
}

// The greatest k with 4^k u ≤ 2^20.
fn exponent(u: i64) -> usize
    requires { Within entry_range u }
    ensures { result ≡ exponent u }
{
    for k in (1..GREATEST_EXPONENT + 1).rev() {
        if stays_within(u, k) {
            return k;
        }
    }
    0
}

// The scale of bounds: a number for each row and column.
pub fn find_scale(bounds: Bounded) -> Vector
    ensures { Scale (exponents (high_of bounds.entry)) bounds.entry.order result }
{
    let mut scale = [0i64; GREATEST_ORDER];
    for i in 0..bounds.order {
        scale[i] = exponent(bounds.high_at(i, i)) as i64;
    }
    scale
}
