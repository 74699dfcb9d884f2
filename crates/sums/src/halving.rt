// R23.5 of docs/RULES.md: running sums, halved: lows rounded down, highs and the running limit up.
ghost use Rattle.std.specs.Prelude.{◌*◌, ◌≤◌, length};
ghost use Rattle.tables.specs.Ranges.{greatest_order, limit_range};
ghost use Rattle.tables.specs.Matrix.{nth};
ghost use Rattle.tables.specs.Buffers.{Filled};
ghost use Rattle.sums.specs.Halving.{half_down, half_up, halved};
ghost use Rattle.sums.specs.Required.{FrontWithin};
ghost use Rattle.sums.specs.Running.{sums_in, InRanges, Standing, SamePlace};

use crate::running::SumsMut;
use arithmetic::ceil_div;
use integers::floor_div;

// The first numbers of x, count of them, halved in place and rounded down.
fn halve_down(count: usize, x: &mut [i64])
    requires { count ≤ length x.old }
    ensures { Filled (length x.old) count (λ k. half_down (nth x.old k)) x.new }
{
    for v in x[..count].iter_mut() {
        *v = floor_div(*v, 2);
    }
}

// The same, rounded up.
fn halve_up(count: usize, x: &mut [i64])
    requires { FrontWithin count limit_range x.old }
    ensures { Filled (length x.old) count (λ k. half_up (nth x.old k)) x.new }
{
    for v in x[..count].iter_mut() {
        *v = ceil_div(*v, 2);
    }
}

// Sums in their ranges, halved in place.
pub fn halve(sums: &mut SumsMut)
    requires { InRanges sums.old }
    ensures place { SamePlace sums.old sums.new }
    ensures sums { Standing (halved (sums_in sums.old)) sums.new }
{
    let n = sums.order;
    halve_down(n * n, sums.low);
    halve_up(n * n, sums.high);
    halve_down(n, sums.from);
    halve_up(n, sums.to);
    sums.limit = ceil_div(sums.limit, 2);
}
