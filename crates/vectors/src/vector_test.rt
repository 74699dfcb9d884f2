// The vector test, R8.4 of docs/RULES.md.
ghost use Rattle.std.specs.Prelude.{◌≡◌, ◌*◌, ◌≤◌, length};
ghost use Rattle.tables.specs.Matrix.{nth};
ghost use Rattle.tables.specs.Checks.{order_of};
ghost use Rattle.tables.specs.Bounded.{low_of, high_of};
ghost use Rattle.vectors.specs.Least.{nonzero};
ghost use Rattle.vectors.specs.VectorTest.{vector_shape, vector_answer, vector_act, Meaning};

use crate::least::least_value;
use tables::bounded::Bounded;
use tables::elements::Element;
use tables::entering::{enter, order};
use tables::{GREATEST_ORDER, Refusal, TABLE_ROOM, VECTOR_RANGE};

// Whether one of the first entries, n of them, is not 0.
pub fn nonzero(n: usize, x: &[i64]) -> bool
    requires { n ≤ length x.now }
    ensures { result ≡ nonzero n (nth x.now) }
{
    x[..n].iter().any(|v| *v != 0)
}

// Check 7: not all zero, and each entry in its range.
fn vector_shape(n: usize, x: &[i64]) -> bool
    requires { n ≤ length x.now }
    ensures { result ≡ vector_shape n (nth x.now) }
{
    if !nonzero(n, x) {
        return false;
    }
    tables::all_within(x, n, VECTOR_RANGE)
}

// Check 7 and what a vector shows of bounds: the first numbers of x, as many as their order.
pub fn answer(bounds: Bounded, x: &[i64]) -> Result<bool, Refusal>
    requires { bounds.order ≤ length x.now }
    ensures { result ≡ vector_answer bounds.entry.order (low_of bounds.entry) (high_of bounds.entry) (nth x.now) }
{
    if !vector_shape(bounds.order, x) {
        return Err(Refusal::Vector);
    }
    Ok(least_value(bounds, x) <= 0)
}

// The vector test, of any numbers at all, in buffers of numbers or of bytes: n is an order or not, and each buffer has any length.
// Refused by the first of the checks 1 to 5 and 7 that fails; else yes or no.
pub fn test_vector<E: Element>(n: i64, low: &[E], high: &[E], x: &[E]) -> Result<bool, Refusal>
    ensures exact { result ≡ vector_act E.taken E.numbers n low.now high.now x.now }
    ensures meaning { Meaning result (order_of n) (E.numbers low.now (order_of n * order_of n))
        (E.numbers high.now (order_of n * order_of n)) (E.numbers x.now (order_of n)) }
{
    let m = order(n)?;
    let table = E::taken(m * m);
    let vector = E::taken(m);
    let sized = tables::sizes_ok(table, vector, low.len(), high.len(), x.len());
    if !sized {
        return Err(Refusal::Length);
    }
    let mut l = [0i64; TABLE_ROOM];
    let mut u = [0i64; TABLE_ROOM];
    enter(n, sized, true, low, high, &mut l, &mut u)?;
    let bounds = Bounded {
        order: m,
        low: &l,
        high: &u,
    };
    let mut v = [0i64; GREATEST_ORDER];
    E::load(x, m, &mut v);
    answer(bounds, &v)
}
