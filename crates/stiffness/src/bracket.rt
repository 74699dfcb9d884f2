// The bracket of the stiffness, R26 of docs/RULES.md.
ghost use Rattle.std.specs.Prelude.{◌≡◌, ◌&&◌, List, ◌*◌, ◌<◌, length, Ok};
ghost use Rattle.tables.specs.Bounded.{low_of, high_of};
ghost use Rattle.tables.specs.Checks.{order_of};
ghost use Rattle.stiffness.specs.Bracket.{Bracketed, bracketed, stored, bracket_lengths, bracket_act, bracket_number, Meaning};
ghost use Rattle.stiffness.specs.Descent.{Stated};

use crate::least_bound::least_bound;
use tables::bounded::Bounded;
use tables::elements::Element;
use tables::entering::{enter, order};
use tables::{Answer, GREATEST_ORDER, Refusal, TABLE_ROOM, Vector};

// What the act answers: the step t and the bound v, where factoring ends, and else the bound alone. Every member M has x'Mx > t x'x for
// every nonzero x, and one of them has x'Mx <= v x'x for the vector that is written.
#[derive(Clone, Copy, Debug, PartialEq, Eq)]
pub enum Stiffness {
    Between(i64, i64),
    AtMost(i64),
}

// At a C entry step and bound are 0, and the bound alone is -1.
impl Answer for Stiffness {
    ghost code = { bracket_number };

    fn code(self) -> i64 {
        match self {
            Stiffness::Between(_, _) => 0,
            Stiffness::AtMost(_) => -1,
        }
    }
}

// The bracket of bounds, with the vector in the first entries of x.
pub fn find(bounds: Bounded, x: &mut Vector) -> Stiffness
    requires { 0 < bounds.order }
    ensures { Stated (bracketed bounds.entry.order (low_of bounds.entry) (high_of bounds.entry)) bounds.entry.order result x.new }
{
    let v = least_bound(bounds, x);
    if !steps::ends(bounds) {
        return Stiffness::AtMost(v);
    }
    Stiffness::Between(steps::step(bounds), v)
}

// The bracket of bounds, with the vector written to a buffer of the elements that as many numbers as their order take.
fn bracket_bounds<E: Element>(bounds: Bounded, vector: &mut [E]) -> Stiffness
    requires { (0 < bounds.order) × (length vector.old ≡ E.taken bounds.order) }
    ensures { ◌≡◌ {A = Bracketed (List E)} (record { stiffness = Ok result; vector = vector.new })
        (stored E.elements bounds.entry.order
        (bracketed bounds.entry.order (low_of bounds.entry) (high_of bounds.entry)) vector.old) }
{
    let mut x = [0i64; GREATEST_ORDER];
    let found = find(bounds, &mut x);
    E::store(&x, bounds.order, vector);
    found
}

// The bracket of a call that lends other buffers too: `others` says whether these have their sizes.
pub fn bracket_among<E: Element>(
    n: i64,
    others: bool,
    low: &[E],
    high: &[E],
    vector: &mut [E],
) -> Result<Stiffness, Refusal>
    ensures exact { ◌≡◌ {A = Bracketed (List E)} (record { stiffness = result; vector = vector.new })
        (bracket_act E.numbers E.elements n (bracket_lengths E.taken (order_of n) low.now high.now vector.old && others)
        low.now high.now vector.old) }
    ensures meaning { Meaning n (E.numbers low.now (order_of n * order_of n)) (E.numbers high.now (order_of n * order_of n))
        result (E.numbers vector.new (order_of n)) }
{
    let m = order(n)?;
    let table = E::taken(m * m);
    let size = E::taken(m);
    let own = tables::sizes_ok(table, size, low.len(), high.len(), vector.len());
    let sized = own && others;
    if !sized {
        return Err(Refusal::Length);
    }
    let mut l = [0i64; TABLE_ROOM];
    let mut u = [0i64; TABLE_ROOM];
    enter(n, sized, true, low, high, &mut l, &mut u)?;
    let bounds = Bounded {
        order: m,
        low: &l,
        high: &u,
    };
    Ok(bracket_bounds(bounds, vector))
}

// The bracket, of any numbers at all, in buffers of numbers or of bytes: n is an order or not, and each buffer has any length.
// Refused by the first of the checks 1 to 5 that fails, with the vector kept. Else the vector that is shown is written.
pub fn bracket<E: Element>(
    n: i64,
    low: &[E],
    high: &[E],
    vector: &mut [E],
) -> Result<Stiffness, Refusal>
    ensures exact { ◌≡◌ {A = Bracketed (List E)} (record { stiffness = result; vector = vector.new })
        (bracket_act E.numbers E.elements n (bracket_lengths E.taken (order_of n) low.now high.now vector.old)
        low.now high.now vector.old) }
    ensures meaning { Meaning n (E.numbers low.now (order_of n * order_of n)) (E.numbers high.now (order_of n * order_of n))
        result (E.numbers vector.new (order_of n)) }
{
    bracket_among(n, true, low, high, vector)
}
