// The factor test, R7.4 of docs/RULES.md.
ghost use Rattle.std.specs.Prelude.{◌≡◌, ◌&&◌, ◌*◌, ◌≤◌, ◌<◌, length};
ghost use Rattle.tables.specs.Matrix.{at};
ghost use Rattle.tables.specs.Checks.{order_of};
ghost use Rattle.tables.specs.Bounds.{CheckedTables};
ghost use Rattle.tables.specs.Entering.{Rooms};
ghost use Rattle.residual.specs.Residual.{over};
ghost use Rattle.residual.specs.FactorTest.{factor_answer, factor_lengths, factor_act, factor_number, carried, Meaning};
ghost use Rattle.residual.specs.Scratch.{Offer};

use crate::offered::factor_shape;
use crate::residual::turn;
use crate::row_test::least_over;
use tables::elements::Element;
use tables::entering::{enter, order};
use tables::{Answer, GREATEST_ORDER, Refusal, TABLE_ROOM, Table};

// What the factor test answers: accepted, with what the rows have over, which is 0 or more; or not accepted, with what they have over,
// which is negative.
#[derive(Clone, Copy, Debug, PartialEq, Eq)]
pub enum FactorAnswer {
    Accepted(i64),
    NotAccepted(i64),
}

impl FactorAnswer {
    // What the rows have over.
    pub fn over(self) -> i64
        ensures { result ≡ carried self }
    {
        match self {
            FactorAnswer::Accepted(v) => v,
            FactorAnswer::NotAccepted(v) => v,
        }
    }
}

// At a C entry accepted is 0, and not accepted -1.
impl Answer for FactorAnswer {
    ghost code = { factor_number };

    fn code(self) -> i64 {
        match self {
            FactorAnswer::Accepted(_) => 0,
            FactorAnswer::NotAccepted(_) => -1,
        }
    }
}

// What the rows have over, for bounds and a factor of order n: the first n² numbers of each. The residual is worked out in the scratch
// tables of the bounds. The compiler sees no contract: the test tells it that n is at most the greatest order.
pub fn over(n: usize, low: &mut Table, high: &mut Table, factor: &[i64]) -> i64
    requires { Offer n low.old high.old factor.now × (0 < n) }
    ensures { result ≡ over n (at n factor.now) (at n low.old) (at n high.old) }
{
    if n > GREATEST_ORDER {
        return 0;
    }
    turn(n, factor, low, high);
    least_over(n, low, high)
}

// Check 6, and the residual test, of bounds and a factor of order n. The residual is left in the scratch tables of the bounds.
#[tactic(auto, unfolding(crate::specs::FactorTest::factor_answer, tables::specs::Answers::after, tables::specs::Checks::first_refusal))]
pub fn answer(
    n: usize,
    low: &mut Table,
    high: &mut Table,
    factor: &[i64],
) -> Result<FactorAnswer, Refusal>
    requires { CheckedTables n low.old high.old × Rooms low.old high.old × (n * n ≤ length factor.now) × (0 < n) }
    ensures { result ≡ factor_answer n (at n low.old) (at n high.old) (at n factor.now) }
{
    if !factor_shape(n, factor) {
        return Err(Refusal::Factor);
    }
    let v = over(n, low, high, factor);
    if v < 0 {
        return Ok(FactorAnswer::NotAccepted(v));
    }
    Ok(FactorAnswer::Accepted(v))
}

// The factor test of a call that lends other buffers too: `others` says whether these have their sizes.
// Refused by the first of the checks 1 to 6 that fails; else accepted or not, by the residual test, with what the rows have over.
pub fn test_factor_among<E: Element>(
    n: i64,
    others: bool,
    low: &[E],
    high: &[E],
    factor: &[E],
) -> Result<FactorAnswer, Refusal>
    ensures exact { result ≡ factor_act E.numbers n (factor_lengths E.taken (order_of n) low.now high.now factor.now && others)
        low.now high.now factor.now }
    ensures meaning { Meaning n (E.numbers low.now (order_of n * order_of n)) (E.numbers high.now (order_of n * order_of n))
        (E.numbers factor.now (order_of n * order_of n)) result }
{
    let m = order(n)?;
    let table = E::taken(m * m);
    let own = tables::sizes_ok(table, table, low.len(), high.len(), factor.len());
    let sized = own && others;
    if !sized {
        return Err(Refusal::Length);
    }
    let mut l = [0i64; TABLE_ROOM];
    let mut u = [0i64; TABLE_ROOM];
    enter(n, sized, true, low, high, &mut l, &mut u)?;
    let mut f = [0i64; TABLE_ROOM];
    E::load(factor, m * m, &mut f);
    answer(m, &mut l, &mut u, &f)
}

// The factor test, of any numbers at all, in buffers of numbers or of bytes: n is an order or not, and each buffer has any length.
pub fn test_factor<E: Element>(
    n: i64,
    low: &[E],
    high: &[E],
    factor: &[E],
) -> Result<FactorAnswer, Refusal>
    ensures exact { result ≡ factor_act E.numbers n (factor_lengths E.taken (order_of n) low.now high.now factor.now) low.now high.now
        factor.now }
    ensures meaning { Meaning n (E.numbers low.now (order_of n * order_of n)) (E.numbers high.now (order_of n * order_of n))
        (E.numbers factor.now (order_of n * order_of n)) result }
{
    test_factor_among(n, true, low, high, factor)
}
