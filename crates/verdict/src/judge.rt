// The judge, R11 of docs/RULES.md.
ghost use Rattle.std.specs.Prelude.{◌≡◌, ◌&&◌, List, ◌*◌, ◌≤◌, ◌<◌, length, Ok};
ghost use Rattle.tables.specs.Matrix.{at, nth, tabulate};
ghost use Rattle.tables.specs.Checks.{order_of};
ghost use Rattle.tables.specs.Bounds.{CheckedTables};
ghost use Rattle.tables.specs.Entering.{Rooms};
ghost use Rattle.cholesky.specs.Factoring.{factored};
ghost use Rattle.cholesky.specs.Store.{Ends, Stored};
ghost use Rattle.verdict.specs.Judge.{definite, judged, judge_sizes, verdict_number};
ghost use Rattle.verdict.specs.Judge.{Judged, judge_lengths, stored, judge_act, Meaning};
ghost use Rattle.verdict.specs.Deciding.{shown_decision, Decided};

use crate::factor_table::write_factor;
use crate::listed::first_listed;
use cholesky::problem::factor_tables;
use residual::factor_test::over;
use tables::bounded::Bounded;
use tables::elements::Element;
use tables::entering::{enter, order};
use tables::{Answer, Refusal, TABLE_ROOM, Table, Vector};

// What the judge answers. With 'definite' goes what the rows of the residual have over, of the factor that is written: 0 or more.
#[derive(Clone, Copy, Debug, PartialEq, Eq)]
pub enum Verdict {
    Definite(i64),
    NotDefinite,
    Undecided,
}

// At a C entry definite is 0, not definite -1, undecided -2.
impl Answer for Verdict {
    ghost code = { verdict_number };

    fn code(self) -> i64 {
        match self {
            Verdict::Definite(_) => 0,
            Verdict::NotDefinite => -1,
            Verdict::Undecided => -2,
        }
    }
}

// What is decided of bounds, with what goes with it: what the rows of the residual have over, of the factor that is written, or the vector
// that shows 'not definite', in its first entries.
#[derive(Clone, Copy, Debug, PartialEq, Eq)]
pub enum Decision {
    Definite(i64),
    NotDefinite(Vector),
    Undecided,
}

// The decision after a factoring that stopped, by the listed vector that shows 'not definite', if one was found.
#[tactic(auto, unfolding(crate::specs::Deciding::shown_decision))]
fn shown(found: Option<Vector>) -> Decision
    ensures { result ≡ shown_decision found }
{
    match found {
        Some(x) => Decision::NotDefinite(x),
        None => Decision::Undecided,
    }
}

// After a factoring that ended: the factor, whose columns stand in t, to the first n² numbers of factor, and what the rows of its residual
// have over. The residual is worked out in the scratch tables of the bounds.
fn certify(n: usize, low: &mut Table, high: &mut Table, t: &Table, factor: &mut [i64]) -> i64
    requires { CheckedTables n low.old high.old × Rooms low.old high.old × (0 < n) × Stored (factored n (at n low.old)
        (at n high.old)) Ends t.now × (n * n ≤ length factor.old) }
    ensures { judged n (at n low.old) (at n high.old) ≡ definite (tabulate (n * n) (nth factor.new)) result }
{
    write_factor(n, t, factor);
    over(n, low, high, factor)
}

// The decision on bounds of order n: the first n² numbers of each scratch table, which 'definite' leaves with the residual.
// Where it is 'definite' the factor is written to the first n² numbers of factor, row by row, and else factor is kept.
pub fn decide(n: usize, low: &mut Table, high: &mut Table, factor: &mut [i64]) -> Decision
    requires { CheckedTables n low.old high.old × Rooms low.old high.old × (0 < n) × (n * n ≤ length factor.old) }
    ensures { Decided (judged n (at n low.old) (at n high.old)) n result factor.old factor.new }
{
    let mut t = [0i64; TABLE_ROOM];
    let bounds = Bounded {
        order: n,
        low: &*low,
        high: &*high,
    };
    match factor_tables(bounds, &mut t) {
        Ok(()) => Decision::Definite(certify(n, low, high, &t, factor)),
        Err(stop) => shown(first_listed(bounds, &t, stop)),
    }
}

// The verdict on bounds of order n, and the factor or the vector that goes with it, on buffers of the sizes that n calls for.
fn judge_bounds<E: Element>(
    n: usize,
    low: &mut Table,
    high: &mut Table,
    factor: &mut [E],
    vector: &mut [E],
) -> Verdict
    requires { CheckedTables n low.old high.old × Rooms low.old high.old × (0 < n) × (length factor.old ≡ E.taken (n * n))
        × (length vector.old ≡ E.taken n) }
    ensures { ◌≡◌ {A = Judged (List E)} (record { verdict = Ok result; factor = factor.new; vector = vector.new })
        (stored E.elements n (judged n (at n low.old) (at n high.old)) factor.old vector.old) }
{
    let mut f = [0i64; TABLE_ROOM];
    match decide(n, low, high, &mut f) {
        Decision::Definite(over) => {
            E::store(&f, n * n, factor);
            Verdict::Definite(over)
        }
        Decision::NotDefinite(x) => {
            E::store(&x, n, vector);
            Verdict::NotDefinite
        }
        Decision::Undecided => Verdict::Undecided,
    }
}

// Whether the buffers of a call have their sizes: that of a table, or that of a vector.
#[tactic(auto, unfolding(crate::specs::Judge::judge_sizes))]
pub fn sizes_ok(
    table: usize,
    entries: usize,
    low: usize,
    high: usize,
    factor: usize,
    vector: usize,
) -> bool
    ensures { result ≡ judge_sizes table entries low high factor vector }
{
    tables::sizes_ok(table, table, low, high, factor) && vector == entries
}

// The judge of a call that lends other buffers too: `others` says whether these have their sizes.
pub fn judge_among<E: Element>(
    n: i64,
    others: bool,
    low: &[E],
    high: &[E],
    factor: &mut [E],
    vector: &mut [E],
) -> Result<Verdict, Refusal>
    ensures exact { ◌≡◌ {A = Judged (List E)} (record {
      verdict = result;
      factor = factor.new;
      vector = vector.new;
    }) (judge_act E.numbers E.elements n (judge_lengths E.taken (order_of n) low.now high.now factor.old vector.old && others)
        low.now high.now factor.old vector.old) }
    ensures meaning { Meaning n (E.numbers low.now (order_of n * order_of n)) (E.numbers high.now (order_of n * order_of n))
        result (E.numbers factor.new (order_of n * order_of n)) (E.numbers vector.new (order_of n)) }
{
    let m = order(n)?;
    let table = E::taken(m * m);
    let entries = E::taken(m);
    let own = sizes_ok(
        table,
        entries,
        low.len(),
        high.len(),
        factor.len(),
        vector.len(),
    );
    let sized = own && others;
    if !sized {
        return Err(Refusal::Length);
    }
    let mut l = [0i64; TABLE_ROOM];
    let mut u = [0i64; TABLE_ROOM];
    enter(n, sized, true, low, high, &mut l, &mut u)?;
    Ok(judge_bounds(m, &mut l, &mut u, factor, vector))
}

// The judge, of any numbers at all, in buffers of numbers or of bytes: n is an order or not, and each buffer has any length.
// Refused by the first of the checks 1 to 5 that fails, with both buffers kept. Else 'definite', with what the rows have over, the factor
// written and the vector kept; 'not definite', with the vector written and the factor kept; or 'undecided', with both kept.
pub fn judge<E: Element>(
    n: i64,
    low: &[E],
    high: &[E],
    factor: &mut [E],
    vector: &mut [E],
) -> Result<Verdict, Refusal>
    ensures exact { ◌≡◌ {A = Judged (List E)} (record {
      verdict = result;
      factor = factor.new;
      vector = vector.new;
    }) (judge_act E.numbers E.elements n (judge_lengths E.taken (order_of n) low.now high.now factor.old vector.old)
        low.now high.now factor.old vector.old) }
    ensures meaning { Meaning n (E.numbers low.now (order_of n * order_of n)) (E.numbers high.now (order_of n * order_of n))
        result (E.numbers factor.new (order_of n * order_of n)) (E.numbers vector.new (order_of n)) }
{
    judge_among(n, true, low, high, factor, vector)
}
