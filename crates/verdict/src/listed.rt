// R11.3 of docs/RULES.md: the first listed vector that shows 'not definite', after a factoring that stopped.
ghost use Rattle.std.specs.Prelude.{◌≡◌, ◌++◌, pos};
ghost use Rattle.integers.specs.Numbers.{Within};
ghost use Rattle.tables.specs.Matrix.{nth};
ghost use Rattle.tables.specs.Bounded.{low_of, high_of};
ghost use Rattle.vectors.specs.Least.{shows};
ghost use Rattle.vectors.specs.LeastShares.{VectorEntries};
ghost use Rattle.tried.specs.Tried.{tried, first, listed};
ghost use Rattle.solved.specs.Solved.{solved};
ghost use Rattle.solved.specs.Stopped.{stopped_at, Stopped, start_range};

use cholesky::factoring::Stop;
use tables::bounded::Bounded;
use tables::{Table, Vector};
use tried::first_tried;
use vectors::least::least_value;
use vectors::vector_test::nonzero;

// Whether x shows 'not definite'.
#[tactic(auto, unfolding(vectors::specs::Least::shows))]
fn shows(bounds: Bounded, x: &Vector) -> bool
    requires { VectorEntries bounds.order x.now }
    ensures { result ≡ shows bounds.entry.order (low_of bounds.entry) (high_of bounds.entry) (nth x.now) }
{
    nonzero(bounds.order, x) && least_value(bounds, x) <= 0
}

// The solved vector for s, where there is one and it shows 'not definite'.
fn solved_shows(bounds: Bounded, t: &Table, stop: Stop, s: i64) -> Option<Vector>
    requires { Stopped bounds.order t.now stop.column stop.rows × Within start_range s }
    ensures { listed bounds.entry.order result
        ≡ first (λ v. shows bounds.entry.order (low_of bounds.entry) (high_of bounds.entry) (nth v))
        (solved bounds.entry.order (stopped_at t.now stop.column stop.rows) s) }
{
    let x = solved::solve(bounds.order, t, stop, s)?;
    shows(bounds, &x).then_some(x)
}

// The first listed vector that shows 'not definite': tried, then solved for s = 1 and for s = 64.
pub fn first_listed(bounds: Bounded, t: &Table, stop: Stop) -> Option<Vector>
    requires { Stopped bounds.order t.now stop.column stop.rows }
    ensures { listed bounds.entry.order result
        ≡ first (λ v. shows bounds.entry.order (low_of bounds.entry) (high_of bounds.entry) (nth v))
        (tried bounds.entry.order ++ (solved bounds.entry.order (stopped_at t.now stop.column stop.rows) (pos 1)
        ++ solved bounds.entry.order (stopped_at t.now stop.column stop.rows) (pos 64))) }
{
    if let Some(x) = first_tried(bounds) {
        return Some(x);
    }
    if let Some(x) = solved_shows(bounds, t, stop, 1) {
        return Some(x);
    }
    solved_shows(bounds, t, stop, 64)
}
