// R27.3 and R27.4 of docs/RULES.md: one pass through the problems, each loaded, checked and then added.
ghost use Rattle.std.specs.Prelude.{◌≡◌, ℕ, ◌≤◌, ◌<◌};
ghost use Rattle.tables.specs.Checks.{first_refusal};
ghost use Rattle.tables.specs.Answers.{after};
ghost use Rattle.tables.specs.Problem.{mended_constraint};
ghost use Rattle.sums.specs.Sums.{own_checks};
ghost use Rattle.sums.specs.Running.{sums_in, stated_in, Roomy, Standing, Leaving, SamePlace};
ghost use Rattle.pool.specs.Pool.{greatest_pool, problem_at, problems_of, checked_pool};
ghost use Rattle.pool.specs.Passing.{next};
ghost use Rattle.pool.specs.Required.{Sized, Reach, ReadyFor};
ghost use Rattle.pool.specs.Listed.{problems_in};

use crate::lists::Lists;
use crate::parts::{Listed, load_part};
use crate::problems::{add_problem, begin};
use sums::mending::SumsToMend;
use sums::running::SumsMut;
use tables::{GREATEST_ORDER, Refusal, TABLE_ROOM};

// Problem k of the lists, to where sums of its order stand.
fn load_problem<E: Listed>(k: usize, lists: &Lists<E>, out: &mut SumsMut)
    requires { Roomy out.old × (k < greatest_pool) × Reach (E.taken 1) out.old.order k (problems_in lists.now) }
    ensures place { SamePlace out.old out.new }
    ensures problem { (m : ℕ) → k < m →
        Standing (problem_at out.old.order (problems_of E.numbers out.old.order m (problems_in lists.entry.now)) k) out.new }
{
    let n = out.order;
    load_part(n * n, k, lists.lows, out.low);
    load_part(n * n, k, lists.highs, out.high);
    load_part(n, k, lists.froms, out.from);
    load_part(n, k, lists.tos, out.to);
    let mut limit = [0i64; 1];
    load_part(1, k, lists.limits, &mut limit);
    out.limit = limit[0];
}

// The checks of the sums, which are mended in place.
fn begin_sums(sums: &mut SumsMut) -> Result<(), Refusal>
    requires { Roomy sums.old }
    ensures place { SamePlace sums.old sums.new }
    ensures sums { Leaving (after Err (first_refusal (own_checks (sums_in sums.old))) (Ok (mended_constraint (sums_in sums.old))))
        result sums.new }
{
    let from: &mut [i64] = sums.from;
    let to: &mut [i64] = sums.to;
    let mut given = SumsToMend {
        order: sums.order,
        low: sums.low,
        high: sums.high,
        from,
        to,
        limit: sums.limit,
    };
    begin(&mut given)
}

// The problem that was loaded last, checked and then added.
fn add_loaded(
    problem: &mut SumsMut,
    done: Result<(), Refusal>,
    sums: &mut SumsMut,
) -> Result<(), Refusal>
    requires { Roomy problem.old × Roomy sums.old × (problem.old.order ≡ sums.old.order) × ReadyFor done sums.old }
    ensures place { SamePlace sums.old sums.new }
    ensures sums { Leaving (next (sums_in problem.old) (stated_in done sums.old)) result sums.new }
    ensures problem { SamePlace problem.old problem.new }
    ensures rooms { Roomy problem.new }
{
    let from: &mut [i64] = problem.from;
    let to: &mut [i64] = problem.to;
    let mut given = SumsToMend {
        order: problem.order,
        low: problem.low,
        high: problem.high,
        from,
        to,
        limit: problem.limit,
    };
    add_problem(&mut given, done, sums)
}

// Sums with the problems added to them, in place.
pub fn pool_all<E: Listed>(
    count: usize,
    lists: &Lists<E>,
    sums: &mut SumsMut,
) -> Result<(), Refusal>
    requires { Roomy sums.old × (count ≤ greatest_pool) × Sized (E.taken 1) sums.old.order count (problems_in lists.now) }
    ensures place { SamePlace sums.old sums.new }
    ensures sums { Leaving (checked_pool (sums_in sums.old) (problem_at sums.old.order (problems_of E.numbers sums.old.order count
        (problems_in lists.entry.now))) count) result sums.new }
{
    let mut l = [0i64; TABLE_ROOM];
    let mut u = [0i64; TABLE_ROOM];
    let mut a = [0i64; GREATEST_ORDER];
    let mut b = [0i64; GREATEST_ORDER];
    let mut problem = SumsMut {
        order: sums.order,
        low: &mut l,
        high: &mut u,
        from: &mut a,
        to: &mut b,
        limit: 0,
    };
    let mut done = begin_sums(sums);
    for k in 0..count {
        load_problem(k, lists, &mut problem);
        done = add_loaded(&mut problem, done, sums);
    }
    done
}
