// R27.3 and R27.4 of docs/RULES.md: sums, and then one problem after the other, checked and added in one pass. A refusal of a check that
// comes earlier takes the place of a later one.
ghost use Rattle.std.specs.Prelude.{◌≡◌};
ghost use Rattle.tables.specs.Checks.{first_refusal};
ghost use Rattle.tables.specs.Answers.{after};
ghost use Rattle.tables.specs.Problem.{mended_constraint};
ghost use Rattle.sums.specs.Sums.{own_checks};
ghost use Rattle.sums.specs.Running.{sums_in, stated_in, Roomy, Leaving, SamePlace};
ghost use Rattle.sums.specs.Mending.{to_mend, RoomToMend, LeavingMended, SameBounds, SameTerms};
ghost use Rattle.pool.specs.Passing.{earlier, next};
ghost use Rattle.pool.specs.Required.{Refusing, ReadyFor};

use sums::adding::add_fitted;
use sums::checking::mend_sums;
use sums::mending::SumsToMend;
use sums::running::SumsMut;
use tables::{LIMIT_RANGE, Refusal, within};

// The refusal that is asked first: the checks of a pool behind 2 are asked by their numbers.
fn earlier(r: Refusal, s: Refusal) -> Refusal
    ensures { result ≡ earlier r s }
{
    if r.number() <= s.number() { r } else { s }
}

// The refusal of the pool, where a problem is refused by r after what was done before it.
fn refused_by(r: Refusal, done: Result<(), Refusal>) -> Refusal
    ensures { Refusing r done result }
{
    match done {
        Ok(()) => r,
        Err(s) => earlier(r, s),
    }
}

// Checks 3, 4, 5 and 16 of sums, which are mended in place.
pub fn begin(sums: &mut SumsToMend) -> Result<(), Refusal>
    requires { RoomToMend sums.old }
    ensures place { SameBounds sums.old sums.new }
    ensures kept { SameTerms sums.old sums.new }
    ensures sums { LeavingMended (after Err (first_refusal (own_checks (to_mend sums.old))) (Ok (mended_constraint (to_mend sums.old))))
        result sums.new }
{
    let within = within(sums.limit, LIMIT_RANGE);
    mend_sums(sums, within)
}

// One problem more, of the order of the sums, which is mended where it stands: its checks, and where nothing is refused it is added.
pub fn add_problem(
    problem: &mut SumsToMend,
    done: Result<(), Refusal>,
    sums: &mut SumsMut,
) -> Result<(), Refusal>
    requires { RoomToMend problem.old × Roomy sums.old × (problem.old.order ≡ sums.old.order) × ReadyFor done sums.old }
    ensures place { SamePlace sums.old sums.new }
    ensures sums { Leaving (next (to_mend problem.old) (stated_in done sums.old)) result sums.new }
    ensures problem { SameBounds problem.old problem.new }
    ensures terms { SameTerms problem.old problem.new }
    ensures rooms { RoomToMend problem.new }
{
    let within = within(problem.limit, LIMIT_RANGE);
    if let Err(r) = mend_sums(problem, within) {
        return Err(refused_by(r, done));
    }
    done?;
    let mended = problem.view();
    add_fitted(mended, sums)
}
