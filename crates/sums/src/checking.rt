// R22.6, R23.4 and R27.3 of docs/RULES.md: the checks of sums that are handed in, and of problems that are added to them.
ghost use Rattle.std.specs.Prelude.{◌≡◌, ◌&&◌, ◌*◌, ◌≤◌, pos, length};
ghost use Rattle.tables.specs.Ranges.{greatest_order};
ghost use Rattle.tables.specs.Checks.{first_refusal, linear_within};
ghost use Rattle.tables.specs.Entering.{Mended};
ghost use Rattle.tables.specs.Problem.{constraint_of};
ghost use Rattle.sums.specs.Sums.{sums_checks};
ghost use Rattle.sums.specs.Running.{BehindRoomy};
ghost use Rattle.sums.specs.Mending.{RoomToMend, SameBounds, SameTerms};

use crate::mending::SumsToMend;
use crate::running::SumsRef;
use tables::bounded::Handed;
use tables::mending::mend_bounds;
use tables::{Refusal, check_bounds, check_ends, linear_within};

// Check 3, of what sums of order n have beside their bounds. `limits` says whether the call's limits are in their ranges.
fn terms_in(n: usize, limits: bool, from: &[i64], to: &[i64]) -> bool
    requires { (n ≤ length from.now) × (n ≤ length to.now) }
    ensures { result ≡ (linear_within n from.now to.now && limits) }
{
    linear_within(n, from, to) && limits
}

// Checks 3, 4, 5 and 16 of sums of order n.
pub fn check_sums(n: usize, limits: bool, sums: SumsRef) -> Result<(), Refusal>
    requires { (n ≤ greatest_order) × BehindRoomy n sums }
    ensures { result ≡ first_refusal (sums_checks limits (constraint_of n sums.entry.low.now sums.entry.high.now sums.entry.from.now
        sums.entry.to.now (pos 0))) }
{
    let bounds = Handed {
        order: n,
        low: sums.low,
        high: sums.high,
    };
    check_bounds(terms_in(n, limits, sums.from, sums.to), bounds)?;
    check_ends(n, sums.from, sums.to)
}

// The same checks of sums whose bounds are lent for writing, and where they pass the bounds mended in place (R2.10).
pub fn mend_sums(sums: &mut SumsToMend, limits: bool) -> Result<(), Refusal>
    requires { RoomToMend sums.old }
    ensures place { SameBounds sums.old sums.new }
    ensures kept { SameTerms sums.old sums.new }
    ensures mended { Mended (sums_checks limits (constraint_of sums.old.order sums.old.low.now sums.old.high.now sums.old.from.now
        sums.old.to.now (pos 0))) sums.old.order sums.old.low.now sums.old.high.now result sums.new.low.now sums.new.high.now }
{
    let n = sums.order;
    let terms = terms_in(n, limits, sums.from, sums.to);
    mend_bounds(n, terms, sums.low, sums.high)?;
    check_ends(n, sums.from, sums.to)
}
