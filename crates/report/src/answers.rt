// R19.2 to R19.4 of docs/RULES.md: the answers to a problem, worked out and not printed.
ghost use Rattle.summary.specs.Problems.{LetThrough};
ghost use Rattle.report.specs.Answers.{Answered};

use centre::centred::Centred;
use enclosure::enclose::box_bounds;
use tables::bounded::Bounded;
use tables::problem::Problem;
use tables::{Refusal, Sides, TABLE_ROOM, Table};
use verdict::judge::{Decision, decide};

// The decision on a problem, and the sides of its box: none where the box is empty. Where the decision is 'definite' the factor stands in
// factor, row by row.
#[derive(Clone, Copy, Debug, PartialEq, Eq)]
pub struct Answers {
    pub decision: Decision,
    pub factor: Table,
    pub sides: Result<Option<Sides>, Refusal>,
}

// The answers to a problem that passed the checks. The box comes first, since the decision works the residual out in the tables.
pub fn work_out(problem: Problem) -> Answers
    requires { LetThrough problem }
    ensures { Answered problem result }
{
    let constraint = problem.constraint;
    let linear = constraint.linear;
    let mut low = constraint.low;
    let mut high = constraint.high;
    let bounds = Bounded {
        order: constraint.order,
        low: &low,
        high: &high,
    };
    let centred = Centred {
        bounds,
        from: &linear.low,
        to: &linear.high,
        centre: &problem.centre,
    };
    let sides = box_bounds(centred, constraint.limit);
    let mut factor = [0i64; TABLE_ROOM];
    let decision = decide(constraint.order, &mut low, &mut high, &mut factor);
    Answers {
        decision,
        factor,
        sides,
    }
}
