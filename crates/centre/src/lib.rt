// R13.1 and R13.2 of docs/RULES.md: the bounds at the centre c. The linear terms' low ends are a, their high ends b.
#![tactic(auto)]

ghost use Rattle.std.specs.Prelude.{◌≡◌, ◌≤◌, ◌<◌, pos, length};
ghost use Rattle.std.specs.Int.Signed.{le_z};
ghost use Rattle.integers.specs.Numbers.{Within};
ghost use Rattle.tables.specs.Ranges.{greatest_order, limit_range, gradient_range};
ghost use Rattle.tables.specs.Matrix.{nth};
ghost use Rattle.tables.specs.Buffers.{Filled};
ghost use Rattle.tables.specs.Bounded.{low_of, high_of};
ghost use Rattle.tables.specs.Checks.{all};
ghost use Rattle.centre.specs.Centre.{least_sum, at_centre};
ghost use Rattle.centre.specs.Centred.{terms_of, centre_of, gradient_of};

pub mod centred;

use arithmetic::absolute;
use centred::Centred;
use integers::{greater, smaller};
use tables::{GRADIENT_RANGE, Vector};

// g(k): the greater size of the least and the greatest sum of M(k,j) c(j) over all j, plus the low and the high end of a(k).
fn gradient(problem: Centred, k: usize) -> i64
    requires { k < problem.bounds.order }
    ensures { result ≡ gradient_of problem.entry k }
{
    let mut least: i64 = 0;
    let mut greatest: i64 = 0;
    for j in 0..problem.bounds.order {
        let c = problem.centre[j];
        let l = problem.bounds.low_at(k, j) * c;
        let u = problem.bounds.high_at(k, j) * c;
        least += smaller(l, u);
        greatest += greater(l, u);
    }
    let from = problem.from[k];
    let to = problem.to[k];
    let x = absolute(least + from);
    let y = absolute(greatest + to);
    greater(x, y)
}

// Fills in g(k) for each row k.
pub fn gradients(problem: Centred, g: &mut Vector)
    requires { length g.old ≡ greatest_order }
    ensures { Filled greatest_order problem.entry.bounds.order (gradient_of problem.entry) g.new }
{
    for k in 0..problem.bounds.order {
        g[k] = gradient(problem, k);
    }
}

// Whether each g(k) is let through.
pub fn near(n: usize, g: &Vector) -> bool
    requires { n ≤ greatest_order }
    ensures { result ≡ all n (λ k. le_z (nth g.now k) (pos gradient_range)) }
{
    for x in &g[..n] {
        if GRADIENT_RANGE < *x {
            return false;
        }
    }
    true
}

// The least sum of a(k) c(k), where each linear term is chosen between its ends.
fn least_terms(problem: Centred) -> i64
    ensures { let a = terms_of problem.entry in
        result ≡ least_sum problem.entry.bounds.order a.low a.high (centre_of problem.entry) }
{
    let mut least: i64 = 0;
    for k in 0..problem.bounds.order {
        let c = problem.centre[k];
        let from = problem.from[k] * c;
        let to = problem.to[k] * c;
        least += smaller(from, to);
    }
    least
}

// D
pub fn at_centre(problem: Centred, limit: i64) -> i64
    requires { Within limit_range limit }
    ensures { let p = problem.entry in
        result ≡ at_centre p.bounds.order (low_of p.bounds) (high_of p.bounds) (terms_of p) (centre_of p) limit }
{
    let linear = least_terms(problem);
    let least = vectors::least::least_value(problem.bounds, problem.centre);
    limit - 2 * linear - least
}
