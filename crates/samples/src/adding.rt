// R22.3 to R22.6 of docs/RULES.md: what a sample adds to running sums, and a sample added to sums that were handed in.
ghost use Rattle.std.specs.Prelude.{◌≡◌, ◌*◌, ◌<◌, pos, ◌-ℤ◌, length};
ghost use Rattle.tables.specs.Matrix.{table, tabulate};
ghost use Rattle.tables.specs.Problem.{constraint_of};
ghost use Rattle.tables.specs.declared.problem.Constraint.{Constraint};
ghost use Rattle.sums.specs.Running.{sums_in, Roomy, SamePlace, Leaving};
ghost use Rattle.samples.specs.Samples.{factor_count, number_count, between, factor_of};
ghost use Rattle.samples.specs.Gains.{product_ends, least_product, greatest_product, least_square, gains};
ghost use Rattle.samples.specs.Gathering.{checked_sums};
ghost use Rattle.samples.specs.Required.{NumbersNear, MeasuresNear, Arrays};

use crate::sample::{FACTOR_COUNT, Factors, Measures, Numbers, PRODUCT_COUNT, Products};
use floats::Neighbours;
use integers::{greater, smaller};
use sums::adding::add_fitted;
use sums::checking::mend_sums;
use sums::mending::SumsToMend;
use sums::running::{SumsMut, SumsRef};
use tables::{LIMIT_RANGE, Refusal, within};

// The least and the greatest of the four products of an end of number i and an end of number j of a sample: number i is from low(i) to
// high(i).
fn product_ends(low: &Numbers, high: &Numbers, i: usize, j: usize) -> Neighbours
    requires { NumbersNear low.now high.now × (i < number_count) × (j < number_count) }
    ensures { result ≡ product_ends (between low.now high.now i) (between low.now high.now j) }
{
    let a = low[i];
    let b = high[i];
    let c = low[j];
    let d = high[j];
    let ca = c * a;
    let da = d * a;
    let cb = c * b;
    let db = d * b;
    Neighbours {
        low: smaller(smaller(ca, da), smaller(cb, db)),
        high: greater(greater(ca, da), greater(cb, db)),
    }
}

// The smaller of the squares of the ends of number i.
fn least_square(low: &Numbers, high: &Numbers, i: usize) -> i64
    requires { NumbersNear low.now high.now × (i < number_count) }
    ensures { result ≡ least_square (between low.now high.now i) }
{
    let a = low[i];
    let b = high[i];
    smaller(a * a, b * b)
}

// What bounds gain: the products of a sample's factors.
fn lay_products(low: &Numbers, high: &Numbers, l: &mut Products, u: &mut Products)
    requires { NumbersNear low.now high.now × (length l.old ≡ factor_count * factor_count)
        × (length u.old ≡ factor_count * factor_count) }
    ensures { (l.new ≡ table factor_count (λ i j. least_product (between low.now high.now i)
        (between low.now high.now j)))
        × (u.new ≡ table factor_count (λ i j. greatest_product (between low.now high.now i)
        (between low.now high.now j))) }
{
    for k in 0..PRODUCT_COUNT {
        let gain = product_ends(low, high, k / FACTOR_COUNT, k % FACTOR_COUNT);
        l[k] = gain.low;
        u[k] = gain.high;
    }
}

// What the ends of linear terms gain: less the products of a sample's factors and its draw.
fn lay_draws(low: &Numbers, high: &Numbers, a: &mut Factors, b: &mut Factors)
    requires { NumbersNear low.now high.now × (length a.old ≡ factor_count) × (length b.old ≡ factor_count) }
    ensures { (a.new ≡ tabulate factor_count (λ i. pos 0 -ℤ
        greatest_product (between low.now high.now i) (between low.now high.now factor_count)))
        × (b.new ≡ tabulate factor_count (λ i. pos 0 -ℤ
        least_product (between low.now high.now i) (between low.now high.now factor_count))) }
{
    for i in 0..FACTOR_COUNT {
        let loss = product_ends(low, high, i, FACTOR_COUNT);
        a[i] = -loss.high;
        b[i] = -loss.low;
    }
}

// What sums gain by a sample: bounds and linear terms go to arrays, and what the running limit gains is returned.
fn lay_gains(
    m: Measures,
    l: &mut Products,
    u: &mut Products,
    a: &mut Factors,
    b: &mut Factors,
) -> i64
    requires { MeasuresNear m × Arrays l.old u.old a.old b.old }
    ensures { ◌≡◌ {A = Constraint} (constraint_of factor_count l.new u.new a.new b.new result)
        (gains (factor_of m) m.draw) }
{
    let rolling = m.rolling;
    let climb = m.climb;
    let air = m.air;
    let start = m.start;
    let draw = m.draw;
    let low = [rolling.low, climb.low, air.low, start.low, draw.low];
    let high = [rolling.high, climb.high, air.high, start.high, draw.high];
    lay_products(&low, &high, l, u);
    lay_draws(&low, &high, a, b);
    -least_square(&low, &high, FACTOR_COUNT)
}

// Checks 3, 4, 5 and 16 of sums of a sample's order; then their bounds are mended (R2.10) and the sample is added, with at most one halving
// (R23.6), all in place.
pub fn add_checked(m: Measures, sums: &mut SumsMut) -> Result<(), Refusal>
    requires { MeasuresNear m × (sums.old.order ≡ factor_count) × Roomy sums.old }
    ensures place { SamePlace sums.old sums.new }
    ensures sums { Leaving (checked_sums (factor_of m) m.draw (sums_in sums.old)) result sums.new }
{
    let within = within(sums.limit, LIMIT_RANGE);
    let from: &mut [i64] = sums.from;
    let to: &mut [i64] = sums.to;
    let mut given = SumsToMend {
        order: sums.order,
        low: sums.low,
        high: sums.high,
        from,
        to,
        limit: sums.limit,
    };
    mend_sums(&mut given, within)?;
    let mut l = [0i64; PRODUCT_COUNT];
    let mut u = [0i64; PRODUCT_COUNT];
    let mut a = [0i64; FACTOR_COUNT];
    let mut b = [0i64; FACTOR_COUNT];
    let limit = lay_gains(m, &mut l, &mut u, &mut a, &mut b);
    let gains = SumsRef {
        low: &l,
        high: &u,
        from: &a,
        to: &b,
        limit,
    };
    add_fitted(gains, sums)
}
