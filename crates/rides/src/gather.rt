// R22.6 of docs/RULES.md: a sample gathered into running sums.
ghost use Rattle.std.specs.Prelude.{◌≡◌, List, length, Ok};
ghost use Rattle.tables.specs.Matrix.{nth};
ghost use Rattle.tables.specs.Checks.{order_of};
ghost use Rattle.tables.specs.Problem.{lengths_of};
ghost use Rattle.samples.specs.Samples.{factor_count, factor_of};
ghost use Rattle.samples.specs.Gathering.{entered_sums};
ghost use Rattle.samples.specs.Required.{MeasuresNear};
ghost use Rattle.sums.specs.Lent.{Left};
ghost use Rattle.sums.specs.Running.{sums_in, Roomy, Standing, SamePlace};
ghost use Rattle.rides.specs.Reading.{held_sums};
ghost use Rattle.rides.specs.Act.{held_lent, gather_sizes, SumsSizes, laid_sample, gather_act, Meaning};

use samples::adding::add_checked;
use samples::checking::sums_sized;
use samples::sample::{FACTOR_COUNT, Measures, PRODUCT_COUNT, Sample, measure};
use sums::running::SumsMut;
use tables::Refusal;
use tables::elements::Element;
use tables::entering::order;
use tables::problem::lengths_of;

// Sums of a sample's order that five buffers hold, to where sums of that order stand. The loops are compiled with the sizes of that order.
fn load_sample<E: Element>(
    low: &[E],
    high: &[E],
    from: &[E],
    to: &[E],
    limit: &[E],
    out: &mut SumsMut,
)
    requires { (out.old.order ≡ factor_count) × Roomy out.old × SumsSizes E.taken factor_count
        (lengths_of (length low.now) (length high.now) (length from.now) (length to.now)) (length limit.now) }
    ensures place { SamePlace out.old out.new }
    ensures sums { Standing (held_sums E.numbers factor_count low.now high.now from.now to.now (nth (E.numbers limit.now 1) 0)) out.new }
{
    E::load(low, PRODUCT_COUNT, out.low);
    E::load(high, PRODUCT_COUNT, out.high);
    E::load(from, FACTOR_COUNT, out.from);
    E::load(to, FACTOR_COUNT, out.to);
    let mut alpha = [0i64; 1];
    E::load(limit, 1, &mut alpha);
    out.limit = alpha[0];
}

// Sums of a sample's order into five buffers.
fn store_sample<E: Element>(
    sums: &SumsMut,
    low: &mut [E],
    high: &mut [E],
    from: &mut [E],
    to: &mut [E],
    limit: &mut [E],
)
    requires { (sums.now.order ≡ factor_count) × Roomy sums.now × SumsSizes E.taken factor_count
        (lengths_of (length low.old) (length high.old) (length from.old) (length to.old)) (length limit.old) }
    ensures { ◌≡◌ {A = Left (List E)} (record {
      answer = Ok tt;
      sums = record {
        low = low.new;
        high = high.new;
        from = from.new;
        to = to.new;
        limit = limit.new;
      };
    }) (laid_sample E.elements (Ok (sums_in sums.entry.now)) (record {
      low = low.old;
      high = high.old;
      from = from.old;
      to = to.old;
      limit = limit.old;
    })) }
{
    E::store(sums.low, PRODUCT_COUNT, low);
    E::store(sums.high, PRODUCT_COUNT, high);
    E::store(sums.from, FACTOR_COUNT, from);
    E::store(sums.to, FACTOR_COUNT, to);
    let alpha = [sums.limit];
    E::store(&alpha, 1, limit);
}

// The checks behind 17, and the addition, of a sample whose numbers lie between those of m.
fn gather_measured<E: Element>(
    m: Measures,
    n: i64,
    low: &mut [E],
    high: &mut [E],
    from: &mut [E],
    to: &mut [E],
    limit: &mut [E],
) -> Result<(), Refusal>
    requires { MeasuresNear m }
    ensures { ◌≡◌ {A = Left (List E)} (record {
      answer = result;
      sums = record {
        low = low.exit.now;
        high = high.new;
        from = from.new;
        to = to.new;
        limit = limit.new;
      };
    }) (laid_sample E.elements (entered_sums (factor_of m) m.draw n
        (gather_sizes E.taken (order_of n) (record {
          low = low.entry.now;
          high = high.old;
          from = from.old;
          to = to.old;
          limit = limit.old;
        })) (held_lent E.numbers (order_of n) (record {
          low = low.entry.now;
          high = high.old;
          from = from.old;
          to = to.old;
          limit = limit.old;
        }))) (record {
          low = low.entry.now;
          high = high.old;
          from = from.old;
          to = to.old;
          limit = limit.old;
        })) }
{
    let order = order(n)?;
    let lengths = lengths_of(low.len(), high.len(), from.len(), to.len());
    if !sums_sized::<E>(order, lengths, limit.len()) {
        return Err(Refusal::Length);
    }
    let mut l = [0i64; PRODUCT_COUNT];
    let mut u = [0i64; PRODUCT_COUNT];
    let mut a = [0i64; FACTOR_COUNT];
    let mut b = [0i64; FACTOR_COUNT];
    let mut sums = SumsMut {
        order: FACTOR_COUNT,
        low: &mut l,
        high: &mut u,
        from: &mut a,
        to: &mut b,
        limit: 0,
    };
    load_sample(low, high, from, to, limit, &mut sums);
    add_checked(m, &mut sums)?;
    store_sample(&sums, low, high, from, to, limit);
    Ok(())
}

// Gathers a sample into running sums, of any numbers at all, in buffers of numbers or of bytes: n is an order or not, and each buffer has
// any length; the running limit is the one number of limit. The bounds are mended first (R2.10), and where a sum would leave its range all
// are halved before the sample is added (R23.6). Refused by the first of the checks 17, 1 to 5 and 16 that fails, with every sum kept.
pub fn gather<E: Element>(
    sample: Sample,
    n: i64,
    low: &mut [E],
    high: &mut [E],
    from: &mut [E],
    to: &mut [E],
    limit: &mut [E],
) -> Result<(), Refusal>
    ensures exact { ◌≡◌ {A = Left (List E)} (record {
      answer = result;
      sums = record {
        low = low.exit.now;
        high = high.new;
        from = from.new;
        to = to.new;
        limit = limit.new;
      };
    }) (gather_act E.taken E.numbers E.elements sample n (record {
      low = low.entry.now;
      high = high.old;
      from = from.old;
      to = to.old;
      limit = limit.old;
    })) }
    ensures meaning { Meaning sample result (held_lent E.numbers (order_of n) (record {
      low = low.entry.now;
      high = high.old;
      from = from.old;
      to = to.old;
      limit = limit.old;
    })) (held_lent E.numbers (order_of n) (record {
      low = low.exit.now;
      high = high.new;
      from = from.new;
      to = to.new;
      limit = limit.new;
    })) }
{
    let measures = measure(sample).ok_or(Refusal::Sample)?;
    gather_measured(measures, n, low, high, from, to, limit)
}
