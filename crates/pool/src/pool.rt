// R27 of docs/RULES.md: problems pooled into running sums, in buffers of numbers or of bytes.
ghost use Rattle.std.specs.Prelude.{◌≡◌, List, ◌≤◌, length};
ghost use Rattle.tables.specs.Ranges.{greatest_order};
ghost use Rattle.tables.specs.Checks.{order_of};
ghost use Rattle.sums.specs.Lent.{Left, sums_of};
ghost use Rattle.pool.specs.Pool.{greatest_pool, count_of, problem_at, problems_of, checked_pool};
ghost use Rattle.pool.specs.Act.{lent_of, laid_out, pool_act, Meaning};
ghost use Rattle.pool.specs.Required.{Sized, LentSums};
ghost use Rattle.pool.specs.Listed.{problems_in};

use crate::GREATEST_POOL;
use crate::entering::{check_entry, count_of};
use crate::lists::Lists;
use crate::loading::pool_all;
use crate::parts::Listed;
use sums::running::SumsMut;
use tables::entering::order;
use tables::problem::lengths_of;
use tables::{GREATEST_ORDER, Refusal, TABLE_ROOM};

// Pools the problems of the lists into lent sums of order n, all of them of their sizes.
fn pool_lists<E: Listed>(
    n: usize,
    count: usize,
    lists: Lists<E>,
    low: &mut [E],
    high: &mut [E],
    from: &mut [E],
    to: &mut [E],
    limit: &mut [E],
) -> Result<(), Refusal>
    requires { (n ≤ greatest_order) × (count ≤ greatest_pool) × Sized (E.taken 1) n count (problems_in lists)
        × LentSums (E.taken 1) n (record { low = low.now; high = high.old; from = from.old; to = to.old; limit = limit.old }) }
    ensures { ◌≡◌ {A = Left (List E)} (record {
      answer = result;
      sums = record {
        low = low.exit.now;
        high = high.new;
        from = from.new;
        to = to.new;
        limit = limit.new;
      };
    }) (laid_out E.elements n (checked_pool (sums_of n (lent_of E.numbers n (record {
      low = low.entry.now;
      high = high.old;
      from = from.old;
      to = to.old;
      limit = limit.old;
    })))
        (problem_at n (problems_of E.numbers n count (problems_in lists.entry))) count) (record {
          low = low.entry.now;
          high = high.old;
          from = from.old;
          to = to.old;
          limit = limit.old;
        })) }
{
    let mut l = [0i64; TABLE_ROOM];
    let mut u = [0i64; TABLE_ROOM];
    let mut a = [0i64; GREATEST_ORDER];
    let mut b = [0i64; GREATEST_ORDER];
    let mut one = [0i64; 1];
    E::load(low, n * n, &mut l);
    E::load(high, n * n, &mut u);
    E::load(from, n, &mut a);
    E::load(to, n, &mut b);
    E::load(limit, 1, &mut one);
    let mut sums = SumsMut {
        order: n,
        low: &mut l,
        high: &mut u,
        from: &mut a,
        to: &mut b,
        limit: one[0],
    };
    pool_all(count, &lists, &mut sums)?;
    E::store(sums.low, n * n, low);
    E::store(sums.high, n * n, high);
    E::store(sums.from, n, from);
    E::store(sums.to, n, to);
    E::store(&[sums.limit], 1, limit);
    Ok(())
}

// Pools problems into running sums, of any numbers at all, in buffers of numbers or of bytes: n is an order or not, and each buffer has any
// length. The running limit is the one number of limit. The list of orders has 1 to 64 numbers, each of them n, and the other lists have
// the numbers of one problem after the other. Sums and problems are mended first (R2.10), and each problem may halve the sums once (R23.6).
// Refused by the first of the checks 1 to 5, 16 and 18 that fails, with every sum kept.
pub fn pool<E: Listed>(
    n: i64,
    low: &mut [E],
    high: &mut [E],
    from: &mut [E],
    to: &mut [E],
    limit: &mut [E],
    orders: &[E],
    lows: &[E],
    highs: &[E],
    froms: &[E],
    tos: &[E],
    limits: &[E],
) -> Result<(), Refusal>
    ensures exact { ◌≡◌ {A = Left (List E)} (record {
      answer = result;
      sums = record {
        low = low.exit.now;
        high = high.new;
        from = from.new;
        to = to.new;
        limit = limit.new;
      };
    }) (pool_act E.taken E.numbers E.elements n orders.now (record {
      lows = lows.entry.now;
      highs = highs.now;
      froms = froms.now;
      tos = tos.now;
      limits = limits.now;
    }) (record {
      low = low.entry.now;
      high = high.old;
      from = from.old;
      to = to.old;
      limit = limit.old;
    })) }
    ensures meaning { Meaning result (problem_at (order_of n) (problems_of E.numbers (order_of n) (count_of (E.taken 1)
        (length orders.now)) (record {
          lows = lows.entry.now;
          highs = highs.now;
          froms = froms.now;
          tos = tos.now;
          limits = limits.now;
        }))) (count_of (E.taken 1) (length orders.now)) (sums_of (order_of n) (lent_of E.numbers (order_of n) (record {
          low = low.entry.now;
          high = high.old;
          from = from.old;
          to = to.old;
          limit = limit.old;
        }))) (sums_of (order_of n) (lent_of E.numbers (order_of n) (record {
          low = low.exit.now;
          high = high.new;
          from = from.new;
          to = to.new;
          limit = limit.new;
        }))) }
{
    let order = order(n)?;
    let unit = E::taken(1);
    let count = count_of(unit, orders.len()).ok_or(Refusal::Length)?;
    let mut each = [0i64; GREATEST_POOL];
    E::load(orders, count, &mut each);
    let sums = lengths_of(low.len(), high.len(), from.len(), to.len());
    let problems = lengths_of(lows.len(), highs.len(), froms.len(), tos.len());
    check_entry(
        unit,
        n,
        count,
        &each,
        sums,
        limit.len(),
        problems,
        limits.len(),
    )?;
    let lists = Lists {
        lows,
        highs,
        froms,
        tos,
        limits,
    };
    pool_lists(order, count, lists, low, high, from, to, limit)
}
