// R23.4 of docs/RULES.md: running sums, read with an allowance.
ghost use Rattle.std.specs.Prelude.{◌≡◌, ◌&&◌, ◌*◌, ◌≤◌, length};
ghost use Rattle.tables.specs.Ranges.{greatest_order};
ghost use Rattle.tables.specs.Checks.{order_of};
ghost use Rattle.tables.specs.Problem.{constraint_of, lengths_of};
ghost use Rattle.sums.specs.Running.{BehindRoomy};
ghost use Rattle.rides.specs.Reading.{held_sums, reading_sizes, limits_in, checked_reading, read_sums, ReadingMeaning};

use sums::checking::check_sums;
use sums::running::SumsRef;
use tables::elements::Element;
use tables::entering::order;
use tables::problem::{Sizes, constraint_sized, lengths_of};
use tables::{GREATEST_ORDER, LIMIT_RANGE, Refusal, TABLE_ROOM, within};

// An allowance is from 0 to this.
pub const ALLOWANCE_RANGE: i64 = 1 << 40;

// Check 3, of the running limit, the allowance and their sum: each is compared before it is added.
fn limits_in(allowance: i64, running: i64) -> bool
    ensures { result ≡ limits_in allowance running }
{
    if !within(running, LIMIT_RANGE) {
        return false;
    }
    if allowance < 0 {
        return false;
    }
    if ALLOWANCE_RANGE < allowance {
        return false;
    }
    within(allowance + running, LIMIT_RANGE)
}

// Checks 3, 4, 5 and 16 of sums of order n, and the limit.
pub fn read_checked(n: usize, sums: SumsRef, allowance: i64) -> Result<i64, Refusal>
    requires { (n ≤ greatest_order) × BehindRoomy n sums }
    ensures { result ≡ checked_reading allowance (constraint_of n sums.entry.low.now sums.entry.high.now sums.entry.from.now
        sums.entry.to.now sums.entry.limit) }
{
    check_sums(n, limits_in(allowance, sums.limit), sums)?;
    Ok(allowance + sums.limit)
}

// The same of sums in buffers of the sizes of order n: the numbers go into scratch arrays, where the checks are made.
fn read_held<E: Element>(
    n: usize,
    low: &[E],
    high: &[E],
    from: &[E],
    to: &[E],
    running: i64,
    allowance: i64,
) -> Result<i64, Refusal>
    requires { (n ≤ greatest_order) × (length low.now ≡ E.taken (n * n)) × (length high.now ≡ E.taken (n * n))
        × (length from.now ≡ E.taken n) × (length to.now ≡ E.taken n) }
    ensures { result ≡ checked_reading allowance (held_sums E.numbers n low.now high.now from.now to.now running) }
{
    let mut l = [0i64; TABLE_ROOM];
    let mut u = [0i64; TABLE_ROOM];
    let mut a = [0i64; GREATEST_ORDER];
    let mut b = [0i64; GREATEST_ORDER];
    E::load(low, n * n, &mut l);
    E::load(high, n * n, &mut u);
    E::load(from, n, &mut a);
    E::load(to, n, &mut b);
    let sums = SumsRef {
        low: &l,
        high: &u,
        from: &a,
        to: &b,
        limit: running,
    };
    read_checked(n, sums, allowance)
}

// Reads running sums of a call that lends other buffers too: `others` says whether these have their sizes. The answer is the limit of the
// problem that the sums are with the allowance, whose bounds and linear terms are the sums' own. Refused by the first of the checks 1 to 5
// and 16 that fails.
pub fn read_sums_among<E: Element>(
    n: i64,
    others: bool,
    low: &[E],
    high: &[E],
    from: &[E],
    to: &[E],
    running: i64,
    allowance: i64,
) -> Result<i64, Refusal>
    ensures exact { result ≡ read_sums n (reading_sizes E.taken (order_of n) (lengths_of (length low.now) (length high.now)
        (length from.now) (length to.now)) && others) allowance
        (held_sums E.numbers (order_of n) low.now high.now from.now to.now running) }
    ensures meaning { ReadingMeaning result allowance (held_sums E.numbers (order_of n) low.now high.now from.now to.now running) }
{
    let m = order(n)?;
    let sizes = Sizes {
        table: E::taken(m * m),
        vector: E::taken(m),
    };
    let lengths = lengths_of(low.len(), high.len(), from.len(), to.len());
    let own = constraint_sized(sizes, lengths);
    let sized = own && others;
    if !sized {
        return Err(Refusal::Length);
    }
    read_held(m, low, high, from, to, running, allowance)
}

// Reads running sums of any order with an allowance, of any numbers at all, in buffers of numbers or of bytes.
pub fn read_sums<E: Element>(
    n: i64,
    low: &[E],
    high: &[E],
    from: &[E],
    to: &[E],
    running: i64,
    allowance: i64,
) -> Result<i64, Refusal>
    ensures exact { result ≡ read_sums n (reading_sizes E.taken (order_of n) (lengths_of (length low.now) (length high.now)
        (length from.now) (length to.now))) allowance
        (held_sums E.numbers (order_of n) low.now high.now from.now to.now running) }
    ensures meaning { ReadingMeaning result allowance (held_sums E.numbers (order_of n) low.now high.now from.now to.now running) }
{
    read_sums_among(n, true, low, high, from, to, running, allowance)
}
