// R12 of docs/RULES.md: the steps t and t(k), which can be taken off all diagonal entries, or off entry (k,k) alone.
// A step t of the tables is 2^32 t of their matrix H: trials are made on a copy of it, of which only diagonal entries are lowered.
#![tactic(auto)]

ghost use Rattle.std.specs.Prelude.{◌≡◌, suc, ◌-◌, ◌≤◌, ◌<◌, pos, ◌≤ℤ◌};
ghost use Rattle.integers.specs.Numbers.{Within};
ghost use Rattle.tables.specs.Ranges.{greatest_order};
ghost use Rattle.tables.specs.Checks.{all};
ghost use Rattle.tables.specs.Buffers.{Filled};
ghost use Rattle.tables.specs.Bounded.{low_of, high_of};
ghost use Rattle.cholesky.specs.Factoring.{factored};
ghost use Rattle.cholesky.specs.Store.{upper};
ghost use Rattle.cholesky.specs.Reduced.{ends_from};
ghost use Rattle.steps.specs.Steps.{lowered, step, step_at};
ghost use Rattle.cholesky.specs.Rows.{Factorable};
ghost use Rattle.steps.specs.Tables.{step_range, taken, stays, Lowered, Triable, step_from};

use cholesky::STRIDE;
use cholesky::row_step::{ends_from, take_row};
use cholesky::scaling::{SCALE, scale};
use tables::bounded::Bounded;
use tables::{GREATEST_ORDER, TABLE_ROOM, Table, Vector};

// A step has 20 bits: 2^19 is tried first.
const STEP_BITS: usize = 20;

// The greatest step.
const MOST_STEP: i64 = (1 << STEP_BITS) - 1;

// Whether at least 1 is left of each diagonal entry from first to last - 1 with e taken off.
fn stays(first: usize, last: usize, e: i64, s: &Table) -> bool
    requires { Factorable s.now last first × (first ≤ last) × Within step_range e }
    ensures { result ≡ all last (stays (upper s.now) first e) }
{
    for i in first..last {
        if s[STRIDE * i + i] - e < 1 {
            return false;
        }
    }
    true
}

// Takes e off the diagonal entries first to last - 1.
fn lower(first: usize, last: usize, e: i64, s: &mut Table)
    requires { Factorable s.old last first × (first ≤ last) × Within step_range e }
    ensures { Lowered first last e s.old s.new }
{
    for i in first..last {
        s[STRIDE * i + i] -= e;
    }
}

// Whether factoring ends in the rows from first on, with e taken off the diagonal entries first to last - 1.
fn trial(n: usize, first: usize, last: usize, e: i64, h: &Table) -> bool
    requires { Triable n first last h.now × (pos 0 ≤ℤ e) × Within step_range e }
    ensures { result ≡ ends_from (n - first) (lowered (taken first last e) (upper h.now)) first }
{
    if !stays(first, last, e, h) {
        return false;
    }
    if n <= first {
        return true;
    }
    let mut s = *h;
    lower(first, last, e, &mut s);
    ends_from(&mut s, n, first)
}

// The step of the last row, k: the greatest that leaves 1 of its diagonal entry.
fn last_step(k: usize, h: &Table) -> i64
    requires { k < greatest_order }
    ensures { result ≡ step_from (suc k) k (suc k) (upper h.now) }
{
    let rest = h[STRIDE * k + k];
    if rest < 1 {
        return 0;
    }
    let most = integers::floor_div(rest - 1, SCALE);
    if most < MOST_STEP { most } else { MOST_STEP }
}

// The step of the diagonal entries first to last - 1, bit by bit: 2^b is added where factoring ends with it.
fn search(n: usize, first: usize, last: usize, h: &Table) -> i64
    requires { Triable n first last h.now }
    ensures { result ≡ step_from n first last (upper h.now) }
{
    if first + 1 == n {
        return last_step(first, h);
    }
    let mut t: i64 = 0;
    for b in (0..STEP_BITS).rev() {
        let next = t + (1 << b);
        if trial(n, first, last, SCALE * next, h) {
            t = next;
        }
    }
    t
}

// t: the step of every diagonal entry.
pub fn step(bounds: Bounded) -> i64
    ensures { result ≡ step bounds.entry.order (low_of bounds.entry) (high_of bounds.entry) }
{
    let n = bounds.order;
    let mut h = [0i64; TABLE_ROOM];
    scale(n, bounds.low, bounds.high, &mut h);
    search(n, 0, n, &h)
}

// Whether factoring ends with nothing taken off.
pub fn ends(bounds: Bounded) -> bool
    requires { 0 < bounds.order }
    ensures { result ≡ (factored bounds.entry.order (low_of bounds.entry) (high_of bounds.entry)).ends }
{
    let n = bounds.order;
    let mut h = [0i64; TABLE_ROOM];
    scale(n, bounds.low, bounds.high, &mut h);
    if h[0] < 1 {
        return false;
    }
    ends_from(&mut h, n, 0)
}

// t(k), of diagonal entry k only, for each k: on what is left after the rows before k. Where factoring stops in one of these, or less
// than 1 is left of the first diagonal entry, t(k) is 0.
pub fn steps_at(bounds: Bounded) -> Vector
    ensures { Filled greatest_order bounds.entry.order (step_at bounds.entry.order (low_of bounds.entry) (high_of bounds.entry)) result }
{
    let n = bounds.order;
    let mut t = [0i64; GREATEST_ORDER];
    let mut h = [0i64; TABLE_ROOM];
    scale(n, bounds.low, bounds.high, &mut h);
    if h[0] < 1 {
        return t;
    }
    for k in 0..n {
        t[k] = search(n, k, k + 1, &h);
        if take_row(&mut h, k, n).is_some() {
            return t;
        }
    }
    t
}
