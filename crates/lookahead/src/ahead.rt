// Whether no choice of the last entries, at most four, brings the sum to 0 or less: by the least sum, without arrays and
// without a search for the first. What two entries add is read from two tables of order n that stand in one array: for the same sign from
// entry 0 on, for different signs from entry OTHER_SIGN_START on.
ghost use Rattle.std.specs.Prelude.{◌≡◌, ◌+◌, ◌-◌, ◌≤◌, ◌<◌, drop};
ghost use Rattle.integers.specs.Numbers.{Within};
ghost use Rattle.tables.specs.Ranges.{greatest_order, table_room};
ghost use Rattle.tables.specs.Matrix.{at, nth};
ghost use Rattle.lookahead.specs.Pairs.{same_sign, other_sign, sum_range, PairTables, OpenShares, Searching};
ghost use Rattle.lookahead.specs.LeastSums.{look_ahead, least, passed_over, share_at};

use crate::least::{Several, Share, least_left};
use tables::{TABLE_ROOM, Vector};

// Where the table for two entries of different signs starts.
pub const OTHER_SIGN_START: usize = TABLE_ROOM;

// Both tables, in room for the greatest order.
pub const PAIRS_ROOM: usize = 2 * TABLE_ROOM;

pub type Pairs = [i64; PAIRS_ROOM];

// Where this many entries are left, or fewer, their least sum is worked out: each number of them has a type of shares.
const LOOK_AHEAD: usize = 4;

type Two = Several<Share>;

type Three = Several<Two>;

type Four = Several<Three>;

// Entry (d, k) of the table from `start` on. From n on it is of a later row, or 0.
pub fn row_entry(n: usize, pairs: &Pairs, start: usize, d: usize, k: usize) -> i64
    requires { PairTables n pairs.now × (start ≤ table_room) × (d < n) × (k < greatest_order) }
    ensures { result ≡ at n (drop start pairs.now) d k }
{
    pairs[start + d * n + k]
}

// The least sum over the choices of the last entries, one to four of them.
fn few_left(n: usize, pairs: &Pairs, left: usize, sum: i64, plus: &Vector, minus: &Vector) -> i64
    requires { OpenShares n pairs.now (n - left) plus.now minus.now × Within sum_range sum × (left ≤ n) × (0 < left)
        × (left ≤ look_ahead) }
    ensures { result ≡ least (same_sign n pairs.now) (other_sign n pairs.now) (n - left) left
        (nth plus.now) (nth minus.now) sum }
{
    let d = n - left;
    match left {
        1 => least_left::<Share>(n, pairs, d, sum, plus, minus),
        2 => least_left::<Two>(n, pairs, d, sum, plus, minus),
        3 => least_left::<Three>(n, pairs, d, sum, plus, minus),
        _ => least_left::<Four>(n, pairs, d, sum, plus, minus),
    }
}

// Whether at most four entries are left, and no choice of them brings the sum to 0 or less.
pub fn passed_over(
    n: usize,
    pairs: &Pairs,
    left: usize,
    sum: i64,
    plus: &Vector,
    minus: &Vector,
) -> bool
    requires { Searching n pairs.now left sum plus.now minus.now × (0 < left) }
    ensures { result ≡ passed_over (same_sign n pairs.now) (other_sign n pairs.now) (n - left) left
        (nth plus.now) (nth minus.now) sum }
{
    if LOOK_AHEAD < left {
        return false;
    }
    0 < few_left(n, pairs, left, sum, plus, minus)
}
