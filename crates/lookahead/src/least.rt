// The least sum over all choices of the last entries, from 0, 1 and -1. How many entries there are is told by a type, so that the sums are
// worked out without an array and without a loop.
ghost use Rattle.std.specs.Prelude.{List, [], ◌∷◌, ◌≡◌, ℕ, zero, suc, ◌+◌, ◌≤◌, ◌<◌, length, drop};
ghost use Rattle.integers.specs.Numbers.{Within};
ghost use Rattle.tables.specs.Ranges.{greatest_order, table_room};
ghost use Rattle.tables.specs.Matrix.{at, nth};
ghost use Rattle.lookahead.specs.Pairs.{same_sign, other_sign, sum_range, least_range, PairTables, OpenShares};
ghost use Rattle.lookahead.specs.LeastSums.{least_of, least, least_choice, raised, share_at, shares_from};
ghost use Rattle.lookahead.specs.LeastSums.{share_after, shares_after, least_shares, ShareWithin, AllWithin, LastShares};

use crate::ahead::{OTHER_SIGN_START, Pairs, row_entry};
use integers::smaller;
use tables::Vector;

// What an entry would add if it were 1, and if it were -1.
#[derive(Clone, Copy, Debug, PartialEq, Eq)]
pub struct Share {
    pub plus: i64,
    pub minus: i64,
}

// What entry k would add.
fn share_at(plus: &Vector, minus: &Vector, k: usize) -> Share
    requires { k < greatest_order }
    ensures { result ≡ share_at (nth plus.now) (nth minus.now) k }
{
    Share {
        plus: plus[k],
        minus: minus[k],
    }
}

// The least of three numbers.
fn least_of(x: i64, y: i64, z: i64) -> i64
    ensures { result ≡ least_of x y z }
{
    smaller(smaller(x, y), z)
}

// The least sum over the choices of an entry, from the least with those after it where it is 0, 1 and -1.
fn least_choice(a: Share, zero: i64, one: i64, opposite: i64) -> i64
    requires { ShareWithin least_range a × Within least_range one × Within least_range opposite }
    ensures { result ≡ least_choice a zero one opposite }
{
    least_of(zero, a.plus + one, a.minus + opposite)
}

// What entry k would add once entry i is chosen. `plus` and `minus` are where the tables start whose row i tells what is added to the
// two numbers: that for the same sign and that for different signs where entry i is 1, and the other way round where it is -1.
fn share_after(
    n: usize,
    pairs: &Pairs,
    plus: usize,
    minus: usize,
    i: usize,
    k: usize,
    share: Share,
) -> Share
    requires { PairTables n pairs.now × (plus ≤ table_room) × (minus ≤ table_room) × (i < n) × (k < greatest_order)
        × ShareWithin least_range share }
    ensures { result ≡ share_after (at n (drop plus pairs.now)) (at n (drop minus pairs.now)) i k share }
{
    Share {
        plus: share.plus + row_entry(n, pairs, plus, i, k),
        minus: share.minus + row_entry(n, pairs, minus, i, k),
    }
}

// The share of the last entry, with the sum in it.
pub fn raised(sum: i64, share: Share) -> Share
    requires { Within least_range sum × ShareWithin least_range share }
    ensures { result ≡ raised sum share }
{
    Share {
        plus: share.plus + sum,
        minus: share.minus + sum,
    }
}

// What the last entries would add, one of them or more, with the sum in the share of the last one.
pub trait Shares: Copy {
    ghost use Rattle.lookahead.specs.declared.least.Share.{Share};

    // How many entries come after the first.
    ghost later: { ℕ };

    // The shares in the entries' order.
    ghost listed: { Self → List Share };

    // The shares of the entries from entry k on.
    fn starting(sum: i64, plus: &Vector, minus: &Vector, k: usize) -> Self
        requires { (k + later < greatest_order) × Within least_range sum × ((i : ℕ) → k ≤ i → i < greatest_order →
            ShareWithin least_range (share_at (nth plus.now) (nth minus.now) i)) }
        ensures { listed result ≡ shares_from (nth plus.now) (nth minus.now) sum k later };

    // What they would add once entry d is chosen, which is before entry k, the first of them. `plus` and `minus` as in `share_after`.
    fn after(self, n: usize, pairs: &Pairs, plus: usize, minus: usize, d: usize, k: usize) -> Self
        requires { PairTables n pairs.now × (plus ≤ table_room) × (minus ≤ table_room) × (d < n)
            × (k + length (listed self) ≤ greatest_order) × AllWithin least_range (listed self) }
        ensures { listed result ≡ shares_after (at n (drop plus pairs.now)) (at n (drop minus pairs.now)) d k (listed
            self) };

    // The least sum over their choices, the first of them entry d.
    fn least(self, n: usize, pairs: &Pairs, d: usize, sum: i64) -> i64
        requires { LastShares n pairs.now sum d (listed self) }
        ensures { result ≡ least_shares (same_sign n pairs.now) (other_sign n pairs.now) sum d later (listed self) };
}

// The share of the last entry.
impl Shares for Share {
    ghost later = { 0 };

    ghost listed = { λ a. a ∷ [] };

    fn starting(sum: i64, plus: &Vector, minus: &Vector, k: usize) -> Share {
        raised(sum, share_at(plus, minus, k))
    }

    fn after(
        self,
        n: usize,
        pairs: &Pairs,
        plus: usize,
        minus: usize,
        d: usize,
        k: usize,
    ) -> Share {
        share_after(n, pairs, plus, minus, d, k, self)
    }

    fn least(self, _n: usize, _pairs: &Pairs, _d: usize, sum: i64) -> i64 {
        least_of(sum, self.plus, self.minus)
    }
}

// The share of an entry, and those of the entries after it.
#[derive(Clone, Copy, Debug, PartialEq, Eq)]
pub struct Several<S> {
    pub first: Share,
    pub rest: S,
}

impl<S: Shares> Shares for Several<S> {
    ghost later = { suc S.later };

    ghost listed = { λ s. s.first ∷ S.listed s.rest };

    fn starting(sum: i64, plus: &Vector, minus: &Vector, k: usize) -> Several<S> {
        let first = share_at(plus, minus, k);
        let rest = S::starting(sum, plus, minus, k + 1);
        Several { first, rest }
    }

    fn after(
        self,
        n: usize,
        pairs: &Pairs,
        plus: usize,
        minus: usize,
        d: usize,
        k: usize,
    ) -> Several<S> {
        let first = share_after(n, pairs, plus, minus, d, k, self.first);
        let rest = self.rest.after(n, pairs, plus, minus, d, k + 1);
        Several { first, rest }
    }

    fn least(self, n: usize, pairs: &Pairs, d: usize, sum: i64) -> i64 {
        let i = d + 1;
        let zero = self.rest.least(n, pairs, i, sum);
        let after_one = self.rest.after(n, pairs, 0, OTHER_SIGN_START, d, i);
        let one = after_one.least(n, pairs, i, sum);
        let after_opposite = self.rest.after(n, pairs, OTHER_SIGN_START, 0, d, i);
        let opposite = after_opposite.least(n, pairs, i, sum);
        least_choice(self.first, zero, one, opposite)
    }
}

// The least sum over the choices of the entries from d on, as many as S has shares.
pub fn least_left<S: Shares>(
    n: usize,
    pairs: &Pairs,
    d: usize,
    sum: i64,
    plus: &Vector,
    minus: &Vector,
) -> i64
    requires { OpenShares n pairs.now d plus.now minus.now × Within sum_range sum × (d + suc S.later ≡ n) }
    ensures { result ≡ least (same_sign n pairs.now) (other_sign n pairs.now) d (suc S.later)
        (nth plus.now) (nth minus.now) sum }
{
    let shares = S::starting(sum, plus, minus, d);
    shares.least(n, pairs, d, sum)
}
