// The tried vectors, R9 and R20.1 of docs/RULES.md, and the first of them that is under a number w (R26.1), which w = 0 makes the first
// that shows 'not definite'. Entries are chosen from the first on. The entries chosen have a least value, less w times their squares: the
// sum so far, and each open entry has what it would add to that. How many entries are left is the parameter of the recursion, which falls
// to zero: of `left` entries the first is entry n - left. What two entries add stands in one array: 2 L, for two of the same sign, and from
// entry OTHER_SIGN_START on -2 U, for two of different signs.
#![tactic(auto)]

ghost use Rattle.std.specs.Prelude.{◌≡◌, suc, ◌-◌, ◌*◌, ◌≤◌, ◌<◌, pos, ◌+ℤ◌, length};
ghost use Rattle.integers.specs.Numbers.{Within};
ghost use Rattle.tables.specs.Ranges.{greatest_order, table_room, entry_range};
ghost use Rattle.tables.specs.Bounded.{low_of, high_of};
ghost use Rattle.tables.specs.Matrix.{nth};
ghost use Rattle.vectors.specs.Least.{shows, under};
ghost use Rattle.lookahead.specs.Pairs.{same_sign, other_sign, under_range, share_range, sum_range};
ghost use Rattle.lookahead.specs.Pairs.{PairTables, Open, OpenShares, Searching};
ghost use Rattle.tried.specs.Tried.{tried, first, listed};
ghost use Rattle.tried.specs.Search.{seek, by_sign, seek_after, in_front, seek_half, Searched, FilledPairs, Added, Chosen, Diagonal};

use lookahead::ahead::{OTHER_SIGN_START, PAIRS_ROOM, Pairs, passed_over, row_entry};
use tables::bounded::Bounded;
use tables::{GREATEST_ORDER, Vector};

// Adds row d of the table from `start` on to what the entries would add. All of its room is added, which takes fewer steps than a count
// does: what stands from n on is never read.
fn add_row(n: usize, pairs: &Pairs, start: usize, d: usize, from: &Vector, to: &mut Vector)
    requires { PairTables n pairs.now × (start ≤ table_room) × (d < n) × Open d from.now × (length to.old ≡
        greatest_order) }
    ensures { Added n pairs.now start d from.now to.new greatest_order }
{
    for k in 0..GREATEST_ORDER {
        to[k] = from[k] + row_entry(n, pairs, start, d, k);
    }
}

// What the entries after entry d would add, once it is chosen and not 0.
fn choose(
    n: usize,
    pairs: &Pairs,
    d: usize,
    entry: i64,
    plus: &Vector,
    minus: &Vector,
    p: &mut Vector,
    q: &mut Vector,
)
    requires { OpenShares n pairs.now d plus.now minus.now × (d < n) × (entry ≡ pos 0 → ⊥)
        × (length p.old ≡ greatest_order) × (length q.old ≡ greatest_order) }
    ensures { Chosen n pairs.now d entry plus.now minus.now p.new q.new }
{
    if 0 < entry {
        add_row(n, pairs, 0, d, plus, p);
        add_row(n, pairs, OTHER_SIGN_START, d, minus, q);
        return;
    }
    add_row(n, pairs, OTHER_SIGN_START, d, plus, p);
    add_row(n, pairs, 0, d, minus, q);
}

// The sum with an entry that would add `plus` if it were 1, and `minus` if it were -1.
fn sum_with(entry: i64, sum: i64, plus: i64, minus: i64) -> i64
    requires { Within sum_range sum × Within share_range plus × Within share_range minus }
    ensures { result ≡ by_sign entry sum (sum +ℤ plus) (sum +ℤ minus) }
{
    if 0 < entry {
        return sum + plus;
    }
    if entry < 0 {
        return sum + minus;
    }
    sum
}

// The recursion is lent the vector that is found: an Option of it, handed from level to level, took 12.4 KB of stack where the header
// reserves 8.
//
// Chooses the entries that are left after an entry, down to where none is left: there the sum tells. What they would add is as before where
// that entry is 0.
#[cycle(search_search_after_search_with)]
fn search_after(
    n: usize,
    pairs: &Pairs,
    left: usize,
    entry: i64,
    sum: i64,
    plus: &Vector,
    minus: &Vector,
    x: &mut Vector,
) -> bool
    requires { OpenShares n pairs.now (n - suc left) plus.now minus.now × (left < n) × Within ((n - left) * share_range) sum
        × (length x.old ≡ greatest_order) }
    ensures { Searched
        (seek_after (same_sign n pairs.now) (other_sign n pairs.now) (n - suc left) left entry
        (nth plus.now) (nth minus.now) sum)
        result (n - left) left x.new }
{
    if left == 0 {
        return sum <= 0;
    }
    if entry == 0 {
        return search(n, pairs, left, sum, plus, minus, x);
    }
    let mut p = [0i64; GREATEST_ORDER];
    let mut q = [0i64; GREATEST_ORDER];
    choose(n, pairs, n - (left + 1), entry, plus, minus, &mut p, &mut q);
    search(n, pairs, left, sum, &p, &q, x)
}

// Chooses the entries that are left, with a given one in front.
#[cycle(search_search_after_search_with)]
fn search_with(
    n: usize,
    pairs: &Pairs,
    left: usize,
    entry: i64,
    sum: i64,
    plus: &Vector,
    minus: &Vector,
    x: &mut Vector,
) -> bool
    requires { Searching n pairs.now left sum plus.now minus.now × (0 < left) × (length x.old ≡ greatest_order) }
    ensures { Searched
        (in_front (same_sign n pairs.now) (other_sign n pairs.now) (n - left) (left - 1) entry
        (nth plus.now) (nth minus.now) sum)
        result (n - left) left x.new }
{
    let d = n - left;
    let with = sum_with(entry, sum, plus[d], minus[d]);
    let hit = search_after(n, pairs, left - 1, entry, with, plus, minus, x);
    x[d] = entry;
    hit
}

// Chooses the entries that are left: tries 0, 1 and -1 in front, each with all choices of the entries after it. Where at most four are
// left, and none of their choices brings the sum to 0 or less, they are passed over.
#[cycle(search_search_after_search_with)]
fn search(
    n: usize,
    pairs: &Pairs,
    left: usize,
    sum: i64,
    plus: &Vector,
    minus: &Vector,
    x: &mut Vector,
) -> bool
    requires { Searching n pairs.now left sum plus.now minus.now × (0 < left) × (length x.old ≡ greatest_order) }
    ensures { Searched
        (seek (same_sign n pairs.now) (other_sign n pairs.now) (n - left) left
        (nth plus.now) (nth minus.now) sum)
        result (n - left) left x.new }
{
    if passed_over(n, pairs, left, sum, plus, minus) {
        return false;
    }
    if search_with(n, pairs, left, 0, sum, plus, minus, x) {
        return true;
    }
    if search_with(n, pairs, left, 1, sum, plus, minus, x) {
        return true;
    }
    search_with(n, pairs, left, -1, sum, plus, minus, x)
}

// The same where all entries before them are 0: not all are, and the first that is not is 1.
fn search_half(n: usize, pairs: &Pairs, left: usize, plus: &Vector, x: &mut Vector) -> bool
    requires { Searching n pairs.now left (pos 0) plus.now plus.now × (length x.old ≡ greatest_order) }
    ensures { Searched
        (seek_half (same_sign n pairs.now) (other_sign n pairs.now) (n - left) left (nth plus.now))
        result (n - left) left x.new }
{
    if left == 0 {
        return false;
    }
    if search_half(n, pairs, left - 1, plus, x) {
        let d = n - left;
        x[d] = 0;
        return true;
    }
    search_with(n, pairs, left, 1, 0, plus, plus, x)
}

// What two entries add, from the tables of the bounds: 2 L and -2 U.
fn fill_pairs(bounds: Bounded, pairs: &mut Pairs)
    requires { PairTables bounds.order pairs.old }
    ensures { FilledPairs bounds.entry.order bounds.entry.low.now bounds.entry.high.now pairs.new
        (bounds.entry.order * bounds.entry.order) }
{
    let count = bounds.order * bounds.order;
    for k in 0..count {
        pairs[k] = 2 * bounds.low[k];
        pairs[OTHER_SIGN_START + k] = -2 * bounds.high[k];
    }
}

// What each entry adds by itself, with w taken off.
fn diagonal(bounds: Bounded, w: i64, p: &mut Vector)
    requires { Open 0 p.old × Within under_range w }
    ensures { Diagonal bounds.entry.order bounds.entry.low.now w p.new bounds.entry.order }
{
    for k in 0..bounds.order {
        p[k] = bounds.low_at(k, k) - w;
    }
}

// The first tried vector that is under w.
pub fn first_under(bounds: Bounded, w: i64) -> Option<Vector>
    requires { Within under_range w }
    ensures { listed bounds.entry.order result
        ≡ first (λ v. under bounds.entry.order (low_of bounds.entry) (high_of bounds.entry) w (nth v))
        (tried bounds.entry.order) }
{
    let mut pairs = [0i64; PAIRS_ROOM];
    let mut p = [0i64; GREATEST_ORDER];
    fill_pairs(bounds, &mut pairs);
    diagonal(bounds, w, &mut p);
    let mut x = [0i64; GREATEST_ORDER];
    let hit = search_half(bounds.order, &pairs, bounds.order, &p, &mut x);
    hit.then_some(x)
}

// The first tried vector that shows 'not definite'.
pub fn first_tried(bounds: Bounded) -> Option<Vector>
    ensures { listed bounds.entry.order result
        ≡ first (λ v. shows bounds.entry.order (low_of bounds.entry) (high_of bounds.entry) (nth v))
        (tried bounds.entry.order) }
{
    first_under(bounds, 0)
}
