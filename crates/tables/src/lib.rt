// Bounded symmetric matrices, R2, R4 and R5 of docs/RULES.md: refusals, and the checks 1 to 5 and 16 of a problem.
#![tactic(auto)]

ghost use Rattle.std.specs.Prelude.{◌≡◌, Bool, true, false, ◌&&◌, ◌++◌, ◌*◌, ◌≤◌, ◌<◌, ℤ, pos, nat_abs, ◌≤ℤ◌, length, take, drop};
ghost use Rattle.tables.specs.Matrix.{at};
ghost use Rattle.tables.specs.Ranges.{greatest_order};
ghost use Rattle.tables.specs.Refusals.{refusal_number};
ghost use Rattle.tables.specs.Answers.{answer_code, yes_or_no_code};
ghost use Rattle.tables.specs.Checks.{order_ok, sizes_ok, within, all_within, tables_within};
ghost use Rattle.tables.specs.Checks.{linear_within, terms_within, nowhere_crossed, bounds_checks, ends_checks};
ghost use Rattle.tables.specs.Checks.{first_refusal};
ghost use Rattle.tables.specs.Pairs.{entry_bounded, pair_even, pair_meets, pair_bounded, row_bounded, tables_bounded};

pub mod bounded;
pub mod elements;
pub mod entering;
pub mod mending;
pub mod problem;

use crate::bounded::Handed;

// Orders are from 1 to this (R2.1).
pub const GREATEST_ORDER: usize = 8;

// The same as a number that is compared with n.
const LAST_ORDER: i64 = GREATEST_ORDER as i64;

// The numbers of a table of the greatest order.
pub const TABLE_ROOM: usize = GREATEST_ORDER * GREATEST_ORDER;

// The numbers of the sides of a box of the greatest order: low and high.
pub const SIDES_ROOM: usize = 2 * GREATEST_ORDER;

// A table in scratch memory: n² numbers at its front. How they lie there, its user says.
pub type Table = [i64; TABLE_ROOM];

// A vector in scratch memory: n numbers at its front.
pub type Vector = [i64; GREATEST_ORDER];

// The sides of a box in scratch memory: side k at 2 k and 2 k + 1.
pub type Sides = [i64; SIDES_ROOM];

// Entries of L and U are within ±2^20 (R2.3).
pub const ENTRY_RANGE: i64 = 1 << 20;

// Entries of a factor are within ±2^26 (R2.8).
pub const FACTOR_RANGE: i64 = 1 << 26;

// Entries of a vector are within ±2^15 (R2.7).
pub const VECTOR_RANGE: i64 = 1 << 15;

// Both ends of a linear term are within ±2^36 (R2.4).
pub const LINEAR_RANGE: i64 = 1 << 36;

// The limit is within ±2^54 (R2.5).
pub const LIMIT_RANGE: i64 = 1 << 54;

// Entries of the centre are within ±2^12 (R2.6).
pub const CENTRE_RANGE: i64 = 1 << 12;

// The greatest g(k) that is let through.
pub const GRADIENT_RANGE: i64 = 1 << 20;

// The refusals, in the order of their numbers: refusal k is rule R4.k of docs/RULES.md.
#[derive(Clone, Copy, Debug, PartialEq, Eq)]
pub enum Refusal {
    Order = 1,
    Length,
    Range,
    Crossed,
    Lopsided,
    Factor,
    Vector,
    Flat,
    Far,
    Cut,
    Tag,
    Again,
    Absent,
    Size,
    Long,
    Reversed,
    Sample,
    Full,
    Falling,
    Busy,
}

impl Refusal {
    // The number of a refusal (R4).
    pub fn number(self) -> u8
        ensures { result ≡ refusal_number self }
    {
        self as u8
    }
}

// What an act answers where nothing is refused: it has a number at the C entries (R15.4), 0 or less.
pub trait Answer {
    ghost code: { Self → ℤ };

    fn code(self) -> i64
        ensures { result ≡ code self };
}

// Done, with no more to say: 0.
impl Answer for () {
    ghost code = { λ _. pos 0 };

    fn code(self) -> i64 {
        0
    }
}

// 'yes' 0, 'no' -1 (R8.4).
impl Answer for bool {
    ghost code = { yes_or_no_code };

    fn code(self) -> i64 {
        if self { 0 } else { -1 }
    }
}

// A number that is handed out: 0.
impl Answer for i64 {
    ghost code = { λ _. pos 0 };

    fn code(self) -> i64 {
        0
    }
}

// The number at a C entry of what an act answers (R15.4): the answer's, or the refusal's.
pub fn answer_code<A: Answer>(given: Result<A, Refusal>) -> i64
    ensures { result ≡ answer_code A.code given }
{
    match given {
        Ok(answer) => answer.code(),
        Err(refusal) => refusal.number() as i64,
    }
}

// Entry (i, j) of a table of order n.
pub fn entry(n: usize, t: &[i64], i: usize, j: usize) -> i64
    requires { (n ≤ greatest_order) × (i < n) × (j < n) × (n * n ≤ length t.now) }
    ensures { result ≡ at n t.now i j }
{
    t[i * n + j]
}

// Copies the first numbers of x, count of them, to the front of out.
pub fn copy_numbers(count: usize, x: &[i64], out: &mut [i64])
    requires { (count ≤ length x.now) × (count ≤ length out.old) }
    ensures { out.new ≡ take count x.now ++ drop count out.old }
{
    out[..count].copy_from_slice(&x[..count]);
}

// Whether n is an order.
pub fn order_ok(n: i64) -> bool
    ensures { result ≡ order_ok n }
{
    if n < 1 {
        return false;
    }
    n <= LAST_ORDER
}

// Whether two tables have the size of a table, and what is offered with them the size of an offer.
pub fn sizes_ok(table: usize, offer: usize, low: usize, high: usize, offered: usize) -> bool
    ensures { result ≡ sizes_ok table offer low high offered }
{
    low == table && (high == table && offered == offer)
}

// Whether |x| is at most the bound.
pub fn within(x: i64, bound: i64) -> bool
    requires { pos 0 ≤ℤ bound }
    ensures { result ≡ within (nat_abs bound) x }
{
    if x < -bound {
        return false;
    }
    x <= bound
}

// Whether the first numbers of x, count of them, are within the bound.
pub fn all_within(x: &[i64], count: usize, bound: i64) -> bool
    requires { (count ≤ length x.now) × (pos 0 ≤ℤ bound) }
    ensures { result ≡ all_within (nat_abs bound) count x.now }
{
    for v in &x[..count] {
        if !within(*v, bound) {
            return false;
        }
    }
    true
}

// Whether none of the first numbers of low, count of them, is above that of high.
pub fn nowhere_crossed(low: &[i64], high: &[i64], count: usize) -> bool
    requires { (count ≤ length low.now) × (count ≤ length high.now) }
    ensures { result ≡ nowhere_crossed count low.now high.now }
{
    for k in 0..count {
        if high[k] < low[k] {
            return false;
        }
    }
    true
}

// Whether the first numbers of both tables, count of them, are within the range of entries.
pub fn entries_within(low: &[i64], high: &[i64], count: usize) -> bool
    requires { (count ≤ length low.now) × (count ≤ length high.now) }
    ensures { result ≡ tables_within count low.now high.now }
{
    if !all_within(low, count, ENTRY_RANGE) {
        return false;
    }
    all_within(high, count, ENTRY_RANGE)
}

// The first of the checks 3, 4 and 5 that fails (R5.6), of bounds of which one does.
fn find_refusal(bounds: Handed) -> Result<(), Refusal>
    requires { tables_bounded bounds.order false bounds.low.now bounds.high.now ≡ false }
    ensures { result ≡ first_refusal (bounds_checks true bounds.entry.order bounds.entry.low.now bounds.entry.high.now) }
{
    let count = bounds.order * bounds.order;
    let entries = entries_within(bounds.low, bounds.high, count);
    let ordered = nowhere_crossed(bounds.low, bounds.high, count);
    if !entries {
        return Err(Refusal::Range);
    }
    if !ordered {
        return Err(Refusal::Crossed);
    }
    Err(Refusal::Lopsided)
}

// Whether bounds l and u at one place pass checks 3 and 4: not below -2^20, not above 2^20, and not crossed.
fn entry_bounded(l: i64, u: i64) -> bool
    ensures { result ≡ entry_bounded l u }
{
    if l < -ENTRY_RANGE {
        return false;
    }
    if ENTRY_RANGE < u {
        return false;
    }
    l <= u
}

// Whether the halves agree: bounds l and u at (i, j), and lt and ut at (j, i).
fn pair_even(l: i64, lt: i64, u: i64, ut: i64) -> bool
    ensures { result ≡ pair_even l lt u ut }
{
    l == lt && u == ut
}

// Whether both places pass checks 3 and 4, and the pair check 5: neither low is above the high at the other place.
fn pair_meets(l: i64, lt: i64, u: i64, ut: i64) -> bool
    ensures { result ≡ pair_meets l lt u ut }
{
    if !entry_bounded(l, u) {
        return false;
    }
    if !entry_bounded(lt, ut) {
        return false;
    }
    if ut < l {
        return false;
    }
    lt <= u
}

// What is asked of a pair: of bounds l and u at (i, j), and lt and ut at (j, i).
trait PairTest {
    // whether the halves have to agree
    ghost even: { Bool };

    fn passes(l: i64, lt: i64, u: i64, ut: i64) -> bool
        ensures { result ≡ pair_bounded even l lt u ut };
}

// Checks 3, 4 and 5, and that the halves agree.
struct Even;

impl PairTest for Even {
    ghost even = { true };

    fn passes(l: i64, lt: i64, u: i64, ut: i64) -> bool {
        if pair_even(l, lt, u, ut) {
            return entry_bounded(l, u);
        }
        false
    }
}

// Checks 3, 4 and 5: the halves may differ.
struct Apart;

impl PairTest for Apart {
    ghost even = { false };

    fn passes(l: i64, lt: i64, u: i64, ut: i64) -> bool {
        if pair_even(l, lt, u, ut) {
            return entry_bounded(l, u);
        }
        pair_meets(l, lt, u, ut)
    }
}

// Whether row i, up to the diagonal, and column i pass them.
fn row_bounded<P: PairTest>(bounds: Handed, i: usize) -> bool
    requires { i < bounds.order }
    ensures { result ≡ row_bounded bounds.entry.order P.even bounds.entry.low.now bounds.entry.high.now i }
{
    let n = bounds.order;
    for j in 0..i + 1 {
        let l = entry(n, bounds.low, i, j);
        let u = entry(n, bounds.high, i, j);
        if !P::passes(
            l,
            entry(n, bounds.low, j, i),
            u,
            entry(n, bounds.high, j, i),
        ) {
            return false;
        }
    }
    true
}

// Whether bounds pass them: each pair (i, j) and (j, i) is looked at once.
fn tables_bounded<P: PairTest>(bounds: Handed) -> bool
    ensures { result ≡ tables_bounded bounds.entry.order P.even bounds.entry.low.now bounds.entry.high.now }
{
    for i in 0..bounds.order {
        if !row_bounded::<P>(bounds, i) {
            return false;
        }
    }
    true
}

// Checks 3, 4 and 5 of bounds whose halves may differ. Which check fails is looked for only where one does.
fn check_apart(bounds: Handed) -> Result<(), Refusal>
    ensures { result ≡ first_refusal (bounds_checks true bounds.entry.order bounds.entry.low.now bounds.entry.high.now) }
{
    if tables_bounded::<Apart>(bounds) {
        return Ok(());
    }
    find_refusal(bounds)
}

// Checks 3, 4 and 5 of bounds, and of an act whose other numbers are in their ranges or not. Halves that agree are looked at first.
pub fn check_bounds(within: bool, bounds: Handed) -> Result<(), Refusal>
    ensures { result ≡ first_refusal (bounds_checks within bounds.entry.order bounds.entry.low.now bounds.entry.high.now) }
{
    if within {
        if tables_bounded::<Even>(bounds) {
            return Ok(());
        }
        return check_apart(bounds);
    }
    Err(Refusal::Range)
}

// Check 16, of the ends of n linear terms.
pub fn check_ends(n: usize, low: &[i64], high: &[i64]) -> Result<(), Refusal>
    requires { (n ≤ length low.now) × (n ≤ length high.now) }
    ensures { result ≡ first_refusal (ends_checks n low.now high.now) }
{
    if nowhere_crossed(low, high, n) {
        return Ok(());
    }
    Err(Refusal::Reversed)
}

// Whether both ends of the linear terms are within their range.
pub fn linear_within(n: usize, low: &[i64], high: &[i64]) -> bool
    requires { (n ≤ length low.now) × (n ≤ length high.now) }
    ensures { result ≡ linear_within n low.now high.now }
{
    if !all_within(low, n, LINEAR_RANGE) {
        return false;
    }
    all_within(high, n, LINEAR_RANGE)
}

// Whether the ends of the linear terms, the limit and the centre are within their ranges.
fn terms_within(n: usize, low: &[i64], high: &[i64], limit: i64, centre: &[i64]) -> bool
    requires { (n ≤ length low.now) × (n ≤ length high.now) × (n ≤ length centre.now) }
    ensures { result ≡ terms_within n low.now high.now limit centre.now }
{
    if !linear_within(n, low, high) {
        return false;
    }
    if !within(limit, LIMIT_RANGE) {
        return false;
    }
    all_within(centre, n, CENTRE_RANGE)
}

// The same, asked only where the buffers have their sizes.
pub fn sized_within(
    n: usize,
    sized: bool,
    low: &[i64],
    high: &[i64],
    limit: i64,
    centre: &[i64],
) -> bool
    requires { sized ≡ true → (n ≤ length low.now) × (n ≤ length high.now) × (n ≤ length centre.now) }
    ensures { result ≡ (sized && terms_within n low.now high.now limit centre.now) }
{
    if !sized {
        return false;
    }
    terms_within(n, low, high, limit, centre)
}
