// R8.2 of docs/RULES.md: the least value of a vector.
ghost use Rattle.std.specs.Prelude.{◌≡◌, ◌<◌};
ghost use Rattle.integers.specs.Numbers.{Within};
ghost use Rattle.tables.specs.Ranges.{entry_range};
ghost use Rattle.tables.specs.Matrix.{nth};
ghost use Rattle.tables.specs.Bounded.{low_of, high_of};
ghost use Rattle.vectors.specs.Least.{least_value};
ghost use Rattle.vectors.specs.LeastShares.{least_term, least_pair, least_row, least_share, vector_pair_range, VectorEntries};

use tables::bounded::Bounded;

// What two entries whose product is p add: the low bound's share where p is positive, else the high bound's.
fn least_term(low: i64, high: i64, p: i64) -> i64
    requires { Within entry_range low × Within entry_range high × Within vector_pair_range p }
    ensures { result ≡ least_term low high p }
{
    if 0 < p { low * p } else { high * p }
}

// What entries i and k add, once.
fn least_pair(bounds: Bounded, x: &[i64], i: usize, k: usize) -> i64
    requires { VectorEntries bounds.order x.now × (i < bounds.order) × (k < bounds.order) }
    ensures { result ≡ least_pair bounds.entry.order bounds.entry.low.now bounds.entry.high.now x.now i k }
{
    let l = bounds.low_at(i, k);
    let u = bounds.high_at(i, k);
    least_term(l, u, x[i] * x[k])
}

// What entry i and the entries before it add, once for each pair.
fn least_row(bounds: Bounded, x: &[i64], i: usize) -> i64
    requires { VectorEntries bounds.order x.now × (i < bounds.order) }
    ensures { result ≡ least_row bounds.entry.order bounds.entry.low.now bounds.entry.high.now x.now i i }
{
    let mut s: i64 = 0;
    for k in 0..i {
        s += least_pair(bounds, x, i, k);
    }
    s
}

// What entry i adds to the least value of the entries before it: nothing where it is 0.
fn least_share(bounds: Bounded, x: &[i64], i: usize) -> i64
    requires { VectorEntries bounds.order x.now × (i < bounds.order) }
    ensures { result ≡ least_share bounds.entry.order bounds.entry.low.now bounds.entry.high.now x.now i }
{
    if x[i] == 0 {
        return 0;
    }
    let row = least_row(bounds, x, i);
    let l = bounds.low_at(i, i);
    2 * row + l * (x[i] * x[i])
}

// The least value of x.
pub fn least_value(bounds: Bounded, x: &[i64]) -> i64
    requires { VectorEntries bounds.order x.now }
    ensures { result ≡ least_value bounds.entry.order (low_of bounds.entry) (high_of bounds.entry) (nth x.now) }
{
    let mut s: i64 = 0;
    for i in 0..bounds.order {
        s += least_share(bounds, x, i);
    }
    s
}
