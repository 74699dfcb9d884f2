// R28.10 of docs/RULES.md: whether the numbers that a tick takes from a run area are in the ranges that keep it safe.
ghost use Rattle.std.specs.Prelude.{◌≡◌, suc, ◌≤◌, ◌<◌, nat_abs, pos, ◌≤ℤ◌, length};
ghost use Rattle.tables.specs.Ranges.{greatest_order, table_room};
ghost use Rattle.tables.specs.Checks.{all, within};
ghost use Rattle.cholesky.specs.Store.{upper};
ghost use Rattle.bus.specs.Running.{factor_columns, column_safe, stop_safe};

use cholesky::STRIDE;
use tables::{FACTOR_RANGE, Table, all_within};

// An entry of H, and a product of two entries of a factor.
const PRODUCT_RANGE: i64 = FACTOR_RANGE * FACTOR_RANGE;

// An entry of a column that stops.
const STOP_RANGE: i64 = (STRIDE as i64) * PRODUCT_RANGE;

// Whether the first entries of column j, count of them, are within ±bound.
fn column_within(t: &Table, j: usize, count: usize, bound: i64) -> bool
    requires { (j < greatest_order) × (count ≤ suc j) × (length t.now ≡ table_room) × (pos 0 ≤ℤ bound) }
    ensures { result ≡ all count (λ k. within (nat_abs bound) (upper t.now k j)) }
{
    all_within(&t[STRIDE * j..], count, bound)
}

// Whether the columns before j are those of a factor.
fn factor_columns(t: &Table, j: usize) -> bool
    requires { (j < greatest_order) × (length t.now ≡ table_room) }
    ensures { result ≡ factor_columns t.now j }
{
    for l in 0..j {
        if !column_within(t, l, l + 1, FACTOR_RANGE) {
            return false;
        }
        if t[STRIDE * l + l] < 1 {
            return false;
        }
    }
    true
}

// Whether column j can be worked out.
pub fn column_safe(t: &Table, j: usize) -> bool
    requires { (j < greatest_order) × (length t.now ≡ table_room) }
    ensures { result ≡ column_safe t.now j }
{
    if !factor_columns(t, j) {
        return false;
    }
    if !column_within(t, j, j, PRODUCT_RANGE) {
        return false;
    }
    t[STRIDE * j + j] <= PRODUCT_RANGE
}

// Whether vectors can be solved for, after a stop in column j after m rows.
pub fn stop_safe(t: &Table, j: usize, m: usize) -> bool
    requires { (j < greatest_order) × (m ≤ j) × (length t.now ≡ table_room) }
    ensures { result ≡ stop_safe t.now j m }
{
    if !factor_columns(t, j) {
        return false;
    }
    column_within(t, j, m, STOP_RANGE)
}
