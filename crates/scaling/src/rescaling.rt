// R29.2 and R29.3 of docs/RULES.md: the tables with rows and columns scaled, and whether their entries stay inside of ±2^20.
ghost use Rattle.std.specs.Prelude.{◌≡◌, suc, ◌+◌, ◌*◌, ◌^◌, ◌≤◌, ◌<◌, pos, nat_abs, ◌*ℤ◌, length, is_some};
ghost use Rattle.integers.specs.Numbers.{Within};
ghost use Rattle.tables.specs.Ranges.{greatest_order, table_room, entry_range};
ghost use Rattle.tables.specs.Matrix.{at};
ghost use Rattle.tables.specs.Checks.{all, within};
ghost use Rattle.tables.specs.Bounds.{CheckedTables};
ghost use Rattle.tables.specs.Entering.{Rooms};
ghost use Rattle.scaling.specs.Scaling.{rescaled, entries_within};
ghost use Rattle.scaling.specs.Scratch.{Exponent, scale_in, Scale, InRange, Rescaling, ScaledTables};

use crate::exponents::{find_scale, power};
use tables::bounded::Bounded;
use tables::{ENTRY_RANGE, Table, Vector, within};

// The entry v of a row and a column with the numbers a and b of the scale, scaled.
fn scaled_entry(a: i64, b: i64, v: i64) -> i64
    requires { Exponent a × Exponent b × Within entry_range v }
    ensures { result ≡ pos (2 ^ (nat_abs a + nat_abs b)) *ℤ v }
{
    power((a + b) as usize) * v
}

// Row i of t, a table of order n, scaled by the numbers in x; nothing where an entry leaves ±2^20.
fn scale_row(n: usize, x: &Vector, i: usize, t: &mut Table) -> Option<()>
    requires { (n ≤ greatest_order) × (i < n) × Scale (scale_in x.now) n x.now × InRange n t.old × (length t.old ≡ table_room) }
    ensures { Rescaling n (scale_in x.now) (at n t.old) (i * n) (suc i * n) (all n (λ j. within entry_range
        (rescaled (scale_in x.now) (at n t.old) i j))) (is_some result) t.new }
{
    let start = i * n;
    let k = x[i];
    for j in 0..n {
        let scaled = scaled_entry(k, x[j], t[start + j]);
        if !within(scaled, ENTRY_RANGE) {
            return None;
        }
        t[start + j] = scaled;
    }
    Some(())
}

// The same of all rows.
fn scale_table(n: usize, x: &Vector, t: &mut Table) -> Option<()>
    requires { (n ≤ greatest_order) × Scale (scale_in x.now) n x.now × InRange n t.old × (length t.old ≡ table_room) }
    ensures { Rescaling n (scale_in x.now) (at n t.old) 0 (n * n)
        (entries_within n (rescaled (scale_in x.now) (at n t.old))) (is_some result) t.new }
{
    for i in 0..n {
        scale_row(n, x, i, t)?;
    }
    Some(())
}

// The scale of bounds of order n, and their tables scaled in their place; nothing where an entry leaves ±2^20. The scale is written then
// too, and what is left in the tables is of no use.
pub fn scale_tables(n: usize, low: &mut Table, high: &mut Table, scale: &mut Vector) -> Option<()>
    requires { CheckedTables n low.old high.old × Rooms low.old high.old }
    ensures { ScaledTables n (at n low.old) (at n high.old) (is_some result) low.new high.new scale.new }
{
    let bounds = Bounded {
        order: n,
        low: &*low,
        high: &*high,
    };
    *scale = find_scale(bounds);
    scale_table(n, scale, low)?;
    scale_table(n, scale, high)
}
