// R28.5 of docs/RULES.md: a start. The judge's checks are made and the tables mended, as before a verdict; then the matrix H is laid into
// the run area, and no column of the factor is worked out.
ghost use Rattle.std.specs.Prelude.{◌≡◌, ◌*◌, ◌≤◌, length, take, IfOk};
ghost use Rattle.tables.specs.Ranges.{greatest_order};
ghost use Rattle.tables.specs.Bounded.{low_of, high_of};
ghost use Rattle.tables.specs.Entering.{Blank, Held};
ghost use Rattle.cholesky.specs.Scale.{scaled};
ghost use Rattle.buffers.specs.Buffers.{table_of};
ghost use Rattle.bus.specs.Registers.{block_bytes};
ghost use Rattle.bus.specs.Area.{run_bytes, area_of, area_bytes, laid_columns, begun_area};
ghost use Rattle.bus.specs.Running.{Bus};
ghost use Rattle.bus.specs.Bus.{tables_sized, started};
ghost use Rattle.bus.specs.Required.{admitted};

use crate::area::{HIGH_AT, LOW_AT, ORDER_AT, blank, store_column, store_number, store_part};
use crate::registers;
use buffers::entering::load_bounds;
use cholesky::scaling::scale;
use tables::bounded::Bounded;
use tables::entering::{check_laid, order};
use tables::{Refusal, TABLE_ROOM, Table};
use words::SIZE;

// The matrix H of bounds: its columns, each down to the diagonal.
fn store_matrix(run: &mut [u8], bounds: Bounded)
    requires { length run.old ≡ run_bytes }
    ensures { run.new ≡ area_bytes (laid_columns (scaled bounds.entry.order (low_of bounds.entry) (high_of bounds.entry))
        bounds.entry.order (area_of run.old)) }
{
    let n = bounds.order;
    let mut h = [0i64; TABLE_ROOM];
    scale(n, bounds.low, bounds.high, &mut h);
    for j in 0..n {
        store_column(run, j, j + 1, &h);
    }
}

// A run of bounds begins.
fn begin(run: &mut [u8], bounds: Bounded)
    requires { length run.old ≡ run_bytes }
    ensures { run.new ≡ area_bytes (begun_area bounds.entry.order
        (take (bounds.entry.order * bounds.entry.order) bounds.entry.low.now)
        (take (bounds.entry.order * bounds.entry.order) bounds.entry.high.now)) }
{
    let n = bounds.order;
    blank(run);
    store_number(run, ORDER_AT, n as i64);
    store_part(run, LOW_AT, n * n, bounds.low);
    store_part(run, HIGH_AT, n * n, bounds.high);
    store_matrix(run, bounds);
}

// Whether two buffers have the size of a table of order n.
#[tactic(auto, unfolding(crate::specs::Bus::tables_sized))]
fn tables_sized(n: usize, low: &[u8], high: &[u8]) -> bool
    requires { n ≤ greatest_order }
    ensures { result ≡ tables_sized n low.now high.now }
{
    let size = n * n * SIZE;
    low.len() == size && high.len() == size
}

// The judge's checks of an order n and the tables that two buffers spell. What passes stands in l and u, mended; the answer is its order.
fn admit(n: i64, low: &[u8], high: &[u8], l: &mut Table, u: &mut Table) -> Result<usize, Refusal>
    requires { Blank l.old × Blank u.old }
    ensures answer { result ≡ admitted n low.now high.now }
    ensures held { IfOk result (λ m. Held m (table_of m low.now) (table_of m high.now) l.new u.new) }
{
    let m = order(n)?;
    let sized = tables_sized(m, low, high);
    if !sized {
        return Err(Refusal::Length);
    }
    load_bounds(m, sized, low, high, l, u);
    check_laid(m, true, l, u)?;
    Ok(m)
}

// A start on a bus that is not busy: the run begins, or the start is refused.
pub fn start(block: &mut [u8], run: &mut [u8], low: &[u8], high: &[u8])
    requires { (length block.old ≡ block_bytes) × (length run.old ≡ run_bytes) }
    ensures { ◌≡◌ {A = Bus} (record { block = block.exit.now; run = run.new }) (started block.entry.now low.now high.now) }
{
    let n = block[registers::ORDER] as i64;
    let mut l = [0i64; TABLE_ROOM];
    let mut u = [0i64; TABLE_ROOM];
    match admit(n, low, high, &mut l, &mut u) {
        Ok(order) => {
            let bounds = Bounded {
                order,
                low: &l,
                high: &u,
            };
            begin(run, bounds);
            registers::start(block);
        }
        Err(refusal) => {
            blank(run);
            registers::refuse(block, refusal.number());
        }
    }
}
