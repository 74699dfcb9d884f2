// R28.9 and R28.10 of docs/RULES.md: a tick of a run works out one column, or searches the listed vectors. All that it needs is in the run
// area, whose bytes may be anything: where a number is out of the range that keeps the tick safe, it does nothing.
ghost use Rattle.std.specs.Prelude.{◌≡◌, suc, ◌≤◌, ◌<◌, pos, length, set};
ghost use Rattle.tables.specs.Ranges.{greatest_order, table_room};
ghost use Rattle.tables.specs.Entering.{Blank};
ghost use Rattle.cholesky.specs.Store.{column_of};
ghost use Rattle.bus.specs.Registers.{block_bytes};
ghost use Rattle.bus.specs.Area.{low_at, high_at, columns_at, run_bytes, area_of, area_bytes, table_at, laid_column};
ghost use Rattle.bus.specs.Running.{Bus, column_work, search_work, work_of, work_at, settled, column_taken, worked};
ghost use Rattle.bus.specs.Required.{StopsIn, column_in, TablesLoaded};

use crate::area::{
    COLUMN_AT, COLUMNS_AT, HIGH_AT, LOW_AT, ORDER_AT, STOP_AT, blank, load_part, number_in,
    store_column, store_number,
};
use crate::registers;
use crate::safety::{column_safe, stop_safe};
use cholesky::STRIDE;
use cholesky::column_step::work_column;
use cholesky::factoring::Stop;
use tables::bounded::Bounded;
use tables::entering::{check_laid, order};
use tables::{Refusal, TABLE_ROOM, Table};
use verdict::listed::first_listed;

// The verdicts' numbers in register 3.
const DEFINITE: u8 = 1;

const NOT_DEFINITE: u8 = 2;

const UNDECIDED: u8 = 3;

// A verdict is given, and the run is over.
fn settle(block: &mut [u8], run: &mut [u8], verdict: u8)
    requires { (length block.old ≡ block_bytes) × (length run.old ≡ run_bytes) }
    ensures { ◌≡◌ {A = Bus} (record { block = block.exit.now; run = run.new }) (settled verdict block.entry.now) }
{
    registers::settle(block, verdict);
    blank(run);
}

// v becomes number k, which stands before the columns, and the first entries of column j of t, count of them, go to the front of column j.
fn put_column(run: &mut [u8], k: usize, v: usize, j: usize, count: usize, t: &Table)
    requires { (length run.old ≡ run_bytes) × (k < columns_at) × (v ≤ greatest_order) × (j < greatest_order) × (count ≤ suc j)
        × (length t.now ≡ table_room) }
    ensures { run.new ≡ area_bytes (set (laid_column (area_of run.old) j (column_of t.now j count)) k
        (pos v)) }
{
    store_number(run, k, v as i64);
    store_column(run, j, count, t);
}

// Column j of a run of order n, whose columns to j stand in t, was worked out there.
fn keep_column(
    block: &mut [u8],
    run: &mut [u8],
    n: usize,
    j: usize,
    t: &Table,
    step: Result<(), usize>,
)
    requires { (length block.old ≡ block_bytes) × (length run.old ≡ run_bytes) × (n ≤ greatest_order) × (j < n)
        × (length t.now ≡ table_room) × StopsIn j step }
    ensures { ◌≡◌ {A = Bus} (record { block = block.exit.now; run = run.new }) (column_taken block.entry.now
        (area_of run.old) n j (column_in t.now j step)) }
{
    match step {
        Ok(()) => {
            if j + 1 == n {
                settle(block, run, DEFINITE);
            } else {
                put_column(run, COLUMN_AT, j + 1, j, j + 1, t);
            }
        }
        Err(m) => {
            put_column(run, STOP_AT, m + 1, j, m, t);
        }
    }
}

// Column j of a run of order n is next.
fn take_column(block: &mut [u8], run: &mut [u8], n: usize, j: usize)
    requires { (length block.old ≡ block_bytes) × (length run.old ≡ run_bytes) × (n ≤ greatest_order) × (j < n) }
    ensures { ◌≡◌ {A = Bus} (record { block = block.exit.now; run = run.new })
        (worked block.entry.now run.old (column_work (area_of run.old) n j)) }
{
    let mut t = [0i64; TABLE_ROOM];
    load_part(run, COLUMNS_AT, STRIDE * (j + 1), &mut t);
    if column_safe(&t, j) {
        let step = work_column(&mut t, j);
        keep_column(block, run, n, j, &t, step);
    }
}

// The tables of a run of order n, into l and u: checks 3 to 5 of them, and then these tables mended.
fn load_tables(run: &[u8], n: usize, l: &mut Table, u: &mut Table) -> Result<(), Refusal>
    requires { (length run.now ≡ run_bytes) × (0 < n) × (n ≤ greatest_order) × Blank l.old × Blank u.old }
    ensures { TablesLoaded n (table_at n (area_of run.now) low_at) (table_at n (area_of run.now) high_at) result
        l.new u.new }
{
    load_part(run, LOW_AT, n * n, l);
    load_part(run, HIGH_AT, n * n, u);
    check_laid(n, true, l, u)
}

// The listed vectors are searched, after a stop in column j after m rows.
fn search(block: &mut [u8], run: &mut [u8], n: usize, j: usize, m: usize)
    requires { (length block.old ≡ block_bytes) × (length run.old ≡ run_bytes) × (n ≤ greatest_order) × (j < n) ×
        (m ≤ j) }
    ensures { ◌≡◌ {A = Bus} (record { block = block.exit.now; run = run.new })
        (worked block.entry.now run.old (search_work (area_of run.old) n j m)) }
{
    let mut t = [0i64; TABLE_ROOM];
    load_part(run, COLUMNS_AT, STRIDE * (j + 1), &mut t);
    if !stop_safe(&t, j, m) {
        return;
    }
    let mut l = [0i64; TABLE_ROOM];
    let mut u = [0i64; TABLE_ROOM];
    if load_tables(run, n, &mut l, &mut u).is_err() {
        return;
    }
    let bounds = Bounded {
        order: n,
        low: &l,
        high: &u,
    };
    let stop = Stop { column: j, rows: m };
    match first_listed(bounds, &t, stop) {
        Some(_) => settle(block, run, NOT_DEFINITE),
        None => settle(block, run, UNDECIDED),
    }
}

// What a run of order n whose next column is j does in a tick; p tells of a stop.
fn work(block: &mut [u8], run: &mut [u8], n: usize, j: usize, p: i64)
    requires { (length block.old ≡ block_bytes) × (length run.old ≡ run_bytes) × (n ≤ greatest_order) × (j < n) }
    ensures { ◌≡◌ {A = Bus} (record { block = block.exit.now; run = run.new })
        (worked block.entry.now run.old (work_at (area_of run.old) n j p)) }
{
    if 1 <= p {
        if p <= ((j + 1) as i64) {
            search(block, run, n, j, (p - 1) as usize);
        }
        return;
    }
    if p == 0 {
        take_column(block, run, n, j);
    }
}

// A tick of a bus that is busy.
pub fn step(block: &mut [u8], run: &mut [u8])
    requires { (length block.old ≡ block_bytes) × (length run.old ≡ run_bytes) }
    ensures { ◌≡◌ {A = Bus} (record { block = block.exit.now; run = run.new })
        (worked block.entry.now run.old (work_of (area_of run.old))) }
{
    let Ok(n) = order(number_in(run, ORDER_AT)) else {
        return;
    };
    let j = number_in(run, COLUMN_AT);
    let p = number_in(run, STOP_AT);
    if j < 0 {
        return;
    }
    if j < (n as i64) {
        work(block, run, n, j as usize, p);
    }
}
