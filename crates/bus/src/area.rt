// R28.8 of docs/RULES.md: the run area, numbers of 8 bytes each, loaded and stored where they lie.
ghost use Rattle.std.specs.Prelude.{◌≡◌, ◌++◌, suc, ◌+◌, ◌*◌, ◌≤◌, ◌<◌, length, take, drop, set};
ghost use Rattle.tables.specs.Ranges.{greatest_order, table_room};
ghost use Rattle.tables.specs.Matrix.{nth};
ghost use Rattle.cholesky.specs.Store.{column_of};
ghost use Rattle.bus.specs.Area.{run_numbers, run_bytes, area_of, area_bytes, blank_bytes, laid_over, laid_column};

use cholesky::STRIDE;
use tables::{TABLE_ROOM, Table};
use words::{SIZE, load_signed, store_signed};

// Where the order, the next column, what tells of a stop, both tables and the columns stand, counted in numbers.
pub const ORDER_AT: usize = 0;

pub const COLUMN_AT: usize = 1;

pub const STOP_AT: usize = 2;

pub const LOW_AT: usize = 3;

pub const HIGH_AT: usize = LOW_AT + TABLE_ROOM;

pub const COLUMNS_AT: usize = HIGH_AT + TABLE_ROOM;

// The bytes of a run area.
pub const RUN_BYTES: usize = (COLUMNS_AT + TABLE_ROOM) * SIZE;

// Number k.
pub fn number_in(run: &[u8], k: usize) -> i64
    requires { (length run.now ≡ run_bytes) × (k < run_numbers) }
    ensures { result ≡ nth (area_of run.now) k }
{
    load_signed(run, k * SIZE, SIZE)
}

// Numbers from number `first` on, count of them, to the front of out.
pub fn load_part(run: &[u8], first: usize, count: usize, out: &mut [i64])
    requires { (length run.now ≡ run_bytes) × (first + count ≤ run_numbers) × (count ≤ length out.old) }
    ensures { out.new ≡ take count (drop first (area_of run.now)) ++ drop count out.old }
{
    for i in 0..count {
        out[i] = load_signed(run, (first + i) * SIZE, SIZE);
    }
}

// v becomes number k.
pub fn store_number(run: &mut [u8], k: usize, v: i64)
    requires { (length run.old ≡ run_bytes) × (k < run_numbers) }
    ensures { run.new ≡ area_bytes (set (area_of run.old) k v) }
{
    store_signed(run, k * SIZE, SIZE, v);
}

// The first numbers of x, count of them, from number `first` on.
pub fn store_part(run: &mut [u8], first: usize, count: usize, x: &[i64])
    requires { (length run.old ≡ run_bytes) × (first + count ≤ run_numbers) × (count ≤ length x.now) }
    ensures { run.new ≡ area_bytes (laid_over (area_of run.old) first (take count x.now)) }
{
    for i in 0..count {
        store_signed(run, (first + i) * SIZE, SIZE, x[i]);
    }
}

// The first entries of column j of t, count of them, to the front of column j.
pub fn store_column(run: &mut [u8], j: usize, count: usize, t: &Table)
    requires { (length run.old ≡ run_bytes) × (j < greatest_order) × (count ≤ suc j) × (length t.now ≡ table_room) }
    ensures { run.new ≡ area_bytes (laid_column (area_of run.old) j (column_of t.now j count)) }
{
    for i in 0..count {
        let v = t[STRIDE * j + i];
        store_signed(run, (COLUMNS_AT + STRIDE * j + i) * SIZE, SIZE, v);
    }
}

// All bytes become 0.
pub fn blank(run: &mut [u8])
    requires { length run.old ≡ run_bytes }
    ensures { run.new ≡ blank_bytes }
{
    run.fill(0);
}
