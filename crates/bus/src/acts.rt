// R28 of docs/RULES.md: the four acts on a bus, of any bytes at all: a write, a tick, a read, and the line.
ghost use Rattle.std.specs.Prelude.{◌≡◌, ◌<◌, length};
ghost use Rattle.bus.specs.Registers.{block_bytes};
ghost use Rattle.bus.specs.Area.{run_bytes};
ghost use Rattle.bus.specs.Bus.{Moved, start, commanded, written_at, write, tick, ReadBack, read, line, bus_sized};

use crate::area::{RUN_BYTES, blank};
use crate::line::Line;
use crate::registers::{BLOCK_BYTES, is_busy};
use crate::{registers, starting, ticking};
use tables::Refusal;

// The commands.
const START: u8 = 1;

const RESET: u8 = 2;

// Whether block and run area have their sizes.
fn bus_sized(block: &[u8], run: &[u8]) -> bool
    ensures { result ≡ bus_sized block.now run.now }
{
    block.len() == BLOCK_BYTES && run.len() == RUN_BYTES
}

// A start, refused by 20 where the bus is busy.
fn start(block: &mut [u8], run: &mut [u8], low: &[u8], high: &[u8]) -> Result<(), Refusal>
    requires { (length block.old ≡ block_bytes) × (length run.old ≡ run_bytes) }
    ensures { ◌≡◌ {A = Moved} (record {
      answer = result;
      bus = record { block = block.exit.now; run = run.new };
    }) (start (record { block = block.entry.now; run = run.old }) low.now high.now) }
{
    if is_busy(block) {
        return Err(Refusal::Busy);
    }
    starting::start(block, run, low, high);
    Ok(())
}

// A command.
fn obey(
    block: &mut [u8],
    run: &mut [u8],
    command: u8,
    low: &[u8],
    high: &[u8],
) -> Result<(), Refusal>
    requires { (length block.old ≡ block_bytes) × (length run.old ≡ run_bytes) }
    ensures { ◌≡◌ {A = Moved} (record {
      answer = result;
      bus = record { block = block.exit.now; run = run.new };
    }) (commanded (record { block = block.entry.now; run = run.old }) command low.now high.now) }
{
    if command == START {
        return start(block, run, low, high);
    }
    if command == RESET {
        registers::reset(block);
        blank(run);
    }
    Ok(())
}

// A write to register k.
fn write_at(
    block: &mut [u8],
    run: &mut [u8],
    k: usize,
    value: u8,
    low: &[u8],
    high: &[u8],
) -> Result<(), Refusal>
    requires { (length block.old ≡ block_bytes) × (length run.old ≡ run_bytes) × (k < block_bytes) }
    ensures { ◌≡◌ {A = Moved} (record {
      answer = result;
      bus = record { block = block.exit.now; run = run.new };
    }) (written_at (record { block = block.entry.now; run = run.old }) k value low.now high.now) }
{
    if k == registers::COMMAND {
        let command = value & registers::writable(registers::COMMAND);
        return obey(block, run, command, low, high);
    }
    block[k] = registers::put(k, block[k], value);
    Ok(())
}

// Writes a value to an address; a start takes the tables that low and high spell, and nothing else looks at them.
// Refused by 2 where block or run area have another size, and by 20 where it is a start and the bus is busy: nothing moves then.
pub fn write(
    block: &mut [u8],
    run: &mut [u8],
    address: i64,
    value: u8,
    low: &[u8],
    high: &[u8],
) -> Result<(), Refusal>
    ensures exact { ◌≡◌ {A = Moved} (record {
      answer = result;
      bus = record { block = block.exit.now; run = run.new };
    }) (write block.entry.now run.old address value low.now high.now) }
{
    if !bus_sized(block, run) {
        return Err(Refusal::Length);
    }
    if address < 0 {
        return Ok(());
    }
    if address < (BLOCK_BYTES as i64) {
        return write_at(block, run, address as usize, value, low, high);
    }
    Ok(())
}

// A tick: one column of the run, or the search, or nothing where there is no run.
pub fn tick(block: &mut [u8], run: &mut [u8]) -> Result<(), Refusal>
    ensures exact { ◌≡◌ {A = Moved} (record {
      answer = result;
      bus = record { block = block.exit.now; run = run.new };
    }) (tick block.entry.now run.old) }
{
    if !bus_sized(block, run) {
        return Err(Refusal::Length);
    }
    if is_busy(block) {
        ticking::step(block, run);
    }
    Ok(())
}

// Reads the register at an address into a buffer of one byte.
pub fn read(block: &[u8], address: i64, value: &mut [u8]) -> Result<(), Refusal>
    ensures exact { ◌≡◌ {A = ReadBack} (record { answer = result; value = value.new }) (read block.now address
        value.old) }
{
    if block.len() != BLOCK_BYTES {
        return Err(Refusal::Length);
    }
    if value.len() != 1 {
        return Err(Refusal::Length);
    }
    value[0] = registers::read_at(block, address);
    Ok(())
}

// Whether the line is raised.
pub fn line(block: &[u8]) -> Result<Line, Refusal>
    ensures exact { result ≡ line block.now }
{
    if block.len() != BLOCK_BYTES {
        return Err(Refusal::Length);
    }
    if registers::is_raised(block) {
        return Ok(Line::Raised);
    }
    Ok(Line::Low)
}
