// R15.8 of docs/RULES.md, the entries for C of the display bus.
ghost use Rattle.std.specs.Prelude.{◌≡◌};
ghost use Rattle.hankboulder.specs.Entries.{BusResult, bus_write_entry, bus_tick_entry, BusReadResult, bus_read_entry, bus_line_entry};

use tables::answer_code;

// Writes a value to an address: 0; 20 where it is a start and the bus is busy, and 2 where block or run have another size, with nothing
// moved.
#[unsafe(no_mangle)]
pub extern "C" fn hb_bus_write(
    block: &mut [u8],
    run: &mut [u8],
    address: i64,
    value: u8,
    low: &[u8],
    high: &[u8],
) -> i64
    ensures exact { ◌≡◌ {A = BusResult} (record {
      number = result;
      bus = record { block = block.new; run = run.new };
    }) (bus_write_entry block.old run.old address value low.now high.now) }
{
    answer_code(bus::acts::write(block, run, address, value, low, high))
}

// A tick: 0; 2 where block or run have another size, with nothing moved.
#[unsafe(no_mangle)]
pub extern "C" fn hb_bus_tick(block: &mut [u8], run: &mut [u8]) -> i64
    ensures exact { ◌≡◌ {A = BusResult} (record {
      number = result;
      bus = record { block = block.new; run = run.new };
    }) (bus_tick_entry block.old run.old) }
{
    answer_code(bus::acts::tick(block, run))
}

// Reads the register at an address: 0 with the byte written; 2 where block or value have another size, with nothing written.
#[unsafe(no_mangle)]
pub extern "C" fn hb_bus_read(block: &[u8], address: i64, value: &mut [u8]) -> i64
    ensures exact { ◌≡◌ {A = BusReadResult} (record { number = result; value = value.new }) (bus_read_entry block.now address value.old) }
{
    answer_code(bus::acts::read(block, address, value))
}

// The line: 0 low, -1 raised; 2 where block has another size.
#[unsafe(no_mangle)]
pub extern "C" fn hb_bus_line(block: &[u8]) -> i64
    ensures exact { result ≡ bus_line_entry block.now }
{
    answer_code(bus::acts::line(block))
}
