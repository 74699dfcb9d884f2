// R28.1 to R28.7 and R28.11 of docs/RULES.md: the registers of the bus, and how a write, a start and a tick move them.
ghost use Rattle.std.specs.Prelude.{◌≡◌, ◌<◌, length};
ghost use Rattle.bus.specs.Registers.{block_bytes, reset_value, writable, reset_block, read_at, put, is_busy, raised, cleared};
ghost use Rattle.bus.specs.Registers.{started_block, refused_block, settled_block, is_raised};

// The bytes of a block: a register each.
pub const BLOCK_BYTES: usize = 32;

// The registers.
pub const COMMAND: usize = 0;

pub const STATUS: usize = 1;

pub const NUMBER: usize = 2;

pub const VERDICT: usize = 3;

pub const MASK: usize = 4;

pub const FLAGS: usize = 5;

pub const ORDER: usize = 6;

// The bits of the status, of the mask and of the flags.
pub const BUSY: u8 = 1;

pub const DONE: u8 = 2;

pub const REFUSED: u8 = 4;

// What each register holds after a reset.
const RESET_VALUES: [u8; 32] = [
    0, // command
    0, // status
    0, // refusal number
    0, // verdict
    0, // mask
    0, // flags
    0, // order
    0, 0, 0, 0, 0, 0, 0, 0, 0, 0, 0, 0, 0, 0, 0, 0, 0, 0, 0, 0, 0, 0, 0, 0, 0,
];

// Which bits of each register a write moves.
const WRITABLE_BITS: [u8; 32] = [
    255, // command
    0, // status
    0, // refusal number
    0, // verdict
    7, // mask
    7, // flags
    255, // order
    0, 0, 0, 0, 0, 0, 0, 0, 0, 0, 0, 0, 0, 0, 0, 0, 0, 0, 0, 0, 0, 0, 0, 0, 0,
];

fn reset_value(k: usize) -> u8
    requires { k < block_bytes }
    ensures { result ≡ reset_value k }
{
    RESET_VALUES[k]
}

pub fn writable(k: usize) -> u8
    requires { k < block_bytes }
    ensures { result ≡ writable k }
{
    WRITABLE_BITS[k]
}

// What register k, which holds x, holds after v was written to it.
pub fn put(k: usize, x: u8, v: u8) -> u8
    requires { k < block_bytes }
    ensures { result ≡ put k x v }
{
    let bits = writable(k);
    if k == FLAGS {
        return x & (255 - (v & bits));
    }
    (x & (255 - bits)) | (v & bits)
}

// All registers get their reset values.
pub fn reset(block: &mut [u8])
    requires { length block.old ≡ block_bytes }
    ensures { block.new ≡ reset_block }
{
    for (k, x) in block.iter_mut().enumerate() {
        *x = reset_value(k);
    }
}

// What a read of an address gives.
pub fn read_at(block: &[u8], address: i64) -> u8
    requires { length block.now ≡ block_bytes }
    ensures { result ≡ read_at block.now address }
{
    if address < (STATUS as i64) {
        return 0;
    }
    if (ORDER as i64) < address {
        return 0;
    }
    block[address as usize]
}

// Whether bit 0 of the status is one.
pub fn is_busy(block: &[u8]) -> bool
    requires { length block.now ≡ block_bytes }
    ensures { result ≡ is_busy block.now }
{
    block[STATUS] & BUSY == BUSY
}

// A bit of the status rises, and with it its flag, unless the bit was up.
fn raise(block: &mut [u8], bit: u8)
    requires { length block.old ≡ block_bytes }
    ensures { block.new ≡ raised bit block.old }
{
    let before = block[STATUS];
    block[STATUS] = before | bit;
    block[FLAGS] = block[FLAGS] | (bit & (255 - before));
}

// Status, refusal number and verdict become 0.
fn clear(block: &mut [u8])
    requires { length block.old ≡ block_bytes }
    ensures { block.new ≡ cleared block.old }
{
    block[STATUS] = 0;
    block[NUMBER] = 0;
    block[VERDICT] = 0;
}

// The registers after a start that is let through.
pub fn start(block: &mut [u8])
    requires { length block.old ≡ block_bytes }
    ensures { block.new ≡ started_block block.old }
{
    clear(block);
    raise(block, BUSY);
}

// The registers after a start that is refused by a number.
pub fn refuse(block: &mut [u8], number: u8)
    requires { length block.old ≡ block_bytes }
    ensures { block.new ≡ refused_block number block.old }
{
    clear(block);
    block[NUMBER] = number;
    raise(block, REFUSED);
}

// The registers as a verdict is given: busy falls as done rises.
pub fn settle(block: &mut [u8], verdict: u8)
    requires { length block.old ≡ block_bytes }
    ensures { block.new ≡ settled_block verdict block.old }
{
    block[VERDICT] = verdict;
    block[STATUS] = block[STATUS] & (255 - BUSY);
    raise(block, DONE);
}

// Whether a flag under the mask is set.
pub fn is_raised(block: &[u8]) -> bool
    requires { length block.now ≡ block_bytes }
    ensures { result ≡ is_raised block.now }
{
    block[FLAGS] & block[MASK] != 0
}
