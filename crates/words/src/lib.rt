// R1.6 of docs/RULES.md, numbers in byte slices: low byte first, signed numbers in two's complement. Loads and stores are of the same
// sizes, 4 or 8 bytes.
#![tactic(auto)]

ghost use Rattle.std.specs.Prelude.{◌≡◌, ◌++◌, ◌+◌, ◌*◌, ◌≤◌, length, drop, nat_abs};
ghost use mir.Val.{to_z, bytes, Fits};
ghost use Rattle.words.specs.Numbers.{width_of, unsigned_at, signed_at, with_unsigned, with_signed, numbers_of, bytes_of};

// The bytes of an i64.
pub const SIZE: usize = 8;

// The bytes of a short number.
pub const SHORT_SIZE: usize = 4;

// |v|, also of the least number.
pub fn magnitude(v: i64) -> u64
    ensures { result ≡ nat_abs v }
{
    v.unsigned_abs()
}

// The bits u of a number of `size` bytes, read as signed.
fn signed_of(u: u64, size: usize) -> i64
    requires { Fits (width_of size) u }
    ensures { result ≡ to_z (width_of size) u }
{
    if size == SHORT_SIZE {
        (u as u32).cast_signed() as i64
    } else {
        u.cast_signed()
    }
}

// The unsigned number of the k bytes at `at`. The loop compiles to one load; from_le_bytes over a copy took five times as long.
pub fn load_unsigned(b: &[u8], at: usize, k: usize) -> u64
    requires { (at + k ≤ length b.now) × (k ≤ 8) }
    ensures { result ≡ unsigned_at k b.now at }
{
    let mut u = 0;
    for i in (0..k).rev() {
        u = u * 256 + b[at + i] as u64;
    }
    u
}

// The signed number of `size` bytes at `at`.
pub fn load_signed(b: &[u8], at: usize, size: usize) -> i64
    requires { (size ≡ bytes (width_of size)) × (at + size ≤ length b.now) }
    ensures { result ≡ signed_at (width_of size) b.now at }
{
    signed_of(load_unsigned(b, at, size), size)
}

// v in `size` bytes, to the place `at`.
pub fn store_signed(b: &mut [u8], at: usize, size: usize, v: i64)
    requires { (size ≡ bytes (width_of size)) × (at + size ≤ length b.old) }
    ensures { b.new ≡ with_signed (width_of size) b.old at v }
{
    b[at..at + size].copy_from_slice(&v.to_le_bytes()[..size]);
}

// The first k numbers of b, of `size` bytes each, to the start of out.
pub fn load_numbers(b: &[u8], out: &mut [i64], k: usize, size: usize)
    requires { (size ≡ bytes (width_of size)) × (k * size ≤ length b.now) × (k ≤ length out.old) }
    ensures { out.new ≡ numbers_of (width_of size) b.now k ++ drop k out.old }
{
    for i in 0..k {
        out[i] = load_signed(b, i * size, size);
    }
}

// The first k numbers of a, of `size` bytes each, to the start of out.
pub fn store_numbers(a: &[i64], out: &mut [u8], k: usize, size: usize)
    requires { (size ≡ bytes (width_of size)) × (k ≤ length a.now) × (k * size ≤ length out.old) }
    ensures { out.new ≡ bytes_of (width_of size) a.now k ++ drop (k * bytes (width_of size)) out.old }
{
    for i in 0..k {
        store_signed(out, i * size, size, a[i]);
    }
}
