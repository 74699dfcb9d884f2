// R27.2 of docs/RULES.md: parts of a list, one problem's after the other, of numbers or of the bytes that spell them.
ghost use Rattle.std.specs.Prelude.{◌+◌, ◌*◌, ◌≤◌, ◌<◌, ◌^◌, ℕ, length};
ghost use Rattle.tables.specs.Matrix.{nth};
ghost use Rattle.tables.specs.Buffers.{Filled};
ghost use Rattle.pool.specs.Parts.{PartsWhole, numbers_parts, bytes_parts};

use tables::elements::Element;

// An element of a list of which parts are loaded.
pub trait Listed: Element {
    ghost parts: { PartsWhole Self.taken Self.numbers };
}

impl Listed for i64 {
    ghost parts = { numbers_parts };
}

impl Listed for u8 {
    ghost parts = { bytes_parts };
}

// Part k of a list, of which each part has count numbers, to the front of out.
pub fn load_part<E: Listed>(count: usize, k: usize, x: &[E], out: &mut [i64])
    requires { ((k * count + count) * E.taken 1 ≤ length x.now) × (k * count + count ≤ 2 ^ 16) × (count ≤ length out.old) }
    ensures { (m : ℕ) → k < m → Filled (length out.old) count (λ i. nth (E.numbers x.now (m * count)) (k * count + i)) out.new }
{
    E::load(&x[E::taken(k * count)..], count, out);
}
