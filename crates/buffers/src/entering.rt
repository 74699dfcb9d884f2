// R15 of docs/RULES.md: the numbers that buffers of bytes spell, loaded into scratch arrays before the door.
ghost use Rattle.std.specs.Prelude.{◌≡◌, true, ◌*◌, ◌≤◌, pos, length, replicate};
ghost use Rattle.std.specs.Int.{w64};
ghost use mir.Val.{bytes};
ghost use Rattle.tables.specs.Ranges.{greatest_order};
ghost use Rattle.tables.specs.Entering.{Blank, Laid};
ghost use Rattle.buffers.specs.Buffers.{table_of, Spelled, Terms};

use tables::{Table, Vector};
use words::SIZE;

// The bounds of order n that two buffers spell, into l and u, where the buffers have their sizes.
pub fn load_bounds(n: usize, sized: bool, low: &[u8], high: &[u8], l: &mut Table, u: &mut Table)
    requires { (n ≤ greatest_order) × Spelled n sized (length low.now) (length high.now) × Blank l.old × Blank u.old }
    ensures { Laid n sized (table_of n low.now) (table_of n high.now) l.new u.new }
{
    if sized {
        words::load_numbers(low, l, n * n, SIZE);
        words::load_numbers(high, u, n * n, SIZE);
    }
}

// The vector of order n that a buffer spells, where the buffers have their sizes.
pub fn load_terms(n: usize, sized: bool, b: &[u8], x: &mut Vector)
    requires { (n ≤ greatest_order) × (sized ≡ true → n * bytes w64 ≤ length b.now) × (x.old ≡ replicate greatest_order
        (pos 0)) }
    ensures { Terms n sized b.now x.new }
{
    if sized {
        words::load_numbers(b, x, n, SIZE);
    }
}
