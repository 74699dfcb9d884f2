// R5 of docs/RULES.md, the door of every act: checks 1 to 5, and the bounds that everything below reads, in scratch tables.
ghost use Rattle.std.specs.Prelude.{◌≡◌, ◌*◌, ◌≤◌, length};
ghost use Rattle.tables.specs.Checks.{ordered, order_of, first_refusal, entry_checks, bounds_checks};
ghost use Rattle.tables.specs.Ranges.{greatest_order, table_room};
ghost use Rattle.tables.specs.Entering.{door_checks, Exact, Blank, Rooms, Laid, Mended, Entered};

use crate::elements::Element;
use crate::mending::mend_bounds;
use crate::{Refusal, Table, order_ok};

// The order of a call (check 1): n, where it is an order.
pub fn order(n: i64) -> Result<usize, Refusal>
    ensures { result ≡ ordered n }
{
    if !order_ok(n) {
        return Err(Refusal::Order);
    }
    Ok(n as usize)
}

// The same number, or 0 where n is no order.
pub fn order_of(n: i64) -> usize
    ensures { result ≡ order_of n }
{
    order(n).unwrap_or(0)
}

// Checks 1 and 2: n is an order, and the buffers have their sizes.
pub fn check_entry(n: i64, sized: bool) -> Result<(), Refusal>
    ensures { result ≡ first_refusal (entry_checks n sized) }
{
    if !order_ok(n) {
        return Err(Refusal::Order);
    }
    if sized {
        return Ok(());
    }
    Err(Refusal::Length)
}

// Checks 3 to 5 of bounds of order n that stand in l and u, and then these bounds mended: for an act that has made checks 1 and 2. `within`
// says whether the call's other numbers are in their ranges.
pub fn check_laid(n: usize, within: bool, l: &mut Table, u: &mut Table) -> Result<(), Refusal>
    requires { (n ≤ greatest_order) × (n * n ≤ table_room) × Rooms l.old u.old }
    ensures { Mended (bounds_checks within n l.old u.old) n l.old u.old
        result l.new u.new }
{
    mend_bounds(n, within, l, u)
}

// Checks 1 to 5 of a call whose bounds stand in l and u, each over the whole input before the next; and then these bounds mended. `sized`
// says whether all buffers of the call have their sizes, `within` whether its other numbers are in their ranges.
fn check_door(
    n: i64,
    sized: bool,
    within: bool,
    l: &mut Table,
    u: &mut Table,
) -> Result<(), Refusal>
    requires { Rooms l.old u.old }
    ensures { Mended (door_checks n sized within l.old u.old) (order_of n) l.old u.old result
        l.new u.new }
{
    check_entry(n, sized)?;
    check_laid(order_of(n), within, l, u)
}

// The bounds of order n that two buffers hold, into l and u, where the buffers have their sizes.
fn load_bounds<E: Element>(
    n: usize,
    sized: bool,
    low: &[E],
    high: &[E],
    l: &mut Table,
    u: &mut Table,
)
    requires { (n ≤ greatest_order) × Exact E.taken n sized (length low.now) (length high.now) × Blank l.old × Blank u.old }
    ensures { Laid n sized (E.numbers low.now (n * n)) (E.numbers high.now (n * n)) l.new u.new }
{
    if sized {
        E::load(low, n * n, l);
        E::load(high, n * n, u);
    }
}

// Enters with bounds in two buffers: they go into l and u, checks 1 to 5 are made, and what passes is mended there.
pub fn enter<E: Element>(
    n: i64,
    sized: bool,
    within: bool,
    low: &[E],
    high: &[E],
    l: &mut Table,
    u: &mut Table,
) -> Result<(), Refusal>
    requires { Exact E.taken (order_of n) sized (length low.now) (length high.now) × Blank l.old × Blank u.old }
    ensures { Entered n sized within (E.numbers low.now (order_of n * order_of n)) (E.numbers high.now (order_of n * order_of n)) result
        l.new u.new }
{
    load_bounds(order_of(n), sized, low, high, l, u);
    check_door(n, sized, within, l, u)
}
