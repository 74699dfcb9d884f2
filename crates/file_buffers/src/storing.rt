// R15 of docs/RULES.md: the numbers of a problem into buffers of bytes, 8 bytes each, with the zeros that its arrays have behind them.
ghost use Rattle.std.specs.Prelude.{◌≡◌, ◌*◌, ◌≤◌, pos, length};
ghost use Rattle.std.specs.Int.{w64};
ghost use mir.Val.{bytes};
ghost use Rattle.words.specs.Numbers.{bytes_of};
ghost use Rattle.tables.specs.Ranges.{greatest_order, table_room};
ghost use Rattle.buffers.specs.Buffers.{bytes_of_number};
ghost use Rattle.file_buffers.specs.Parts.{Numbers};

use tables::problem::{Constraint, Linear, Problem};
use tables::{GREATEST_ORDER, TABLE_ROOM};
use words::{SIZE, store_numbers, store_signed};

// Both tables.
pub fn store_bounds(constraint: &Constraint, low: &mut [u8], high: &mut [u8])
    requires { Numbers table_room constraint.now.low low.old × Numbers table_room constraint.now.high high.old }
    ensures { (low.new ≡ bytes_of w64 constraint.now.low table_room)
        × (high.new ≡ bytes_of w64 constraint.now.high table_room) }
{
    store_numbers(&constraint.low, low, TABLE_ROOM, SIZE);
    store_numbers(&constraint.high, high, TABLE_ROOM, SIZE);
}

// Both ends of the linear terms.
pub fn store_linear(linear: &Linear, from: &mut [u8], to: &mut [u8])
    requires { Numbers greatest_order linear.now.low from.old × Numbers greatest_order linear.now.high to.old }
    ensures { (from.new ≡ bytes_of w64 linear.now.low greatest_order)
        × (to.new ≡ bytes_of w64 linear.now.high greatest_order) }
{
    store_numbers(&linear.low, from, GREATEST_ORDER, SIZE);
    store_numbers(&linear.high, to, GREATEST_ORDER, SIZE);
}

// The order, the limit and the centre.
pub fn store_others(problem: &Problem, order: &mut [u8], limit: &mut [u8], centre: &mut [u8])
    requires { (problem.now.constraint.order ≤ greatest_order) × (length order.old ≡ bytes w64)
        × (length limit.old ≡ bytes w64) × Numbers greatest_order problem.now.centre centre.old }
    ensures { (order.new ≡ bytes_of_number (pos problem.now.constraint.order))
        × (limit.new ≡ bytes_of_number problem.now.constraint.limit)
        × (centre.new ≡ bytes_of w64 problem.now.centre greatest_order) }
{
    let constraint = &problem.constraint;
    store_signed(order, 0, SIZE, constraint.order as i64);
    store_signed(limit, 0, SIZE, constraint.limit);
    store_numbers(&problem.centre, centre, GREATEST_ORDER, SIZE);
}
