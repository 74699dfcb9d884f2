// A summary file, read into buffers of bytes: R25 of docs/RULES.md.
ghost use Rattle.std.specs.Prelude.{◌≡◌};
ghost use Rattle.file_buffers.specs.Parts.{parts, roomy, Handed, read_summary};

use crate::storing::{store_bounds, store_linear, store_others};
use tables::problem::{Lengths, Sizes, constraint_sized, lengths_of};
use tables::{GREATEST_ORDER, Refusal, TABLE_ROOM};
use words::SIZE;

// 2: whether the buffers have their sizes: tables and vectors that of the greatest order, order and limit that of one number.
#[tactic(auto, unfolding(crate::specs::Parts::roomy))]
fn parts_roomy(order: usize, lengths: Lengths, limit: usize, centre: usize) -> bool
    ensures { result ≡ roomy order lengths limit centre }
{
    let vector = GREATEST_ORDER * SIZE;
    let sizes = Sizes {
        table: TABLE_ROOM * SIZE,
        vector,
    };
    constraint_sized(sizes, lengths) && (order == SIZE && (limit == SIZE && centre == vector))
}

// Reads a file of any bytes at all, and stores its problem: the order, the mended bounds, both ends of the linear terms, the limit and the
// centre, each in front of its buffer and zeros behind it. A refusal keeps all seven.
#[tactic(auto, unfolding(crate::specs::Parts::read_summary, crate::specs::Parts::handed))]
pub fn read_summary(
    file: &[u8],
    order: &mut [u8],
    low: &mut [u8],
    high: &mut [u8],
    from: &mut [u8],
    to: &mut [u8],
    limit: &mut [u8],
    centre: &mut [u8],
) -> Result<(), Refusal>
    ensures { ◌≡◌ {A = Handed} (record {
      answer = result;
      parts = parts order.new low.new high.new from.new to.new limit.new centre.new;
    })
        (read_summary file.now (parts order.old low.old high.old from.old to.old limit.old centre.old)) }
{
    let lengths = lengths_of(low.len(), high.len(), from.len(), to.len());
    if !parts_roomy(order.len(), lengths, limit.len(), centre.len()) {
        return Err(Refusal::Length);
    }
    let problem = summary::problem::read(file)?;
    let constraint = &problem.constraint;
    store_bounds(constraint, low, high);
    store_linear(&constraint.linear, from, to);
    store_others(&problem, order, limit, centre);
    Ok(())
}
