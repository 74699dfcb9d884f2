// The bracket of the stiffness on buffers of bytes.
ghost use Rattle.std.specs.Prelude.{◌≡◌, length, Ok};
ghost use Rattle.std.specs.Int.{w64};
ghost use mir.Val.{bytes};
ghost use Rattle.tables.specs.Checks.{order_of};
ghost use Rattle.stiffness.specs.Bracket.{bracketing};
ghost use Rattle.buffers.specs.Buffers.{table_of};
ghost use Rattle.stiffness_buffers.specs.StiffnessBuffers.{stiffness_buffers, Ends, stored_ends, StoredStiffness, stored_stiffness};

use stiffness::bracket::{Stiffness, bracket_among};
use tables::Refusal;
use words::SIZE;

// The bound of an answer, and the step where it is given, into buffers of one number each.
fn store_ends(found: Stiffness, step: &mut [u8], bound: &mut [u8])
    requires { (length step.old ≡ bytes w64) × (length bound.old ≡ bytes w64) }
    ensures { ◌≡◌ {A = Ends} (record { step = step.new; bound = bound.new }) (stored_ends (Ok found) step.old bound.old) }
{
    let v = match found {
        Stiffness::Between(t, v) => {
            words::store_signed(step, 0, SIZE, t);
            v
        }
        Stiffness::AtMost(v) => v,
    };
    words::store_signed(bound, 0, SIZE, v);
}

// The bracket of the numbers that the buffers spell.
pub fn bracket(
    n: i64,
    low: &[u8],
    high: &[u8],
    step: &mut [u8],
    bound: &mut [u8],
    vector: &mut [u8],
) -> Result<Stiffness, Refusal>
    ensures { ◌≡◌ {A = StoredStiffness} (record {
      stiffness = result;
      step = step.new;
      bound = bound.new;
      vector = vector.new;
    }) (stored_stiffness (order_of n) (bracketing n (stiffness_buffers (order_of n) (length low.now) (length high.now)
        (length step.old) (length bound.old) (length vector.old))
        (table_of (order_of n) low.now) (table_of (order_of n) high.now))
        step.old bound.old vector.old) }
{
    let others = step.len() == SIZE && bound.len() == SIZE;
    let found = bracket_among(n, others, low, high, vector)?;
    store_ends(found, step, bound);
    Ok(found)
}
