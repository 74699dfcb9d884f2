// The factor test on buffers of bytes.
ghost use Rattle.std.specs.Prelude.{◌≡◌, length, Ok};
ghost use Rattle.std.specs.Int.{w64};
ghost use mir.Val.{bytes};
ghost use Rattle.tables.specs.Checks.{order_of};
ghost use Rattle.residual.specs.FactorTest.{factor_tested};
ghost use Rattle.buffers.specs.Buffers.{table_of, factor_buffers, StoredAnswer, stored_over};

use residual::factor_test::{FactorAnswer, test_factor_among};
use tables::Refusal;
use words::SIZE;

// Stores what an answer carries, in a buffer of one number.
fn store_over(answer: FactorAnswer, over: &mut [u8])
    requires { length over.old ≡ bytes w64 }
    ensures { over.new ≡ (stored_over (Ok answer) over.old).over }
{
    words::store_signed(over, 0, SIZE, answer.over());
}

// The factor test of the numbers that the buffers spell.
pub fn test_factor(
    n: i64,
    low: &[u8],
    high: &[u8],
    factor: &[u8],
    over: &mut [u8],
) -> Result<FactorAnswer, Refusal>
    ensures { ◌≡◌ {A = StoredAnswer} (record { answer = result; over = over.new }) (stored_over (factor_tested n
        (factor_buffers (order_of n) (length low.now) (length high.now) (length factor.now)
        (length over.old))
        (table_of (order_of n) low.now) (table_of (order_of n) high.now) (table_of (order_of n) factor.now))
        over.old) }
{
    let answer = test_factor_among(n, over.len() == SIZE, low, high, factor)?;
    store_over(answer, over);
    Ok(answer)
}
