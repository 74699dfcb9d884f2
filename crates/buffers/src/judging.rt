// The judge on buffers of bytes.
ghost use Rattle.std.specs.Prelude.{◌≡◌, length};
ghost use Rattle.tables.specs.Checks.{order_of};
ghost use Rattle.verdict.specs.Judge.{judging};
ghost use Rattle.buffers.specs.Buffers.{table_of, judge_buffers, StoredVerdict, stored_verdict};

use tables::Refusal;
use verdict::judge::{Verdict, judge_among};
use words::SIZE;

// The judge of the numbers that the buffers spell; with 'definite' goes what the rows have over, in a buffer of one number.
pub fn judge(
    n: i64,
    low: &[u8],
    high: &[u8],
    factor: &mut [u8],
    vector: &mut [u8],
    over: &mut [u8],
) -> Result<Verdict, Refusal>
    ensures { ◌≡◌ {A = StoredVerdict} (record {
      verdict = result;
      factor = factor.new;
      vector = vector.new;
      over = over.new;
    }) (stored_verdict (order_of n) (judging n (judge_buffers (order_of n) (length low.now) (length high.now)
        (length factor.old) (length vector.old) (length over.old))
        (table_of (order_of n) low.now) (table_of (order_of n) high.now))
        factor.old vector.old over.old) }
{
    let verdict = judge_among(n, over.len() == SIZE, low, high, factor, vector)?;
    if let Verdict::Definite(v) = verdict {
        words::store_signed(over, 0, SIZE, v);
    }
    Ok(verdict)
}
