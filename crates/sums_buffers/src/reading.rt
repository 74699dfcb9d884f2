// Reading running sums, on buffers of bytes.
ghost use Rattle.std.specs.Prelude.{◌≡◌, length};
ghost use Rattle.tables.specs.Checks.{order_of};
ghost use Rattle.tables.specs.Problem.{constraint_of, lengths_of};
ghost use Rattle.rides.specs.Reading.{read_sums};
ghost use Rattle.buffers.specs.Buffers.{table_of, vector_of};
ghost use Rattle.sums_buffers.specs.SumsBuffers.{read_buffers, ReadOut, stored_limit};

use rides::reading::read_sums_among;
use tables::Refusal;
use words::SIZE;

// Reads the running sums that the buffers spell with an allowance, and stores the limit.
pub fn read_sums(
    n: i64,
    low: &[u8],
    high: &[u8],
    from: &[u8],
    to: &[u8],
    running: i64,
    allowance: i64,
    limit: &mut [u8],
) -> Result<i64, Refusal>
    ensures { ◌≡◌ {A = ReadOut} (record { answer = result; limit = limit.new }) (stored_limit (read_sums n (read_buffers
        (order_of n) (lengths_of (length low.now) (length high.now) (length from.now) (length
        to.now)) (length limit.old)) allowance (constraint_of (order_of n) (table_of (order_of n)
        low.now) (table_of (order_of n) high.now) (vector_of (order_of n) from.now) (vector_of
        (order_of n) to.now) running)) limit.old) }
{
    let alpha = read_sums_among(
        n,
        limit.len() == SIZE,
        low,
        high,
        from,
        to,
        running,
        allowance,
    )?;
    words::store_signed(limit, 0, SIZE, alpha);
    Ok(alpha)
}
