// An entry that only the bench calls: factoring with its checks, over numbers.
#![tactic(auto)]

ghost use Rattle.std.specs.Prelude.{◌≡◌};
ghost use Rattle.tables.specs.Answers.{yes_or_no_code, answer_code};
ghost use Rattle.hankboulder_bench.specs.Timed.{factoring};

use cholesky::problem::ends;
use tables::bounded::Bounded;
use tables::entering::{enter, order};
use tables::{Refusal, TABLE_ROOM, answer_code};

// Checks 1 to 5, and whether factoring ends, of any n and any lengths.
fn factor(n: i64, low: &[i64], high: &[i64]) -> Result<bool, Refusal>
    ensures { result ≡ factoring n low.now high.now }
{
    let m = order(n)?;
    let size = m * m;
    let sized = tables::sizes_ok(size, size, low.len(), high.len(), high.len());
    let mut l = [0i64; TABLE_ROOM];
    let mut u = [0i64; TABLE_ROOM];
    enter(n, sized, true, low, high, &mut l, &mut u)?;
    let bounds = Bounded {
        order: m,
        low: &l,
        high: &u,
    };
    Ok(ends(bounds))
}

// The answer's number: 0 where factoring ends, -1 where it stops, else the refusal's.
#[unsafe(no_mangle)]
pub extern "C" fn hb_bench_factor(n: i64, low: &[i64], high: &[i64]) -> i64
    ensures { result ≡ answer_code yes_or_no_code (factoring n low.now high.now) }
{
    answer_code(factor(n, low, high))
}
