// R15 of docs/RULES.md, the entry for C that pools problems.
ghost use Rattle.std.specs.Prelude.{◌≡◌};
ghost use Rattle.hankboulder.specs.Entries.{GatherResult, pool_entry};
ghost use Rattle.hankboulder.specs.Meanings.{PoolMeaning};

use tables::answer_code;

// Pools 1 to 64 problems into running sums of their order: 0 with all five sums written; else the refusal's number, with nothing written.
#[unsafe(no_mangle)]
pub extern "C" fn hb_pool(
    n: i64,
    low: &mut [u8],
    high: &mut [u8],
    linear_low: &mut [u8],
    linear_high: &mut [u8],
    running_limit: &mut [u8],
    orders: &[u8],
    lows: &[u8],
    highs: &[u8],
    linear_lows: &[u8],
    linear_highs: &[u8],
    limits: &[u8],
) -> i64
    ensures exact { ◌≡◌ {A = GatherResult} (record {
      number = result;
      sums = record {
        low = low.new;
        high = high.new;
        from = linear_low.new;
        to = linear_high.new;
        limit = running_limit.new;
      };
    })
        (pool_entry n orders.now (record {
          lows = lows.now;
          highs = highs.now;
          froms = linear_lows.now;
          tos = linear_highs.now;
          limits = limits.now;
        }) (record {
          low = low.old;
          high = high.old;
          from = linear_low.old;
          to = linear_high.old;
          limit = running_limit.old;
        })) }
    ensures meaning { PoolMeaning n orders.now (record {
      lows = lows.now;
      highs = highs.now;
      froms = linear_lows.now;
      tos = linear_highs.now;
      limits = limits.now;
    }) (record {
      low = low.old;
      high = high.old;
      from = linear_low.old;
      to = linear_high.old;
      limit = running_limit.old;
    }) (record {
      low = low.new;
      high = high.new;
      from = linear_low.new;
      to = linear_high.new;
      limit = running_limit.new;
    }) result }
{
    answer_code(pool::pool::pool(
        n,
        low,
        high,
        linear_low,
        linear_high,
        running_limit,
        orders,
        lows,
        highs,
        linear_lows,
        linear_highs,
        limits,
    ))
}
