// R15 of docs/RULES.md, the entry for C that gathers a sample.
ghost use Rattle.std.specs.Prelude.{◌≡◌};
ghost use Rattle.hankboulder.specs.Entries.{GatherResult, gather_entry};
ghost use Rattle.hankboulder.specs.Meanings.{GatherMeaning};

use samples::sample::Sample;
use tables::answer_code;

// Gathers a sample into running sums of order 4: 0 with all five buffers written; else the refusal's number, with nothing written.
#[unsafe(no_mangle)]
pub extern "C" fn hb_gather(
    sample: Sample,
    n: i64,
    low: &mut [u8],
    high: &mut [u8],
    linear_low: &mut [u8],
    linear_high: &mut [u8],
    running_limit: &mut [u8],
) -> i64
    ensures exact { ◌≡◌ {A = GatherResult} (record {
      number = result;
      sums = record {
        low = low.new;
        high = high.new;
        from = linear_low.new;
        to = linear_high.new;
        limit = running_limit.new;
      };
    })
        (gather_entry sample n (record {
          low = low.old;
          high = high.old;
          from = linear_low.old;
          to = linear_high.old;
          limit = running_limit.old;
        })) }
    ensures meaning { GatherMeaning sample n (record {
      low = low.old;
      high = high.old;
      from = linear_low.old;
      to = linear_high.old;
      limit = running_limit.old;
    }) (record {
      low = low.new;
      high = high.new;
      from = linear_low.new;
      to = linear_high.new;
      limit = running_limit.new;
    }) result }
{
    answer_code(rides::gather::gather(sample, n, low, high, linear_low, linear_high, running_limit))
}
