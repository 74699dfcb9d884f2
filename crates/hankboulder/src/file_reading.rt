// R15 and R25 of docs/RULES.md, the entry for C that reads a summary file.
ghost use Rattle.std.specs.Prelude.{◌≡◌};
ghost use Rattle.file_buffers.specs.Parts.{parts};
ghost use Rattle.hankboulder.specs.Entries.{ReadSummaryResult, read_summary_entry};
ghost use Rattle.hankboulder.specs.Meanings.{ReadSummaryMeaning};

use tables::answer_code;

// Reads a summary file: 0 with all seven buffers written, the problem in front and zeros behind it; else the refusal's number, with nothing
// written.
#[unsafe(no_mangle)]
pub extern "C" fn hb_read_summary(
    file: &[u8],
    order: &mut [u8],
    low: &mut [u8],
    high: &mut [u8],
    linear_low: &mut [u8],
    linear_high: &mut [u8],
    limit: &mut [u8],
    centre: &mut [u8],
) -> i64
    ensures exact { ◌≡◌ {A = ReadSummaryResult} (record {
      number = result;
      parts = parts order.new low.new high.new linear_low.new linear_high.new limit.new centre.new;
    })
        (read_summary_entry file.now (parts order.old low.old high.old linear_low.old linear_high.old limit.old centre.old)) }
    ensures meaning { ReadSummaryMeaning file.now
        (parts order.new low.new high.new linear_low.new linear_high.new limit.new centre.new) result }
{
    answer_code(file_buffers::reading::read_summary(
        file,
        order,
        low,
        high,
        linear_low,
        linear_high,
        limit,
        centre,
    ))
}
