// R15 of docs/RULES.md, the entry for C that writes a summary file.
ghost use Rattle.std.specs.Prelude.{◌≡◌};
ghost use Rattle.hankboulder.specs.Entries.{WriteSummaryResult, write_summary_entry};
ghost use Rattle.hankboulder.specs.Meanings.{WriteSummaryMeaning};

use tables::answer_code;

// Writes the summary file of a problem, with linear terms between linear_low and linear_high, which may be one buffer: 0 with the file
// written, else the refusal's number, with nothing written.
#[unsafe(no_mangle)]
pub extern "C" fn hb_write_summary(
    n: i64,
    low: &[u8],
    high: &[u8],
    linear_low: &[u8],
    linear_high: &[u8],
    limit: i64,
    centre: &[u8],
    file: &mut [u8],
) -> i64
    ensures exact { ◌≡◌ {A = WriteSummaryResult} (record { number = result; file = file.new })
        (write_summary_entry n low.now high.now linear_low.now linear_high.now
        limit centre.now file.old) }
    ensures meaning { WriteSummaryMeaning n low.now high.now linear_low.now linear_high.now limit centre.now result file.new }
{
    answer_code(writer::write::write(n, low, high, linear_low, linear_high, limit, centre, file))
}
