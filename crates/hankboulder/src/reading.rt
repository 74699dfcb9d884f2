// R15 of docs/RULES.md, the entry for C that reads running sums.
ghost use Rattle.std.specs.Prelude.{◌≡◌};
ghost use Rattle.hankboulder.specs.Entries.{ReadResult, read_entry};
ghost use Rattle.hankboulder.specs.Meanings.{ReadMeaning};

// Reads running sums with an allowance, with linear terms between linear_low and linear_high, which may be one buffer: 0 with the limit
// written, which goes on to hb_box with the sums' own bounds and linear terms; else the refusal's number, with nothing written.
#[unsafe(no_mangle)]
pub extern "C" fn hb_read_sums(
    n: i64,
    low: &[u8],
    high: &[u8],
    linear_low: &[u8],
    linear_high: &[u8],
    running_limit: i64,
    allowance: i64,
    limit: &mut [u8],
) -> i64
    ensures exact { ◌≡◌ {A = ReadResult} (record { number = result; limit = limit.new })
        (read_entry n low.now high.now linear_low.now linear_high.now
        running_limit allowance limit.old) }
    ensures meaning { ReadMeaning n low.now high.now linear_low.now linear_high.now running_limit allowance result limit.new }
{
    tables::answer_code(sums_buffers::reading::read_sums(
        n,
        low,
        high,
        linear_low,
        linear_high,
        running_limit,
        allowance,
        limit,
    ))
}
