// R15 of docs/RULES.md, the entries for C: each act on buffers of bytes, by the number of its answer.
#![tactic(auto)]

ghost use Rattle.std.specs.Prelude.{◌≡◌};
ghost use Rattle.hankboulder.specs.Entries.{TestFactorResult, test_factor_entry, test_vector_entry};
ghost use Rattle.hankboulder.specs.Entries.{JudgeResult, judge_entry, BoxResult, box_entry};
ghost use Rattle.hankboulder.specs.Meanings.{FactorMeaning, VectorMeaning, JudgeMeaning, BoxMeaning};

pub mod bracketing;
pub mod display_bus;
pub mod file_reading;
pub mod file_writing;
pub mod gathering;
pub mod pooling;
pub mod reading;

use tables::answer_code;

// Tests an offered factor: 0 accepted and -1 not accepted, with what the rows have over written; else the refusal's number, with nothing
// written.
#[unsafe(no_mangle)]
pub extern "C" fn hb_test_factor(
    n: i64,
    low: &[u8],
    high: &[u8],
    factor: &[u8],
    over: &mut [u8],
) -> i64
    ensures exact { ◌≡◌ {A = TestFactorResult} (record { number = result; over = over.new })
        (test_factor_entry n low.now high.now factor.now over.old) }
    ensures meaning { FactorMeaning n low.now high.now factor.now result over.new }
{
    answer_code(buffers::tests::test_factor(n, low, high, factor, over))
}

// Tests whether an offered vector shows 'not definite', and answers by `tables::answer_code`. Nothing is written.
#[unsafe(no_mangle)]
pub extern "C" fn hb_test_vector(n: i64, low: &[u8], high: &[u8], vector: &[u8]) -> i64
    ensures exact { result ≡ test_vector_entry n low.now high.now vector.now }
    ensures meaning { VectorMeaning n low.now high.now vector.now result }
{
    answer_code(vectors::vector_test::test_vector(n, low, high, vector))
}

// Judges: 0 definite, with the factor and what the rows have over written; -1 not definite, with the vector written; -2 undecided, and else
// the refusal's number, with nothing written. What is not written is kept.
#[unsafe(no_mangle)]
pub extern "C" fn hb_judge(
    n: i64,
    low: &[u8],
    high: &[u8],
    factor: &mut [u8],
    vector: &mut [u8],
    over: &mut [u8],
) -> i64
    ensures exact { ◌≡◌ {A = JudgeResult} (record {
      number = result;
      factor = factor.new;
      vector = vector.new;
      over = over.new;
    }) (judge_entry n low.now high.now factor.old vector.old over.old) }
    ensures meaning { JudgeMeaning n low.now high.now result factor.new vector.new over.new }
{
    answer_code(buffers::judging::judge(n, low, high, factor, vector, over))
}

// Boxes the ellipsoid, with linear terms between linear_low and linear_high, which may be one buffer: 0 with the sides written, low and
// high for each k; -1 empty, else the refusal's number, with nothing written.
#[unsafe(no_mangle)]
pub extern "C" fn hb_box(
    n: i64,
    low: &[u8],
    high: &[u8],
    linear_low: &[u8],
    linear_high: &[u8],
    limit: i64,
    centre: &[u8],
    sides: &mut [u8],
) -> i64
    ensures exact { ◌≡◌ {A = BoxResult} (record { number = result; sides = sides.new })
        (box_entry n low.now high.now linear_low.now linear_high.now
        limit centre.now sides.old) }
    ensures meaning { BoxMeaning n low.now high.now linear_low.now linear_high.now limit result sides.new }
{
    answer_code(enclosure::enclose::enclose(
        n,
        low,
        high,
        linear_low,
        linear_high,
        limit,
        centre,
        sides,
    ))
}
