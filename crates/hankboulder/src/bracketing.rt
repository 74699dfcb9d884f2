// R15 of docs/RULES.md, the entry for C that brackets the stiffness.
ghost use Rattle.std.specs.Prelude.{◌≡◌};
ghost use Rattle.hankboulder.specs.Entries.{StiffnessResult, stiffness_entry};
ghost use Rattle.hankboulder.specs.Meanings.{StiffnessMeaning};

use tables::answer_code;

// Brackets the stiffness: 0 with step, bound and vector written; -1 with bound and vector written, and step kept; else the refusal's
// number, with nothing written.
#[unsafe(no_mangle)]
pub extern "C" fn hb_stiffness(
    n: i64,
    low: &[u8],
    high: &[u8],
    step: &mut [u8],
    bound: &mut [u8],
    vector: &mut [u8],
) -> i64
    ensures exact { ◌≡◌ {A = StiffnessResult} (record {
      number = result;
      step = step.new;
      bound = bound.new;
      vector = vector.new;
    }) (stiffness_entry n low.now high.now step.old bound.old vector.old) }
    ensures meaning { StiffnessMeaning n low.now high.now result step.new bound.new vector.new }
{
    answer_code(stiffness_buffers::bracketing::bracket(n, low, high, step, bound, vector))
}
