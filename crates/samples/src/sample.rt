// R22.1 and R22.2 of docs/RULES.md: a sample, as the hub hands it over, and the whole numbers that its numbers lie between.
ghost use Rattle.std.specs.Prelude.{◌≡◌};
ghost use Rattle.samples.specs.Samples.{measured};

use floats::{Neighbours, bracket};

// How many factors a sample has, which is the order of the sums (R22.3), and the numbers of a table of that order; and how many numbers,
// the factors and behind them the draw.
pub const FACTOR_COUNT: usize = 4;

pub const PRODUCT_COUNT: usize = FACTOR_COUNT * FACTOR_COUNT;

pub const NUMBER_COUNT: usize = FACTOR_COUNT + 1;

// A number for each factor, for each pair of them, row by row, and for each number of a sample.
pub type Factors = [i64; FACTOR_COUNT];

pub type Products = [i64; PRODUCT_COUNT];

pub type Numbers = [i64; NUMBER_COUNT];

// Four factors, and the draw that was measured with them.
#[repr(C)]
#[derive(Clone, Copy, Debug, PartialEq)]
pub struct Sample {
    pub rolling: f32,
    pub climb: f32,
    pub air: f32,
    pub start: f32,
    pub draw: f32,
}

// What the numbers of a sample, times 16, lie between.
#[derive(Clone, Copy, Debug, PartialEq, Eq)]
pub struct Measures {
    pub rolling: Neighbours,
    pub climb: Neighbours,
    pub air: Neighbours,
    pub start: Neighbours,
    pub draw: Neighbours,
}

// What the sample's numbers lie between, where check 17 lets it through.
pub fn measure(sample: Sample) -> Option<Measures>
    ensures { result ≡ measured sample }
{
    Some(Measures {
        rolling: bracket(sample.rolling)?,
        climb: bracket(sample.climb)?,
        air: bracket(sample.air)?,
        start: bracket(sample.start)?,
        draw: bracket(sample.draw)?,
    })
}
