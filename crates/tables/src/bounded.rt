// A bounded matrix: as it is handed in, and as everything behind the door reads it, which is once it passed the checks 3 to 5 of docs/RULES.md
// and is mended (R2.10). Bounds L and U stand row by row in the first numbers of two slices, as many as the order's square.
ghost use Rattle.std.specs.Prelude.{◌≡◌, ◌<◌};
ghost use Rattle.tables.specs.Bounds.{HandedTables, CheckedTables};

use crate::entry;

// Bounds as they are handed in.
#[derive(Clone, Copy, Debug, PartialEq, Eq)]
pub struct Handed<'a> {
    pub order: usize,
    pub low: &'a [i64],
    pub high: &'a [i64],
    pub ghost handed: { HandedTables order low.now high.now },
}

// Bounds that passed, and are mended.
#[derive(Clone, Copy, Debug, PartialEq, Eq)]
pub struct Bounded<'a> {
    pub order: usize,
    pub low: &'a [i64],
    pub high: &'a [i64],
    pub ghost checked: { CheckedTables order low.now high.now },
}

impl Bounded<'_> {
    ghost use Rattle.tables.specs.Bounded.{low_of, high_of};

    // L(i,j).
    pub fn low_at(self, i: usize, j: usize) -> i64
        requires { (i < self.order) × (j < self.order) }
        ensures { result ≡ low_of self.entry i j }
    {
        entry(self.order, self.low, i, j)
    }

    // U(i,j).
    pub fn high_at(self, i: usize, j: usize) -> i64
        requires { (i < self.order) × (j < self.order) }
        ensures { result ≡ high_of self.entry i j }
    {
        entry(self.order, self.high, i, j)
    }
}
