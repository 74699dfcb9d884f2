// R2.10 and R23.4 of docs/RULES.md: where running sums stand whose bounds are to be mended.
ghost use Rattle.sums.specs.Mending.{ViewingMended};

use crate::running::SumsRef;

// Running sums of an order: the bounds are lent for writing, and are mended where they stand; all else is only read. Each at the front of a
// slice, as in `SumsMut`.
#[derive(Drop)]
pub struct SumsToMend<'a> {
    pub order: usize,
    pub low: &'a mut [i64],
    pub high: &'a mut [i64],
    pub from: &'a [i64],
    pub to: &'a [i64],
    pub limit: i64,
}

impl SumsToMend<'_> {
    // The same sums, to be read.
    pub fn view(&self) -> SumsRef<'_>
        ensures { ViewingMended self.entry.now result }
    {
        SumsRef {
            low: self.low,
            high: self.high,
            from: self.from,
            to: self.to,
            limit: self.limit,
        }
    }
}
