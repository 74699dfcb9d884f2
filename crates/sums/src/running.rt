// R23 of docs/RULES.md: where running sums stand.

// Running sums of an order, lent for writing: the bounds and both ends of the linear terms at the front of slices, and the running limit.
#[derive(Drop)]
pub struct SumsMut<'a> {
    pub order: usize,
    pub low: &'a mut [i64],
    pub high: &'a mut [i64],
    pub from: &'a mut [i64],
    pub to: &'a mut [i64],
    pub limit: i64,
}

// The same parts to be read, of sums of an order that is known: what is added to running sums, and sums that are copied.
#[derive(Clone, Copy, Debug, PartialEq, Eq)]
pub struct SumsRef<'a> {
    pub low: &'a [i64],
    pub high: &'a [i64],
    pub from: &'a [i64],
    pub to: &'a [i64],
    pub limit: i64,
}

impl SumsMut<'_> {
    ghost use Rattle.sums.specs.Running.{Viewing};

    // The same sums, to be read.
    pub fn view(&self) -> SumsRef<'_>
        ensures { Viewing self.entry.now result }
    {
        SumsRef {
            low: self.low,
            high: self.high,
            from: self.from,
            to: self.to,
            limit: self.limit,
        }
    }
}
