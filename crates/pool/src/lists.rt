// R27.2 of docs/RULES.md: the lists of a pool's problems, one problem after the other.

// The lists of the low and the high bounds, of both ends of the linear terms, and of the limits: of numbers, or of their bytes.
#[derive(Clone, Copy, Debug, PartialEq, Eq)]
pub struct Lists<'a, T> {
    pub lows: &'a [T],
    pub highs: &'a [T],
    pub froms: &'a [T],
    pub tos: &'a [T],
    pub limits: &'a [T],
}
