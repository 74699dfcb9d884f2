// R2 of docs/RULES.md: a problem, as one value, and the sizes of the buffers in which one is lent.
ghost use Rattle.std.specs.Prelude.{◌≡◌};
ghost use Rattle.tables.specs.Problem.{lengths_of, constraint_sized};

use crate::{Table, Vector, sizes_ok};

// Linear terms between two ends: the first n numbers of each, and zeros.
#[derive(Clone, Copy, Debug, PartialEq, Eq)]
pub struct Linear {
    pub low: Vector,
    pub high: Vector,
}

// A quadratic constraint of order n: x'Mx + 2a'x ≤ limit. The bounds of M stand row by row in the first n² numbers of low and high, and
// zeros follow; those of a are the linear terms' ends.
#[derive(Clone, Copy, Debug, PartialEq, Eq)]
pub struct Constraint {
    pub order: usize,
    pub low: Table,
    pub high: Table,
    pub linear: Linear,
    pub limit: i64,
}

// A constraint, and the centre around which its box is laid: the first n numbers, and zeros.
#[derive(Clone, Copy, Debug, PartialEq, Eq)]
pub struct Problem {
    pub constraint: Constraint,
    pub centre: Vector,
}

// The sizes that an order calls for: of a table and of a vector, in numbers or in bytes.
#[derive(Clone, Copy, Debug, PartialEq, Eq)]
pub struct Sizes {
    pub table: usize,
    pub vector: usize,
}

// The sizes of two buffers, one with low and one with high ends.
#[derive(Clone, Copy, Debug, PartialEq, Eq)]
pub struct Pair {
    pub low: usize,
    pub high: usize,
}

// The sizes of the buffers in which a constraint is lent: bounds, and linear terms.
#[derive(Clone, Copy, Debug, PartialEq, Eq)]
pub struct Lengths {
    pub bounds: Pair,
    pub linear: Pair,
}

// The sizes of these four: low and high of the bounds, low and high of the linear terms.
pub fn lengths_of(low: usize, high: usize, from: usize, to: usize) -> Lengths
    ensures { result ≡ lengths_of low high from to }
{
    let bounds = Pair { low, high };
    let linear = Pair {
        low: from,
        high: to,
    };
    Lengths { bounds, linear }
}

// Whether they are those that the order calls for.
pub fn constraint_sized(sizes: Sizes, lengths: Lengths) -> bool
    ensures { result ≡ constraint_sized sizes lengths }
{
    let bounds = lengths.bounds;
    let linear = lengths.linear;
    let vector = sizes.vector;
    let last = linear.high;
    sizes_ok(sizes.table, vector, bounds.low, bounds.high, linear.low) && last == vector
}
