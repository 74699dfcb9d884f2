// R22.6 of docs/RULES.md: check 2 of sums that a sample is gathered into.
ghost use Rattle.std.specs.Prelude.{◌≡◌, ◌*◌, ◌≤◌};
ghost use Rattle.samples.specs.Gathering.{sums_sized};

use crate::sample::{FACTOR_COUNT, PRODUCT_COUNT};
use tables::elements::Element;
use tables::problem::{Lengths, Sizes, constraint_sized};

// Check 2: whether the order is that of a sample, and the buffers of E have their sizes.
pub fn sums_sized<E: Element>(order: usize, lengths: Lengths, limit: usize) -> bool
    ensures { result ≡ sums_sized E.taken order lengths limit }
{
    let sizes = Sizes {
        table: E::taken(PRODUCT_COUNT),
        vector: E::taken(FACTOR_COUNT),
    };
    let one = E::taken(1);
    order == FACTOR_COUNT && (constraint_sized(sizes, lengths) && limit == one)
}

// The same of buffers in which a number takes `unit`.
#[tactic(auto, unfolding(crate::specs::Gathering::sums_sized))]
pub fn unit_sized(unit: usize, order: usize, lengths: Lengths, limit: usize) -> bool
    requires { unit ≤ 8 }
    ensures { result ≡ sums_sized (λ k. k * unit) order lengths limit }
{
    let called = Sizes {
        table: PRODUCT_COUNT * unit,
        vector: FACTOR_COUNT * unit,
    };
    order == FACTOR_COUNT && (constraint_sized(called, lengths) && limit == unit)
}
