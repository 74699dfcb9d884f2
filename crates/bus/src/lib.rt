// R28 of docs/RULES.md: the judge on the display bus, a block of 32 registers and a run area. A write starts or resets it, and each tick
// works out one column of the factoring, or searches the listed vectors. All is kept in the two lent buffers, which may hold any bytes.
#![tactic(auto)]

pub mod acts;
pub mod area;
pub mod line;
pub mod registers;
pub mod safety;
pub mod starting;
pub mod ticking;
