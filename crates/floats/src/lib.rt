// R22 of docs/RULES.md: 16 times a 32-bit float, between the whole numbers next below and above it.
#![tactic(auto)]

ghost use Rattle.std.specs.Prelude.{◌≡◌, ◌^◌, ◌<◌, ◌≤◌, T, pos, ◌*ℤ◌};
ghost use Rattle.integers.specs.Division.{floor_div, ceil_div};
ghost use Rattle.floats.specs.Brackets.{signed, units_of, sixteenth, finite_within, in_range, whole_next_to, bracket_of};
ghost use Rattle.floats.specs.Fields.{significand_of, places_of};

// The whole numbers next below and above a number: both are the number itself where it is whole.
#[derive(Clone, Copy, Debug, PartialEq, Eq)]
pub struct Neighbours {
    pub low: i64,
    pub high: i64,
}

// The neighbours of 16·x, where x is finite and from -8 to 8. There the product loses nothing.
pub fn bracket(x: f32) -> Option<Neighbours>
    ensures { result ≡ bracket_of x }
{
    if in_range(x) {
        Some(next_to(x * 16.0))
    } else {
        None
    }
}

// Whether x is finite and from -8 to 8: a comparison with a NaN fails.
fn in_range(x: f32) -> bool
    ensures { result ≡ in_range x }
{
    if x >= -8.0 { x <= 8.0 } else { false }
}

// The neighbours of p, from its bits.
fn next_to(p: f32) -> Neighbours
    requires { T (finite_within 128 p) }
    ensures { result ≡ whole_next_to (units_of p) (pos 16 *ℤ sixteenth) }
{
    let bits = f32::to_bits(p);
    let exponent = bits % 0x8000_0000 / 0x80_0000;
    let digits = bits % 0x80_0000;
    cut(
        bits >= 0x8000_0000,
        significand(exponent, digits),
        places(exponent),
    )
}

// The digits of a float with the leading one, which a subnormal number lacks.
fn significand(exponent: u32, digits: u32) -> u32
    requires { digits < 2 ^ 23 }
    ensures { result ≡ significand_of exponent digits }
{
    if exponent == 0 {
        digits
    } else {
        0x80_0000 + digits
    }
}

// How many digits stand behind the point. All of them do from 24 on, and 24 serve for more.
fn places(exponent: u32) -> u32
    requires { exponent ≤ 150 }
    ensures { result ≡ places_of exponent }
{
    if exponent < 126 { 24 } else { 150 - exponent }
}

// The neighbours of ±digits / 2^places.
fn cut(negative: bool, digits: u32, places: u32) -> Neighbours
    requires { (digits < 2 ^ 24) × (places ≤ 24) }
    ensures { result ≡ whole_next_to (signed negative digits) (pos (2 ^ places)) }
{
    let floor = rounded_down(digits, places);
    let ceiling = rounded_up(digits, places);
    if negative {
        let below = -ceiling;
        let above = -floor;
        Neighbours {
            low: below,
            high: above,
        }
    } else {
        Neighbours {
            low: floor,
            high: ceiling,
        }
    }
}

// digits / 2^places, rounded down.
fn rounded_down(digits: u32, places: u32) -> i64
    requires { (digits < 2 ^ 24) × (places ≤ 24) }
    ensures { result ≡ floor_div (pos digits) (pos (2 ^ places)) }
{
    (digits >> places) as i64
}

// digits / 2^places, rounded up.
fn rounded_up(digits: u32, places: u32) -> i64
    requires { (digits < 2 ^ 24) × (places ≤ 24) }
    ensures { result ≡ ceil_div (pos digits) (pos (2 ^ places)) }
{
    let last = (1 << places) - 1;
    ((digits + last) >> places) as i64
}
