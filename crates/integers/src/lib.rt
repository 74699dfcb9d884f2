// Signed 64-bit numbers: the smaller and the greater of two, floor division and whole root, R1.1 and R1.3 of docs/RULES.md.
#![tactic(auto)]

ghost use Rattle.std.specs.Prelude.{◌≡◌, ◌+◌, ◌*◌, ◌^◌, ◌/◌, ◌≤◌, ◌<◌, pos, ◌≤ℤ◌};
ghost use Rattle.std.specs.Int.Signed.{mag};
ghost use Rattle.integers.specs.Numbers.{min_ℤ, max_ℤ};
ghost use Rattle.integers.specs.Division.{floor_div};
ghost use Rattle.integers.specs.Root.{whole_root};

// The smaller of two numbers.
pub fn smaller(x: i64, y: i64) -> i64
    ensures { result ≡ min_ℤ x y }
{
    if x <= y { x } else { y }
}

// The greater of two numbers.
pub fn greater(x: i64, y: i64) -> i64
    ensures { result ≡ max_ℤ x y }
{
    if x <= y { y } else { x }
}

// a / d rounded down toward minus infinity. The machine rounds toward zero: where a is negative, -1 - a is divided, and the quotient is
// taken off -1.
pub fn floor_div(a: i64, d: i64) -> i64
    requires { pos 1 ≤ℤ d }
    ensures { result ≡ floor_div a d }
{
    let quotient = magnitude(a) / d;
    if a < 0 { -1 - quotient } else { quotient }
}

// -1 - a where a is negative, and a elsewhere.
fn magnitude(a: i64) -> i64
    ensures { result ≡ pos (mag a) }
{
    if a < 0 { -1 - a } else { a }
}

// The whole root of x (R1.3).
pub fn whole_root(x: i64) -> i64
    requires { pos 0 ≤ℤ x }
    ensures { result ≡ whole_root x }
{
    root(x as u64) as i64
}

// By Newton's steps, which fall to the root from above and end where a square is not above x: one division for most x, and two for the
// others.
fn root(x: u64) -> u64
    requires { x < 2 ^ 63 }
    ensures { (result * result ≤ x) × (x < (result + 1) * (result + 1)) × (result < 2 ^ 32) }
{
    if x == 0 {
        return 0;
    }
    let mut above = first_step(x);
    while x < above * above {
        above = newton(x, above);
    }
    return above;
}

// Newton's step for the root of x: not below the root, whatever r is.
fn newton(x: u64, r: u64) -> u64
    requires { (0 < r) × (r < 2 ^ 63) × (x < 2 ^ 63) }
    ensures { result ≡ (r + x / r) / 2 }
{
    (r + x / r) / 2
}

// The step from the first guess, or 2^32 - 1 where that is less: not below the root, and its square fits 64 bits.
fn first_step(x: u64) -> u64
    requires { (0 < x) × (x < 2 ^ 63) }
    ensures { (x < (result + 1) * (result + 1)) × (result < 2 ^ 32) }
{
    let step = newton(x, root_guess(x));
    if step < 0xFFFF_FFFF {
        step
    } else {
        0xFFFF_FFFF
    }
}

// A first guess at the root of x, within one part in 16000 for a large x. Only the number of steps rests on how near it is.
fn root_guess(x: u64) -> u64
    requires { (0 < x) × (x < 2 ^ 63) }
    ensures { (0 < result) × (result < 2 ^ 40) }
{
    let k = u64::leading_zeros(x) / 2;
    (interpolated_root(x << (2 * k)) >> k) + 1
}

// Near the root of a: its first six bits say between which two of ROOTS that lies, and the 16 bits that follow say where.
fn interpolated_root(a: u64) -> u64
    requires { 2 ^ 62 ≤ a }
    ensures { result < 2 ^ 33 }
{
    let roots = ROOTS;
    let at = ((a >> 58) - 16) as usize;
    between(roots[at], roots[at + 1], (a >> 42) % 65536)
}

// 2^16 times the number that lies between low and high, at part / 2^16 of the way.
fn between(low: u16, high: u16, part: u64) -> u64
    requires { part < 65536 }
    ensures { result < 2 ^ 33 }
{
    (low as u64) * (65536 - part) + (high as u64) * part
}

// 2^15 times the root of 1 + k / 16, more by half of what the chord between two such roots is below it, and at most 2^16 - 1.
const ROOTS: [u16; 49] = [
    32770, 33778, 34757, 35710, 36637, 37542, 38425, 39289, 40134, 40961, 41772, 42568, 43349,
    44116, 44870, 45612, 46342, 47060, 47768, 48465, 49153, 49831, 50499, 51160, 51811, 52455,
    53091, 53719, 54340, 54954, 55561, 56162, 56756, 57344, 57927, 58503, 59074, 59639, 60199,
    60754, 61304, 61849, 62389, 62924, 63455, 63982, 64504, 65022, 65535,
];
