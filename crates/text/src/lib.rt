// Text in a buffer (R19.5 of docs/RULES.md): words, numbers in decimal, and lines of them. Each function puts its text at a place of the
// buffer and answers the place behind it.
#![tactic(auto)]

ghost use Rattle.std.specs.Prelude.{◌+◌, ◌*◌, ◌≤◌, length, [], ◌∷◌};
ghost use Rattle.tables.specs.Matrix.{nth};
ghost use Rattle.text.specs.Text.{natural, decimal, widest, spaced, line_room, numbers, line, lines};
ghost use Rattle.text.specs.Putting.{Put};

// A number of 64 bits takes up at most so many bytes, with a space in front of it.
pub const SPACED: usize = 21;

// One byte.
#[tactic(auto, using(crate::proofs::Puts::put_byte))]
fn put(out: &mut [u8], at: usize, byte: u8) -> usize
    requires { at + 1 ≤ length out.old }
    ensures { Put out.old at (byte ∷ []) 1 result out.new }
{
    out[at] = byte;
    at + 1
}

// A text.
#[tactic(auto, unfolding(crate::specs::Putting::with_text))]
pub fn put_text(out: &mut [u8], at: usize, text: &[u8]) -> usize
    requires { at + length text.now ≤ length out.old }
    ensures { Put out.old at text.now (length text.now) result out.new }
{
    let behind = at + text.len();
    out[at..behind].copy_from_slice(text);
    behind
}

// The decimal digits of u.
fn put_natural(out: &mut [u8], at: usize, u: u64) -> usize
    requires { at + length (natural u) ≤ length out.old }
    ensures { Put out.old at (natural u) (length (natural u)) result out.new }
{
    let mut next = at;
    if 10 <= u {
        next = put_natural(out, at, u / 10);
    }
    put(out, next, (48 + u % 10) as u8)
}

// A number in decimal, with a minus sign where it is negative.
fn put_decimal(out: &mut [u8], at: usize, v: i64) -> usize
    requires { at + widest ≤ length out.old }
    ensures { Put out.old at (decimal v) widest result out.new }
{
    let mut next = at;
    if v < 0 {
        next = put(out, at, 45);
    }
    put_natural(out, next, words::magnitude(v))
}

// Numbers, each behind a space.
fn put_numbers(out: &mut [u8], at: usize, x: &[i64]) -> usize
    requires { at + length x.now * spaced ≤ length out.old }
    ensures { Put out.old at (numbers (nth x.now) (length x.now)) (length x.now * spaced) result out.new }
{
    let mut next = at;
    for v in x {
        let from = put(out, next, 32);
        next = put_decimal(out, from, *v);
    }
    next
}

// A line: a word and the numbers of x from the place first on, count of them.
pub fn put_line(
    out: &mut [u8],
    at: usize,
    word: &[u8],
    x: &[i64],
    first: usize,
    count: usize,
) -> usize
    requires { (at + line_room (length word.now) count ≤ length out.old) × (first + count ≤ length x.now) }
    ensures { Put out.old at (line word.now (λ k. nth x.now (first + k)) count)
        (line_room (length word.now) count) result out.new }
{
    let behind = put_text(out, at, word);
    let next = put_numbers(out, behind, &x[first..first + count]);
    put(out, next, 10)
}

// Lines of width numbers each, count of them: the numbers of x, one after the other.
pub fn put_lines(
    out: &mut [u8],
    at: usize,
    word: &[u8],
    x: &[i64],
    width: usize,
    count: usize,
) -> usize
    requires { (at + count * line_room (length word.now) width ≤ length out.old) × (count * width ≤ length x.now) }
    ensures { Put out.old at (lines word.now x.now width count)
        (count * line_room (length word.now) width) result out.new }
{
    let mut next = at;
    for i in 0..count {
        next = put_line(out, next, word, x, i * width, width);
    }
    next
}
