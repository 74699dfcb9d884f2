// What the buffers of a call are made of: numbers, or the bytes that spell them (R15 of docs/RULES.md).
ghost use mathlib.Core.Path.{refl};
ghost use Rattle.std.specs.Prelude.{◌≡◌, ◌++◌, ◌*◌, ◌^◌, ◌≤◌, List, ℕ, ℤ, length, take, drop};
ghost use mir.Syntax.{w64};
ghost use mir.Val.{bytes};
ghost use Rattle.tables.specs.Elements.{BuffersWhole, bytes_whole};
ghost use Rattle.words.specs.Numbers.{numbers_of, bytes_of};

use words::SIZE;

// An element of a buffer of numbers.
pub trait Element {
    // how many elements so many numbers take
    ghost taken: { ℕ → ℕ };

    // the numbers of a buffer, of which so many are asked for
    ghost numbers: { List Self → ℕ → List ℤ };

    // the elements of a list of numbers, so many of them
    ghost elements: { List ℤ → ℕ → List Self };

    ghost laws: { BuffersWhole taken numbers elements };

    // How many elements so many numbers take.
    fn taken(count: usize) -> usize
        requires { count ≤ 2 ^ 16 }
        ensures { result ≡ taken count };

    // The first numbers of a buffer, count of them, to the front of out.
    fn load(from: &[Self], count: usize, out: &mut [i64])
        requires { (taken count ≤ length from.now) × (count ≤ length out.old) }
        ensures { out.new ≡ take count (numbers from.now count) ++ drop count out.old };

    // The first numbers of x, count of them, to the front of a buffer.
    fn store(x: &[i64], count: usize, to: &mut [Self])
        requires { (count ≤ length x.now) × (taken count ≤ length to.old) }
        ensures { to.new ≡ elements (take count x.now) count ++ drop (taken count) to.old };
}

impl Element for i64 {
    ghost taken = { λ k. k };

    ghost numbers = { λ x k. x };

    ghost elements = { λ x k. x };

    ghost laws = { record { numbers_whole = λ b k e. e; elements_whole = λ x k e. e; read_back = λ x k e f. refl } };

    fn taken(count: usize) -> usize {
        count
    }

    fn load(from: &[i64], count: usize, out: &mut [i64]) {
        out[..count].copy_from_slice(&from[..count]);
    }

    fn store(x: &[i64], count: usize, to: &mut [i64]) {
        to[..count].copy_from_slice(&x[..count]);
    }
}

impl Element for u8 {
    ghost taken = { λ k. k * bytes w64 };

    ghost numbers = { numbers_of w64 };

    ghost elements = { bytes_of w64 };

    ghost laws = { bytes_whole };

    fn taken(count: usize) -> usize {
        count * SIZE
    }

    fn load(from: &[u8], count: usize, out: &mut [i64]) {
        words::load_numbers(from, out, count, SIZE);
    }

    fn store(x: &[i64], count: usize, to: &mut [u8]) {
        words::store_numbers(x, to, count, SIZE);
    }
}
