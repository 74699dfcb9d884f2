// The library from Rattle: the acts and the residual on small problems, a sample gathered into running sums and these read, a summary file
// written, read, and its fields, and a function whose own contract rests on the judge's. What is printed is held to the file stdout.
#![tactic(auto)]

ghost use Rattle.std.specs.Prelude.{◌≡◌, true, ◌≤◌, length};
ghost use Rattle.tables.specs.Matrix.{at};
ghost use Rattle.tables.specs.Members.{PositiveDefinite};

use residual::factor_test::FactorAnswer;
use samples::sample::Sample;
use std::io;
use stiffness::bracket::Stiffness;
use tables::problem::Problem;
use tables::{Refusal, answer_code};
use verdict::judge::Verdict;

// The first size bytes of a text, to standard output.
fn write(rt: &impl Print, text: &[u8], size: usize) -> io::Result<()>
    requires { size ≤ length text.now }
{
    rt.write_all(&text[..size])
}

// A word and the first numbers of x, count of them, as a line.
fn print(rt: &impl Print, word: &[u8], x: &[i64], count: usize) -> io::Result<()>
    requires { (length word.now ≤ 16) × (count ≤ 4) × (count ≤ length x.now) }
{
    let mut out = [0u8; 128];
    let size = text::put_line(&mut out, 0, word, x, 0, count);
    write(rt, &out, size)
}

fn print_number(rt: &impl Print, word: &[u8], v: i64) -> io::Result<()>
    requires { length word.now ≤ 16 }
{
    let row = [v; 1];
    print(rt, word, &row, 1)
}

fn print_two(rt: &impl Print, word: &[u8], x: &[i64; 2]) -> io::Result<()>
    requires { length word.now ≤ 16 }
{
    let row = [x[0], x[1]];
    print(rt, word, &row, 2)
}

fn print_four(rt: &impl Print, word: &[u8], x: &[i64; 4]) -> io::Result<()>
    requires { length word.now ≤ 16 }
{
    let row = [x[0], x[1], x[2], x[3]];
    print(rt, word, &row, 4)
}

// The number of a verdict, and where it is 'definite' what the rows of the residual have over.
fn print_verdict(rt: &impl Print, verdict: Result<Verdict, Refusal>) -> io::Result<()> {
    print_number(rt, b"judge", answer_code(verdict))?;
    if let Ok(Verdict::Definite(over)) = verdict {
        print_number(rt, b"over", over)?;
    }
    Ok(())
}

// The number of the factor test's answer, and where nothing is refused what the rows of the residual have over.
fn print_tested(rt: &impl Print, answer: Result<FactorAnswer, Refusal>) -> io::Result<()> {
    print_number(rt, b"test_factor", answer_code(answer))?;
    match answer {
        Ok(tested) => print_number(rt, b"over", tested.over()),
        Err(_) => Ok(()),
    }
}

// [2 1; 1 2]: definite, with its factor, which the factor test accepts with the same number over.
fn definite(rt: &impl Print) -> io::Result<()> {
    let table = [2i64, 1, 1, 2];
    let mut factor = [5i64; 4];
    let mut vector = [5i64; 2];
    let verdict = verdict::judge::judge(2, &table, &table, &mut factor, &mut vector);
    print_verdict(rt, verdict)?;
    print_four(rt, b"factor", &factor)?;
    print_two(rt, b"vector", &vector)?;
    let answer = residual::factor_test::test_factor(2, &table, &table, &factor);
    print_tested(rt, answer)
}

// [1 3; 3 10], on which the judge is undecided. The factor test accepts its exact factor, with 0 over; not one that is next to it, with
// -65536 over; and it refuses one with a 0 on the diagonal, by 6.
fn offered(rt: &impl Print) -> io::Result<()> {
    let table = [1i64, 3, 3, 10];
    let mut factor = [5i64; 4];
    let mut vector = [5i64; 2];
    let verdict = verdict::judge::judge(2, &table, &table, &mut factor, &mut vector);
    print_verdict(rt, verdict)?;
    let exact = [65536i64, 196608, 0, 65536];
    let answer = residual::factor_test::test_factor(2, &table, &table, &exact);
    print_tested(rt, answer)?;
    let near = [65536i64, 196607, 0, 65536];
    let answer = residual::factor_test::test_factor(2, &table, &table, &near);
    print_tested(rt, answer)?;
    let flat = [65536i64, 196608, 0, 0];
    let answer = residual::factor_test::test_factor(2, &table, &table, &flat);
    print_tested(rt, answer)
}

// The number of a refusal, or 0 where nothing is refused.
fn print_checked(rt: &impl Print, word: &[u8], checked: Result<(), Refusal>) -> io::Result<()>
    requires { length word.now ≤ 16 }
{
    print_number(rt, word, answer_code(checked))
}

// The residual of [2 1; 1 2] to [3 1; 1 3] and a factor; and of one that is refused by 6, with both tables kept.
fn residuals(rt: &impl Print) -> io::Result<()> {
    let low = [2i64, 1, 1, 2];
    let high = [3i64, 1, 1, 3];
    let factor = [89738i64, 47861, 0, 75910];
    let turned = [89738i64, 0, 47861, 75910];
    let mut from_low = [5i64; 4];
    let mut from_high = [5i64; 4];
    let refused = residual::residual::residual(
        2,
        &low,
        &high,
        &turned,
        &mut from_low,
        &mut from_high,
    );
    print_checked(rt, b"residual", refused)?;
    print_four(rt, b"low", &from_low)?;
    print_four(rt, b"high", &from_high)?;
    let written = residual::residual::residual(
        2,
        &low,
        &high,
        &factor,
        &mut from_low,
        &mut from_high,
    );
    print_checked(rt, b"residual", written)?;
    print_four(rt, b"low", &from_low)?;
    print_four(rt, b"high", &from_high)
}

// The same residual, with a lent table of another size: refused by 2, with both tables kept.
fn residual_unfit(rt: &impl Print) -> io::Result<()> {
    let low = [2i64, 1, 1, 2];
    let high = [3i64, 1, 1, 3];
    let factor = [89738i64, 47861, 0, 75910];
    let mut from_low = [5i64; 4];
    let mut short = [7i64; 2];
    let refused = residual::residual::residual(2, &low, &high, &factor, &mut from_low, &mut short);
    print_checked(rt, b"residual", refused)?;
    print_four(rt, b"low", &from_low)?;
    print_two(rt, b"high", &short)
}

// The same residual, of tables whose halves are rounded apart: mended they are the same tables.
fn residual_apart(rt: &impl Print) -> io::Result<()> {
    let low = [2i64, 0, 1, 2];
    let high = [3i64, 1, 2, 3];
    let factor = [89738i64, 47861, 0, 75910];
    let mut from_low = [5i64; 4];
    let mut from_high = [5i64; 4];
    let written = residual::residual::residual(
        2,
        &low,
        &high,
        &factor,
        &mut from_low,
        &mut from_high,
    );
    print_checked(rt, b"residual", written)?;
    print_four(rt, b"low", &from_low)?;
    print_four(rt, b"high", &from_high)
}

// The entries (1,1), (1,8), (8,7) and (8,8) of a table of order 8.
fn print_corners(rt: &impl Print, word: &[u8], x: &[i64; 64]) -> io::Result<()>
    requires { length word.now ≤ 16 }
{
    let row = [x[0], x[7], x[62], x[63]];
    print(rt, word, &row, 4)
}

// A factor of order 8: 2^26 on the diagonal, -2^26 above it in the last column, and 0 elsewhere.
fn widest_factor() -> [i64; 64] {
    let greatest: i64 = 67108864;
    let least: i64 = -67108864;
    let mut x = [0i64; 64];
    x[0] = greatest;
    x[9] = greatest;
    x[18] = greatest;
    x[27] = greatest;
    x[36] = greatest;
    x[45] = greatest;
    x[54] = greatest;
    x[63] = greatest;
    x[7] = least;
    x[15] = least;
    x[23] = least;
    x[31] = least;
    x[39] = least;
    x[47] = least;
    x[55] = least;
    x
}

// The residual of the widest bounds of order 8 and this factor; and the same with n = 9, refused by 1, with both tables kept.
fn residual_widest(rt: &impl Print) -> io::Result<()> {
    let low = [-1048576i64; 64];
    let high = [1048576i64; 64];
    let factor = widest_factor();
    let mut from_low = [5i64; 64];
    let mut from_high = [7i64; 64];
    let refused = residual::residual::residual(
        9,
        &low,
        &high,
        &factor,
        &mut from_low,
        &mut from_high,
    );
    print_checked(rt, b"residual", refused)?;
    print_corners(rt, b"low", &from_low)?;
    print_corners(rt, b"high", &from_high)?;
    let written = residual::residual::residual(
        8,
        &low,
        &high,
        &factor,
        &mut from_low,
        &mut from_high,
    );
    print_checked(rt, b"residual", written)?;
    print_corners(rt, b"low", &from_low)?;
    print_corners(rt, b"high", &from_high)
}

// [1 2; 2 1]: not definite, with a vector, to which the vector test says yes.
fn not_definite(rt: &impl Print) -> io::Result<()> {
    let table = [1i64, 2, 2, 1];
    let mut factor = [5i64; 4];
    let mut vector = [5i64; 2];
    let verdict = verdict::judge::judge(2, &table, &table, &mut factor, &mut vector);
    print_verdict(rt, verdict)?;
    print_four(rt, b"factor", &factor)?;
    print_two(rt, b"vector", &vector)?;
    let answer = vectors::vector_test::test_vector(2, &table, &table, &vector);
    print_number(rt, b"test_vector", answer_code(answer))
}

// A table that is too short: refused by 2, with both buffers kept.
fn refused(rt: &impl Print) -> io::Result<()> {
    let short = [2i64, 1];
    let mut factor = [5i64; 4];
    let mut vector = [5i64; 2];
    let verdict = verdict::judge::judge(2, &short, &short, &mut factor, &mut vector);
    print_verdict(rt, verdict)?;
    print_four(rt, b"factor", &factor)?;
    print_two(rt, b"vector", &vector)
}

// The number of the bracket's answer, with the step and the bound that it gives.
fn print_stiffness(rt: &impl Print, stiffness: Result<Stiffness, Refusal>) -> io::Result<()> {
    print_number(rt, b"bracket", answer_code(stiffness))?;
    match stiffness {
        Ok(Stiffness::Between(step, bound)) => {
            let both = [step, bound];
            print_two(rt, b"between", &both)
        }
        Ok(Stiffness::AtMost(bound)) => print_number(rt, b"at most", bound),
        Err(_) => Ok(()),
    }
}

// How stiff: of [5 2; 2 5] more than 2 and at most 3; of [1 2; 2 1] at most -1, with nothing given from below. Of [1 2; 3 1] the halves
// leave no number: 5, and the vector is kept.
fn bracketed(rt: &impl Print) -> io::Result<()> {
    let stiff = [5i64, 2, 2, 5];
    let mut vector = [5i64; 2];
    let stiffness = stiffness::bracket::bracket(2, &stiff, &stiff, &mut vector);
    print_stiffness(rt, stiffness)?;
    print_two(rt, b"vector", &vector)?;
    let soft = [1i64, 2, 2, 1];
    let stiffness = stiffness::bracket::bracket(2, &soft, &soft, &mut vector);
    print_stiffness(rt, stiffness)?;
    print_two(rt, b"vector", &vector)?;
    let apart = [1i64, 2, 3, 1];
    let mut kept = [5i64; 2];
    let stiffness = stiffness::bracket::bracket(2, &apart, &apart, &mut kept);
    print_stiffness(rt, stiffness)?;
    print_two(rt, b"vector", &kept)
}

// 4x² + 2ax ≤ 0 for some a from -8 to -6, around 2.
fn boxed(rt: &impl Print) -> io::Result<()> {
    let matrix = [4i64; 1];
    let from = [-8i64; 1];
    let to = [-6i64; 1];
    let centre = [2i64; 1];
    let mut sides = [5i64; 2];
    let answer = enclosure::enclose::enclose(
        1, &matrix, &matrix, &from, &to, 0, &centre, &mut sides,
    );
    print_number(rt, b"enclose", answer_code(answer))?;
    print_two(rt, b"sides", &sides)
}

// A sample gathered into sums of zeros, and these read with an allowance of 2000; and a sample with a draw beyond 8, which is refused by 17
// with every sum kept.
fn gathered(rt: &impl Print) -> io::Result<()> {
    let mut low = [0i64; 16];
    let mut high = [0i64; 16];
    let mut from = [0i64; 4];
    let mut to = [0i64; 4];
    let mut limit = [0i64; 1];
    let sample = Sample {
        rolling: 1.0,
        climb: 0.03125,
        air: -0.03125,
        start: 0.0,
        draw: 2.0,
    };
    let taken = rides::gather::gather(
        sample, 4, &mut low, &mut high, &mut from, &mut to, &mut limit,
    );
    print_number(rt, b"gather", answer_code(taken))?;
    let beyond = Sample {
        rolling: 1.0,
        climb: 0.03125,
        air: -0.03125,
        start: 0.0,
        draw: 8.5,
    };
    let refused = rides::gather::gather(
        beyond, 4, &mut low, &mut high, &mut from, &mut to, &mut limit,
    );
    print_number(rt, b"gather", answer_code(refused))?;
    print_four(rt, b"from", &from)?;
    print_four(rt, b"to", &to)?;
    print_number(rt, b"running", limit[0])?;
    let reading = rides::reading::read_sums(4, &low, &high, &from, &to, limit[0], 2000);
    match reading {
        Ok(alpha) => print_number(rt, b"read_sums", alpha),
        Err(refusal) => print_number(rt, b"refused", refusal.number() as i64),
    }
}

// Two problems, [4] with linear term -8 and limit 1 each, pooled into sums of zeros; then one of another order, which is refused by 2 with
// every sum kept; and the pool read with no allowance.
fn pooled(rt: &impl Print) -> io::Result<()> {
    let mut low = [0i64; 1];
    let mut high = [0i64; 1];
    let mut from = [0i64; 1];
    let mut to = [0i64; 1];
    let mut limit = [0i64; 1];
    let orders = [1i64, 1];
    let matrices = [4i64, 4];
    let linear = [-8i64, -8];
    let limits = [1i64, 1];
    let taken = pool::pool::pool(
        1, &mut low, &mut high, &mut from, &mut to, &mut limit, &orders, &matrices, &matrices,
        &linear, &linear, &limits,
    );
    print_number(rt, b"pool", answer_code(taken))?;
    let others = [1i64, 2];
    let refused = pool::pool::pool(
        1, &mut low, &mut high, &mut from, &mut to, &mut limit, &others, &matrices, &matrices,
        &linear, &linear, &limits,
    );
    print_number(rt, b"pool", answer_code(refused))?;
    print_number(rt, b"from", from[0])?;
    let reading = rides::reading::read_sums(1, &low, &high, &from, &to, limit[0], 0);
    match reading {
        Ok(alpha) => print_number(rt, b"read_sums", alpha),
        Err(refusal) => print_number(rt, b"refused", refusal.number() as i64),
    }
}

fn print_byte(rt: &impl Print, word: &[u8], x: u8) -> io::Result<()>
    requires { length word.now ≤ 16 }
{
    print_number(rt, word, x as i64)
}

// [1] on the display bus, begun at zeros: its order, a start, a start while busy, which is refused by 20, and the tick that settles it.
fn on_the_bus(rt: &impl Print) -> io::Result<()> {
    let mut block = [0u8; bus::registers::BLOCK_BYTES];
    let mut run = [0u8; bus::area::RUN_BYTES];
    let one = [1u8, 0, 0, 0, 0, 0, 0, 0];
    let order = bus::acts::write(&mut block, &mut run, 6, 1, &one, &one);
    print_checked(rt, b"bus_write", order)?;
    let start = bus::acts::write(&mut block, &mut run, 0, 1, &one, &one);
    print_checked(rt, b"bus_write", start)?;
    let again = bus::acts::write(&mut block, &mut run, 0, 1, &one, &one);
    print_checked(rt, b"bus_write", again)?;
    let tick = bus::acts::tick(&mut block, &mut run);
    print_checked(rt, b"bus_tick", tick)?;
    let mut verdict = [0u8; 1];
    let read = bus::acts::read(&block, 3, &mut verdict);
    print_checked(rt, b"bus_read", read)?;
    print_byte(rt, b"verdict", verdict[0])?;
    print_number(rt, b"bus_line", answer_code(bus::acts::line(&block)))
}

// Whether the judge calls two bounds of order 2 definite. Where it does, every symmetric matrix between them is positive definite: the
// contract says so, and is proved from the judge's in a line.
fn surely_definite(low: [i64; 4], high: [i64; 4]) -> bool
    ensures { result ≡ true → PositiveDefinite 2 (at 2 low) (at 2 high) }
{
    let mut factor = [0i64; 4];
    let mut vector = [0i64; 2];
    let verdict = verdict::judge::judge(2, &low, &high, &mut factor, &mut vector);
    match verdict {
        Ok(given) => match given {
            Verdict::Definite(_) => true,
            _ => false,
        },
        Err(_) => false,
    }
}

// It is so of [2 1; 1 2] and of [2 1; 1 2] to [3 1; 1 3], and is not shown of [1 2; 2 1].
fn promised(rt: &impl Print) -> io::Result<()> {
    let low = [2i64, 1, 1, 2];
    let high = [3i64, 1, 1, 3];
    let saddle = [1i64, 2, 2, 1];
    print_number(rt, b"promised", surely_definite(low, low) as i64)?;
    print_number(rt, b"promised", surely_definite(low, high) as i64)?;
    print_number(rt, b"promised", surely_definite(saddle, saddle) as i64)
}

// The summary file of 4x² - 16x ≤ 0 around 2, and its problem; and the same file cut short, which is refused.
fn read_summary(rt: &impl Print) -> io::Result<()> {
    let file = *b"\x01\x01\x00\x01\
        \x02\x04\x00\x04\x00\x00\x00\
        \x03\x04\x00\x04\x00\x00\x00\
        \x04\x08\x00\xf8\xff\xff\xff\xff\xff\xff\xff\
        \x05\x08\x00\x00\x00\x00\x00\x00\x00\x00\x00\
        \x06\x08\x00\x02\x00\x00\x00\x00\x00\x00\x00\
        \x07\x08\x00\xf8\xff\xff\xff\xff\xff\xff\xff";
    print_reading(rt, summary::problem::read(&file))?;
    print_reading(rt, summary::problem::read(&file[..61]))
}

// The summary file of 4x² - 16x ≤ 0 around 2, written from its numbers. The same around 2^12 + 1 is refused by 3, with the file kept.
// Then it is read.
fn write_summary(rt: &impl Print) -> io::Result<()> {
    let matrix = [4i64; 1];
    let linear = [-8i64; 1];
    let centre = [2i64; 1];
    let far = [4097i64; 1];
    let mut file = [5u8; 62];
    let written = writer::write::write(
        1, &matrix, &matrix, &linear, &linear, 0, &centre, &mut file,
    );
    print_checked(rt, b"write", written)?;
    let refused = writer::write::write(1, &matrix, &matrix, &linear, &linear, 0, &far, &mut file);
    print_checked(rt, b"write", refused)?;
    print_reading(rt, summary::problem::read(&file))
}

// The limit and the ends of the first linear term of a problem that was read, or the number by which its file is refused.
fn print_reading(rt: &impl Print, reading: Result<Problem, Refusal>) -> io::Result<()> {
    match reading {
        Ok(problem) => {
            let constraint = problem.constraint;
            let linear = constraint.linear;
            let from = linear.low;
            let to = linear.high;
            print_number(rt, b"limit", constraint.limit)?;
            print_number(rt, b"from", from[0])?;
            print_number(rt, b"to", to[0])
        }
        Err(refusal) => print_number(rt, b"refused", refusal.number() as i64),
    }
}

// The fields of a file of two: tag 01 with the byte 7, and tag 05 with three bytes.
fn read_fields(rt: &impl Print) -> io::Result<()> {
    let file = [1u8, 1, 0, 7, 5, 3, 0, 9, 8, 7];
    let first = fields::reader::content_from(&file, 0);
    print_number(rt, b"field", first.len() as i64)?;
    let second = fields::reader::content_from(&file, 4);
    print_number(rt, b"field", second.len() as i64)?;
    let end = fields::reader::content_from(&file, 10);
    print_number(rt, b"field", end.len() as i64)
}

fn main(rt: HostRuntime) -> io::Result<()> {
    definite(&rt)?;
    offered(&rt)?;
    residuals(&rt)?;
    residual_unfit(&rt)?;
    residual_apart(&rt)?;
    residual_widest(&rt)?;
    not_definite(&rt)?;
    refused(&rt)?;
    bracketed(&rt)?;
    boxed(&rt)?;
    gathered(&rt)?;
    pooled(&rt)?;
    on_the_bus(&rt)?;
    promised(&rt)?;
    read_summary(&rt)?;
    write_summary(&rt)?;
    read_fields(&rt)
}
