// R24.1 of docs/RULES.md: the file of a problem into a buffer, field by field in the order of the tags.
ghost use Rattle.std.specs.Prelude.{◌≡◌, [], ◌∷◌, ◌+◌, ◌*◌, ◌^◌, ◌≤◌, ◌<◌, length};
ghost use mir.Val.{bytes};
ghost use Rattle.words.specs.Numbers.{width_of, to_le_bytes, bytes_of};
ghost use Rattle.fields.specs.declared.field.Kind.TheVariants as Kind;
ghost use Rattle.fields.specs.Fields.{tag_of, head};
ghost use Rattle.fields.specs.Entries.{entry_bytes, bytes_of_entries};
ghost use Rattle.summary.specs.Problems.{file_size, file_of, ProblemRooms};
ghost use Rattle.text.specs.Putting.{Put};
ghost use Rattle.writer.specs.Required.{bounds_entries, bounds_size, terms_entries, terms_size};

use fields::field::{HEAD, Kind};
use tables::problem::Problem;
use words::{SHORT_SIZE, SIZE};

// Puts the head of a field at a place of the file: the kind's tag, and the size of its content, low byte first. Returns the place behind
// it.
fn put_head(file: &mut [u8], at: usize, kind: Kind, size: usize) -> usize
    requires { (at + head ≤ length file.old) × (size < 256 ^ 2) }
    ensures { Put file.old at (tag_of kind ∷ to_le_bytes 2 size) head result file.new }
{
    file[at] = kind.tag();
    file[at + 1] = (size % 256) as u8;
    file[at + 2] = (size / 256) as u8;
    at + HEAD
}

// Puts the field of the order.
fn put_order(file: &mut [u8], at: usize, n: usize) -> usize
    requires { (at + (head + 1) ≤ length file.old) × (n < 256) }
    ensures { Put file.old at (entry_bytes (record { kind = Kind.Order; bytes = n ∷ [] })) (head + 1) result file.new }
{
    let start = put_head(file, at, Kind::Order, 1);
    file[start] = n as u8;
    start + 1
}

// Puts the field of a kind with the first numbers of x, count of them, of `size` bytes each.
fn put_numbers(
    file: &mut [u8],
    at: usize,
    kind: Kind,
    x: &[i64],
    count: usize,
    size: usize,
) -> usize
    requires { (size ≡ bytes (width_of size)) × (count ≤ length x.now) × (at + (head + count * size) ≤ length file.old)
        × (count * size < 256 ^ 2) }
    ensures { Put file.old at (entry_bytes (record {
      kind = kind;
      bytes = bytes_of (width_of size) x.now
          count;
    })) (head + count * size) result file.new }
{
    let start = put_head(file, at, kind, count * size);
    words::store_numbers(x, &mut file[start..], count, size);
    start + count * size
}

// Puts the fields of the order and of both tables.
fn put_bounds(file: &mut [u8], problem: &Problem) -> usize
    requires { ProblemRooms problem.now × (bounds_size problem.now.constraint.order ≤ length file.old) }
    ensures { Put file.old 0 (bytes_of_entries (bounds_entries problem.now)) (bounds_size problem.now.constraint.order) result file.new }
{
    let constraint = &problem.constraint;
    let n = constraint.order;
    let at = put_order(file, 0, n);
    let next = put_numbers(file, at, Kind::Low, &constraint.low, n * n, SHORT_SIZE);
    put_numbers(file, next, Kind::High, &constraint.high, n * n, SHORT_SIZE)
}

// Puts those of the linear terms, of the limit and of the centre behind them.
fn put_terms(file: &mut [u8], at: usize, problem: &Problem) -> usize
    requires { ProblemRooms problem.now × (at + terms_size problem.now.constraint.order ≤ length file.old) }
    ensures { Put file.old at (bytes_of_entries (terms_entries problem.now)) (terms_size problem.now.constraint.order) result file.new }
{
    let constraint = &problem.constraint;
    let n = constraint.order;
    let linear = &constraint.linear;
    let one = [constraint.limit];
    let at_limit = put_numbers(file, at, Kind::LinearLow, &linear.low, n, SIZE);
    let at_centre = put_numbers(file, at_limit, Kind::Limit, &one, 1, SIZE);
    let at_high = put_numbers(file, at_centre, Kind::Centre, &problem.centre, n, SIZE);
    put_numbers(file, at_high, Kind::LinearHigh, &linear.high, n, SIZE)
}

// The file of a problem into a buffer of its size.
pub fn write_file(problem: &Problem, file: &mut [u8])
    requires { ProblemRooms problem.now × (length file.old ≡ file_size problem.now.constraint.order) }
    ensures { file.new ≡ file_of problem.now }
{
    let at = put_bounds(file, problem);
    put_terms(file, at, problem);
}
