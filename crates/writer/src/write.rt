// The writer's act, R24 of docs/RULES.md.
ghost use Rattle.std.specs.Prelude.{◌≡◌, ◌*◌, ◌≤◌, length};
ghost use Rattle.tables.specs.Ranges.{greatest_order};
ghost use Rattle.tables.specs.Checks.{order_of};
ghost use Rattle.tables.specs.Problem.{problem_of};
ghost use Rattle.summary.specs.Problems.{file_size, padded, ProblemRooms};
ghost use Rattle.writer.specs.Required.{Lengthy};
ghost use Rattle.writer.specs.Writing.{Written, checked_writing, write_sizes, write_act, Meaning};

use crate::storing::write_file;
use fields::field::{HEAD, KINDS};
use summary::problem::mend_problem;
use tables::elements::Element;
use tables::entering::order;
use tables::problem::{Constraint, Lengths, Linear, Problem, Sizes, constraint_sized, lengths_of};
use tables::{GREATEST_ORDER, Refusal, TABLE_ROOM};
use words::{SHORT_SIZE, SIZE};

// The size of the file of a problem of order n: the fields' heads, one byte of order, two tables, three vectors and the limit.
pub fn file_size(n: usize) -> usize
    requires { n ≤ greatest_order }
    ensures { result ≡ file_size n }
{
    KINDS * HEAD + 1 + 2 * (n * n * SHORT_SIZE) + 3 * (n * SIZE) + SIZE
}

// Whether the buffers of a call have their sizes: those of the constraint, the centre of a vector, and the file that of a file of order n.
#[tactic(auto, unfolding(crate::specs::Writing::write_sizes))]
pub fn write_sized(n: usize, sizes: Sizes, lengths: Lengths, centre: usize, file: usize) -> bool
    requires { n ≤ greatest_order }
    ensures { result ≡ write_sizes n sizes lengths centre file }
{
    let vector = sizes.vector;
    let size = file_size(n);
    constraint_sized(sizes, lengths) && (centre == vector && file == size)
}

// The problem of order n that five buffers and the limit hold, with zeros behind its numbers.
pub fn problem_of<E: Element>(
    n: usize,
    low: &[E],
    high: &[E],
    from: &[E],
    to: &[E],
    limit: i64,
    centre: &[E],
) -> Problem
    requires { Lengthy E.taken n low.now high.now from.now to.now centre.now }
    ensures { result ≡ padded (problem_of n (E.numbers low.now (n * n)) (E.numbers high.now (n * n)) (E.numbers from.now n)
        (E.numbers to.now n) limit (E.numbers centre.now n)) }
{
    let linear = Linear {
        low: [0; GREATEST_ORDER],
        high: [0; GREATEST_ORDER],
    };
    let constraint = Constraint {
        order: n,
        low: [0; TABLE_ROOM],
        high: [0; TABLE_ROOM],
        linear,
        limit,
    };
    let mut problem = Problem {
        constraint,
        centre: [0; GREATEST_ORDER],
    };
    E::load(low, n * n, &mut problem.constraint.low);
    E::load(high, n * n, &mut problem.constraint.high);
    E::load(from, n, &mut problem.constraint.linear.low);
    E::load(to, n, &mut problem.constraint.linear.high);
    E::load(centre, n, &mut problem.centre);
    problem
}

// Checks 3, 4, 5 and 16 of a problem, which is mended in its place, and its file into a buffer of its size, which a refusal keeps.
#[tactic(auto, unfolding(crate::specs::Writing::checked_writing, summary::specs::Problems::reading_of, tables::specs::Answers::after))]
fn write_mended(problem: &mut Problem, file: &mut [u8]) -> Result<(), Refusal>
    requires { ProblemRooms problem.old × (length file.old ≡ file_size problem.old.constraint.order) }
    ensures { ◌≡◌ {A = Written} (record { answer = result; file = file.new }) (checked_writing problem.old file.old) }
{
    mend_problem(problem)?;
    write_file(problem, file);
    Ok(())
}

// The same of a problem that its caller keeps as it is.
pub fn write_checked(mut problem: Problem, file: &mut [u8]) -> Result<(), Refusal>
    requires { ProblemRooms problem × (length file.old ≡ file_size problem.constraint.order) }
    ensures { ◌≡◌ {A = Written} (record { answer = result; file = file.new }) (checked_writing problem file.old) }
{
    write_mended(&mut problem, file)
}

// The summary file of a problem of any numbers at all, in buffers of numbers or of bytes: n is an order or not, and each buffer has any
// length. The linear terms lie between those of from and to. Refused by the first of the checks 1 to 5 and 16 that fails, with the file's
// buffer kept; else the file of the mended problem is written.
pub fn write<E: Element>(
    n: i64,
    low: &[E],
    high: &[E],
    from: &[E],
    to: &[E],
    limit: i64,
    centre: &[E],
    file: &mut [u8],
) -> Result<(), Refusal>
    ensures exact { ◌≡◌ {A = Written} (record { answer = result; file = file.new })
        (write_act E.taken E.numbers n low.now high.now from.now to.now limit centre.now file.old) }
    ensures meaning { let k = order_of n in
        Meaning result (problem_of k (E.numbers low.now (k * k)) (E.numbers high.now (k * k)) (E.numbers from.now k) (E.numbers to.now k)
        limit (E.numbers centre.now k)) file.new }
{
    let m = order(n)?;
    let sizes = Sizes {
        table: E::taken(m * m),
        vector: E::taken(m),
    };
    let lengths = lengths_of(low.len(), high.len(), from.len(), to.len());
    if !write_sized(m, sizes, lengths, centre.len(), file.len()) {
        return Err(Refusal::Length);
    }
    let mut problem = problem_of(m, low, high, from, to, limit, centre);
    write_mended(&mut problem, file)
}
