// R17 of docs/RULES.md: the problem that a file spells, mended (R2.10).
ghost use Rattle.std.specs.Prelude.{◌≡◌, ◌*◌, ◌≤◌, Ok, Err};
ghost use Rattle.std.specs.Int.{w32, w64};
ghost use mir.Val.{bytes};
ghost use Rattle.words.specs.Numbers.{signed_at, padded_numbers_of};
ghost use Rattle.tables.specs.Ranges.{greatest_order, table_room};
ghost use Rattle.tables.specs.Checks.{first_refusal};
ghost use Rattle.tables.specs.Answers.{after};
ghost use Rattle.tables.specs.Entering.{Mended};
ghost use Rattle.tables.specs.Problem.{problem_of, problem_checks};
ghost use Rattle.fields.specs.Layouts.{length_of, content, Inside};
ghost use Rattle.summary.specs.Problems.{all_present, order_in, lengths_for, lengths_ok, FieldsFit, field_checks, problem_in};
ghost use Rattle.summary.specs.Problems.{ProblemRooms, reading_of, with_tables, read_in, reading, ReadingMeaning};

use fields::field::{KINDS, Kind};
use fields::layout::{Layout, content, length_of, walk};
use tables::entering::check_laid;
use tables::problem::{Constraint, Linear, Problem};
use tables::{GREATEST_ORDER, Refusal, TABLE_ROOM, Table, Vector};

// A file has at most 4096 bytes (R17.1 of docs/RULES.md).
pub const LONGEST: usize = 4096;

// 13: whether all fields are there.
fn all_present(layout: Layout) -> bool
    ensures { result ≡ all_present layout }
{
    layout.parts.iter().all(|part| part.is_some())
}

// The length that n calls for, kind by kind.
fn lengths_for(n: usize) -> [usize; KINDS]
    requires { n ≤ greatest_order }
    ensures { result ≡ lengths_for n }
{
    let table = n * n * words::SHORT_SIZE;
    let vector = n * words::SIZE;
    [1, table, table, vector, words::SIZE, vector, vector]
}

// 14: whether each field has the length that n calls for.
fn lengths_ok(layout: Layout, n: usize) -> bool
    requires { n ≤ greatest_order }
    ensures { result ≡ lengths_ok layout n }
{
    layout.lengths() == lengths_for(n)
}

// n, the first byte in the content of tag 01, and 0 where that is empty.
#[tactic(auto, unfolding(crate::specs::Problems::order_in))]
fn order_in(file: &[u8], layout: Layout) -> u8
    requires { Inside file.now layout }
    ensures { result ≡ order_in file.now layout }
{
    content(file, layout, Kind::Order)
        .first()
        .copied()
        .unwrap_or(0)
}

// The checks of R5.11 from 13 to the second 14.
#[tactic(auto, unfolding(crate::specs::Problems::field_checks, tables::specs::Checks::first_refusal))]
fn check_fields(file: &[u8], layout: Layout) -> Result<(), Refusal>
    requires { Inside file.now layout }
    ensures { result ≡ first_refusal (field_checks file.now layout) }
{
    if !all_present(layout) {
        return Err(Refusal::Absent);
    }
    let sized = length_of(layout, Kind::Order) == 1;
    let n = order_in(file, layout);
    let ordered = tables::order_ok(n as i64);
    if !sized {
        return Err(Refusal::Size);
    }
    if !ordered {
        return Err(Refusal::Order);
    }
    if lengths_ok(layout, n as usize) {
        return Ok(());
    }
    Err(Refusal::Size)
}

// The short numbers in the content of a kind, count of them.
fn table_in(file: &[u8], layout: Layout, kind: Kind, count: usize) -> Table
    requires { Inside file.now layout × (count * bytes w32 ≤ length_of layout kind) × (count ≤ table_room) }
    ensures { result ≡ padded_numbers_of w32 table_room (content file.now layout kind) count }
{
    let mut t = [0i64; TABLE_ROOM];
    words::load_numbers(
        content(file, layout, kind),
        &mut t,
        count,
        words::SHORT_SIZE,
    );
    t
}

// The numbers in the content of a kind, count of them.
fn vector_in(file: &[u8], layout: Layout, kind: Kind, count: usize) -> Vector
    requires { Inside file.now layout × (count * bytes w64 ≤ length_of layout kind) × (count ≤ greatest_order) }
    ensures { result ≡ padded_numbers_of w64 greatest_order (content file.now layout kind) count }
{
    let mut x = [0i64; GREATEST_ORDER];
    words::load_numbers(content(file, layout, kind), &mut x, count, words::SIZE);
    x
}

// The number in the content of a kind.
fn number_in(file: &[u8], layout: Layout, kind: Kind) -> i64
    requires { Inside file.now layout × (bytes w64 ≤ length_of layout kind) }
    ensures { result ≡ signed_at w64 (content file.now layout kind) 0 }
{
    words::load_signed(content(file, layout, kind), 0, words::SIZE)
}

// The problem in fields of the lengths that n calls for, with its tables as they stand there.
#[tactic(auto, unfolding(crate::specs::Problems::problem_in))]
fn problem_in(file: &[u8], layout: Layout) -> Problem
    requires { FieldsFit file.now layout }
    ensures { result ≡ problem_in file.now layout }
{
    let n = order_in(file, layout) as usize;
    let linear = Linear {
        low: vector_in(file, layout, Kind::LinearLow, n),
        high: vector_in(file, layout, Kind::LinearHigh, n),
    };
    let constraint = Constraint {
        order: n,
        low: table_in(file, layout, Kind::Low, n * n),
        high: table_in(file, layout, Kind::High, n * n),
        linear,
        limit: number_in(file, layout, Kind::Limit),
    };
    Problem {
        constraint,
        centre: vector_in(file, layout, Kind::Centre, n),
    }
}

// 3, 4, 5 and 16 of a problem of order n with bounds low and high, and where nothing is refused these bounds mended in their place.
pub fn mend_tables(
    n: usize,
    low: &mut Table,
    high: &mut Table,
    from: &Vector,
    to: &Vector,
    limit: i64,
    centre: &Vector,
) -> Result<(), Refusal>
    requires { ProblemRooms (problem_of n low.old high.old from.now to.now limit centre.now) }
    ensures { Mended (problem_checks (problem_of n low.old high.old from.now to.now limit
        centre.now)) n low.old high.old result low.new high.new }
{
    let within = tables::sized_within(n, true, from, to, limit, centre);
    check_laid(n, within, low, high)?;
    tables::check_ends(n, from, to)
}

// The same of a problem as one thing. What a refusal leaves in the tables is not said. All other numbers are kept in any case, and the
// arrays have their sizes.
#[tactic(auto, unfolding(crate::specs::Problems::reading_of, tables::specs::Answers::after))]
pub fn mend_problem(problem: &mut Problem) -> Result<(), Refusal>
    requires { ProblemRooms problem.old }
    ensures exact { after Err result (Ok problem.new) ≡ reading_of problem.old }
    ensures kept { problem.new ≡ with_tables problem.old problem.new.constraint.low problem.new.constraint.high }
    ensures rooms { ProblemRooms problem.new }
{
    let constraint = &mut problem.constraint;
    let linear = &constraint.linear;
    mend_tables(
        constraint.order,
        &mut constraint.low,
        &mut constraint.high,
        &linear.low,
        &linear.high,
        constraint.limit,
        &problem.centre,
    )
}

// The problem in the fields that the walk found, or the first refusal.
#[tactic(auto, unfolding(crate::specs::Problems::read_in, tables::specs::Answers::after))]
fn read_in(file: &[u8], layout: Layout) -> Result<Problem, Refusal>
    requires { Inside file.now layout }
    ensures { result ≡ read_in file.now layout }
{
    check_fields(file, layout)?;
    let mut problem = problem_in(file, layout);
    mend_problem(&mut problem)?;
    Ok(problem)
}

// The problem of a summary file, of any bytes at all: 15; then field by field 10, 11, 12, 19; then 13; 14 for tag 01; 1; 14 for the other
// tags; 3, 4, 5, 16. What passes is handed out mended.
#[tactic(auto, unfolding(crate::specs::Problems::reading, crate::specs::Problems::read_walked))]
pub fn read(file: &[u8]) -> Result<Problem, Refusal>
    ensures exact { result ≡ reading file.now }
    ensures meaning { ReadingMeaning file.now result }
{
    if LONGEST < file.len() {
        return Err(Refusal::Long);
    }
    let layout = walk(file)?;
    read_in(file, layout)
}
