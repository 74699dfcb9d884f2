// The lines of a verdict and of a box, R19.3 and R19.4 of docs/RULES.md.
ghost use Rattle.std.specs.Prelude.{◌≡◌, ◌+◌, ◌*◌, ◌≤◌, length};
ghost use Rattle.tables.specs.Ranges.{greatest_order};
ghost use Rattle.tables.specs.Matrix.{nth, tabulate};
ghost use Rattle.verdict.specs.Judge.{definite, not_definite};
ghost use Rattle.enclosure.specs.Stating.{stated as stated_box};
ghost use Rattle.text.specs.Putting.{Put};
ghost use Rattle.report.specs.Answers.{judgement_of};
ghost use Rattle.report.specs.Lines.{numbered, number_room, verdict_room, verdict_text, box_room, box_text};

use tables::{GREATEST_ORDER, Refusal, Sides, Table, Vector};
use text::{SPACED, put_line, put_lines, put_text};
use verdict::judge::Decision;

// The bytes of a row line of the greatest order.
const ROW_ROOM: usize = 3 + GREATEST_ORDER * SPACED + 1;

// The bytes of the line of what the rows have over.
const OVER_ROOM: usize = 4 + SPACED + 1;

// The bytes of a verdict's lines: 'definite', a row line for each row of the greatest order, and the line behind them.
pub const VERDICT_ROOM: usize = 9 + GREATEST_ORDER * ROW_ROOM + OVER_ROOM;

// The bytes of a side line.
const SIDE_ROOM: usize = 4 + 2 * SPACED + 1;

// The bytes of a box's lines: a side line for each number of the greatest order.
pub const BOX_ROOM: usize = GREATEST_ORDER * SIDE_ROOM;

// A word and the number of a refusal.
pub fn put_refused(out: &mut [u8], at: usize, word: &[u8], r: Refusal) -> usize
    requires { at + (length word.now + number_room) ≤ length out.old }
    ensures { Put out.old at (numbered word.now r)
        (length word.now + number_room) result out.new }
{
    let number = [i64::from(r.number())];
    put_line(out, at, word, &number, 0, 1)
}

// 'definite', the rows of the factor in f, and what the rows of its residual have over.
fn put_factor(out: &mut [u8], at: usize, n: usize, f: &Table, over: i64) -> usize
    requires { (n ≤ greatest_order) × (at + verdict_room ≤ length out.old) }
    ensures { Put out.old at (verdict_text n (definite (tabulate (n * n) (nth f.now)) over))
        verdict_room result out.new }
{
    let rows = put_text(out, at, b"definite\n");
    let next = put_lines(out, rows, b"row", f, n, n);
    let number = [over];
    put_line(out, next, b"over", &number, 0, 1)
}

// 'not', and the vector that stands in x.
fn put_vector(out: &mut [u8], at: usize, n: usize, x: &Vector) -> usize
    requires { (n ≤ greatest_order) × (at + verdict_room ≤ length out.old) }
    ensures { Put out.old at (verdict_text n (not_definite (tabulate n (nth x.now))))
        verdict_room result out.new }
{
    let next = put_text(out, at, b"not\n");
    put_lines(out, next, b"vector", x, n, 1)
}

// The lines of a verdict: of a decision, with its factor in f, or of a refusal.
pub fn put_verdict(
    out: &mut [u8],
    at: usize,
    n: usize,
    decision: Result<Decision, Refusal>,
    f: &Table,
) -> usize
    requires { (n ≤ greatest_order) × (at + verdict_room ≤ length out.old) }
    ensures { Put out.old at (verdict_text n (judgement_of n decision f.now)) verdict_room result out.new }
{
    match decision {
        Ok(Decision::Definite(over)) => put_factor(out, at, n, f, over),
        Ok(Decision::NotDefinite(x)) => put_vector(out, at, n, &x),
        Ok(Decision::Undecided) => put_text(out, at, b"undecided\n"),
        Err(r) => put_refused(out, at, b"refused", r),
    }
}

// The lines of a box: its sides, that it is empty, or its refusal.
pub fn put_box(out: &mut [u8], at: usize, n: usize, sides: Result<Option<Sides>, Refusal>) -> usize
    requires { (n ≤ greatest_order) × (at + box_room ≤ length out.old) }
    ensures { Put out.old at (box_text n (stated_box n sides)) box_room result out.new }
{
    match sides {
        Ok(Some(x)) => put_lines(out, at, b"side", &x, 2, n),
        Ok(None) => put_text(out, at, b"empty\n"),
        Err(r) => put_refused(out, at, b"box refused", r),
    }
}
