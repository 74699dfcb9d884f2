// What the program prints of a summary file, R19 of docs/RULES.md.
ghost use Rattle.std.specs.Prelude.{◌≡◌, ◌≤◌, ◌<◌, length, take};
ghost use Rattle.tables.specs.Ranges.{greatest_order};
ghost use Rattle.summary.specs.Problems.{longest};
ghost use Rattle.text.specs.Putting.{Put};
ghost use Rattle.report.specs.Answers.{answers_text};
ghost use Rattle.report.specs.Report.{report_room, report};

use crate::answers::{Answers, work_out};
use crate::lines::{BOX_ROOM, VERDICT_ROOM, put_box, put_refused, put_verdict};

// The size of the text's buffer: room for a verdict and a box.
const ROOM: usize = VERDICT_ROOM + BOX_ROOM;

// What is printed: the first length bytes of text, and zeros after them.
#[derive(Clone, Copy, Debug, PartialEq, Eq)]
pub struct Output {
    pub text: [u8; ROOM],
    pub length: usize,
}

// The lines of the answers to a problem of order n: the verdict, then the box.
fn put_answers(out: &mut [u8], n: usize, answers: Answers) -> usize
    requires { (n ≤ greatest_order) × (report_room ≤ length out.old) }
    ensures { Put out.old 0 (answers_text n answers) report_room result out.new }
{
    let next = put_verdict(out, 0, n, Ok(answers.decision), &answers.factor);
    put_box(out, next, n, answers.sides)
}

// What the program prints of a file, of any bytes at all.
pub fn report(file: &[u8]) -> Output
    ensures exact { result ≡ report file.now }
    ensures within { result.length ≤ length result.text }
{
    let mut text = [0u8; ROOM];
    match summary::problem::read(file) {
        Ok(problem) => {
            let order = problem.constraint.order;
            let length = put_answers(&mut text, order, work_out(problem));
            Output { text, length }
        }
        Err(r) => {
            let length = put_refused(&mut text, 0, b"refused", r);
            Output { text, length }
        }
    }
}

// The same of the file in a buffer, its first size bytes. The buffer has room for more than the longest file, so that a longer one is
// refused and not cut.
pub fn report_read(buffer: &[u8], size: usize) -> Output
    requires { (longest < length buffer.now) × (size ≤ length buffer.now) }
    ensures exact { result ≡ report (take size buffer.now) }
    ensures within { result.length ≤ length result.text }
{
    report(&buffer[..size])
}
