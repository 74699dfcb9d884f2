// The program, R19 of docs/RULES.md: a summary file on standard input, its verdict and its box on standard output.
#![tactic(auto)]

ghost use Rattle.std.specs.Prelude.{◌≤◌, length, IfOk};

use std::io;
use std::io::Read;

// Room for one byte more than the longest file has.
const ROOM: usize = summary::problem::LONGEST + 1;

// Reads to the front of the buffer, through short reads too, until it is full or the input ends; how many bytes came.
fn read_full<R: Read>(input: &mut R, buffer: &mut [u8]) -> io::Result<usize>
    ensures within { IfOk result (λ n. n ≤ length buffer.new) }
{
    let mut done = 0;
    while done < buffer.len() {
        let count = input.read(&mut buffer[done..])?;
        if count == 0 {
            break;
        }
        done += count;
    }
    Ok(done)
}

fn main(rt: HostRuntime) -> io::Result<()> {
    let mut file = [0u8; ROOM];
    let size = read_full(&mut rt.stdin(), &mut file)?;
    let report = report::report::report_read(&file, size);
    let text = report.text;
    let length = report.length;
    rt.write_all(&text[..length])
}
