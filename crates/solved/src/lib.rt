// R10 of docs/RULES.md: the solved vectors, from the table of a factoring that stopped.
// Entry (i, k) of the table lies at STRIDE k + i, and the vector is the first n entries of an array.
#![tactic(auto)]

ghost use Rattle.std.specs.Prelude.{◌≡◌, suc};
ghost use Rattle.integers.specs.Numbers.{Within};
ghost use Rattle.solved.specs.Solved.{solved};
ghost use Rattle.solved.specs.Stopped.{stopped_at, Stopped, start_range, Ready, row_sum, entry_of, solved_of};

use cholesky::STRIDE;
use cholesky::factoring::Stop;
use tables::{GREATEST_ORDER, Table, VECTOR_RANGE, Vector};

// T: the sum of r(i,k) x(k) over k from i + 1 to j.
fn row_sum(t: &Table, x: &Vector, i: usize, j: usize) -> i64
    requires { Ready t.now x.now i j }
    ensures { result ≡ row_sum t.now x.now i (suc j) }
{
    let mut s: i64 = 0;
    for k in i + 1..j + 1 {
        s += t[STRIDE * k + i] * x[k];
    }
    s
}

// x(i): -⌊(2 T + r(i,i)) / (2 r(i,i))⌋ (R10.3).
fn entry(t: &Table, x: &Vector, i: usize, j: usize) -> i64
    requires { Ready t.now x.now i j }
    ensures { result ≡ entry_of t.now x.now i j }
{
    let sum = row_sum(t, x, i, j);
    let diagonal = t[STRIDE * i + i];
    -integers::floor_div(2 * sum + diagonal, 2 * diagonal)
}

// The solved vector for s, of a factoring of order n that stopped. There is none where an entry passes ±2^15.
pub fn solve(n: usize, t: &Table, stop: Stop, s: i64) -> Option<Vector>
    requires { Stopped n t.now stop.column stop.rows × Within start_range s }
    ensures { solved_of n result ≡ solved n (stopped_at t.now stop.column stop.rows) s }
{
    let j = stop.column;
    let mut x = [0i64; GREATEST_ORDER];
    x[j] = s;
    for i in (0..stop.rows).rev() {
        let e = entry(t, &x, i, j);
        if !tables::within(e, VECTOR_RANGE) {
            return None;
        }
        x[i] = e;
    }
    Some(x)
}
