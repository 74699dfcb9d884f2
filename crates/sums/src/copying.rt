// Running sums, copied from where they are read to where they are lent for writing.
ghost use Rattle.std.specs.Prelude.{◌≤◌};
ghost use Rattle.sums.specs.Running.{Roomy, BehindRoomy, Copied, SamePlace};

use crate::running::{SumsMut, SumsRef};
use tables::copy_numbers;

// Sums of the order of `target`, from `source` to the front of its slices.
pub fn copy_sums(source: SumsRef, target: &mut SumsMut)
    requires { Roomy target.old × BehindRoomy target.old.order source }
    ensures place { SamePlace target.old target.new }
    ensures copied { Copied target.old.order source.entry target.old target.new }
{
    let n = target.order;
    copy_numbers(n * n, source.low, target.low);
    copy_numbers(n * n, source.high, target.high);
    copy_numbers(n, source.from, target.from);
    copy_numbers(n, source.to, target.to);
    target.limit = source.limit;
}
