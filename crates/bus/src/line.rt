// R28.11 of docs/RULES.md: what the line answers.
ghost use Rattle.std.specs.Prelude.{◌≡◌};
ghost use Rattle.bus.specs.Bus.{line_number};

use tables::Answer;

// The line is low or raised.
#[derive(Clone, Copy, Debug, PartialEq, Eq)]
pub enum Line {
    Low,
    Raised,
}

// At a C entry low is 0, and raised -1 (R15.8).
impl Answer for Line {
    ghost code = { line_number };

    fn code(self) -> i64 {
        match self {
            Line::Low => 0,
            Line::Raised => -1,
        }
    }
}
