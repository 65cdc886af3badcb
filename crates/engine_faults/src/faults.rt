//! What an engine answers in place of its output.
ghost use Rattle.std.specs.Prelude.{◌≡◌, ◌≤◌, IfSome};
ghost use Rattle.engine_faults.specs.Faults.{IsMoveRefusal, IsEventFault};
ghost use Rattle.engine_faults.specs.declared.faults.Fault.{Fault};

use history::Refusal;
use std::error::Error;
use std::fmt;

/// Why an engine stopped. Its text is the line that the program writes to standard error.
#[derive(Clone, Copy, Debug, PartialEq, Eq)]
pub struct Fault {
    pub refusal: Refusal,
    /// The schedule's line, counted from 1, where an event of it was refused, and else none.
    pub line: Option<u64>,
}

impl Fault {
    /// A fault of the event on this line, from 1. Where memory was refused, no line is told.
    pub fn at(line: u64, refusal: Refusal) -> Fault
        requires { IsMoveRefusal refusal }
        ensures refusal { result.refusal ≡ refusal }
        ensures kind { 7 ≤ line → IsEventFault result.refusal result.line }
        ensures line { IfSome result.line (λ told. told ≡ line) }
    {
        let line = match refusal {
            Refusal::Memory => None,
            _ => Some(line),
        };
        Fault { refusal, line }
    }
}

impl From<Refusal> for Fault {
    ghost use Rattle.std.specs.Prelude.{None};

    ghost from_gives = { λ refusal fault. fault ≡ record { refusal = refusal; line = None } };

    fn from(refusal: Refusal) -> Fault {
        Fault {
            refusal,
            line: None,
        }
    }
}

impl Error for Fault {}

impl fmt::Display for Fault {
    fn fmt<W: fmt::Write>(&self, f: &mut fmt::Formatter<W>) -> fmt::Result {
        match self.line {
            Some(line) => write!(f, "{} line {line}", self.refusal),
            None => write!(f, "{}", self.refusal),
        }
    }
}
