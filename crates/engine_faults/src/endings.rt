//! How the program ends: its exit status, and the line that tells of a fault.
ghost use Rattle.std.specs.Prelude.{◌≡◌, OnOk, OnErr};
ghost use Rattle.engine_faults.specs.Endings.{status_of, TakesLine};

use crate::fault_lines::line_of;
use crate::faults::Fault;
use history::Verdict;
use text_io::{Sink, send};

/// How an engine ended that was not refused.
#[derive(Clone, Copy, Debug, PartialEq, Eq)]
pub enum Ending {
    /// It did what it is for, and found nothing wrong.
    Well,
    /// It found that a history isn't one of a queue.
    No,
    /// It couldn't find whether a history is one of a queue.
    Open,
}

impl From<Verdict> for Ending {
    ghost use Rattle.engine_faults.specs.Endings.{ending_of};

    ghost from_gives = { λ verdict ending. ending ≡ ending_of verdict };

    fn from(verdict: Verdict) -> Ending {
        match verdict {
            Verdict::Yes => Ending::Well,
            Verdict::No { .. } => Ending::No,
        }
    }
}

/// The exit status: 0 where all is well, 3 where a history isn't one of a queue, 4 where that is open, and 1 at
/// a fault, whose line is written.
///
/// Where the writer fails too, the status alone tells of the fault. It takes no memory; whether it
/// waits is up to the writer.
pub fn end_of<W: Sink>(outcome: Result<Ending, Fault>, writer: &mut W) -> u8
    //= program/status (status, silent, line): The exit status told of an outcome is that of docs/FORMATS.md. At a
    //=   fault one line is written, or a prefix of it where the writer gives up; else nothing is.
    ensures status { result ≡ status_of outcome }
    ensures silent { OnOk outcome (writer.new ≡ writer.old) }
    ensures line { OnErr outcome (TakesLine (W.state writer.old) (W.state writer.new)) }
{
    match outcome {
        Ok(Ending::Well) => 0,
        Ok(Ending::No) => 3,
        Ok(Ending::Open) => 4,
        Err(fault) => {
            let _ = send(line_of(&fault).as_slice(), writer);
            1
        }
    }
}
