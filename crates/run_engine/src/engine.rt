//! The engine of `run`: from a reader's bytes to a writer's.
ghost use Rattle.std.specs.Prelude.{◌≡◌, ◌≢◌, IfErr, IfOk, IfSome, OnOk};
ghost use Rattle.run_engine.specs.Runs.{BeginsRun, WritesRun, EndsReading, IsRunFault, IsRunOf, RunRefused, TellsFaultyLine};
ghost use Rattle.text_io.specs.Blocks.{GivesUp};

use crate::runs::run_source;
use engine_faults::Fault;
use history::{Refusal, Stamped};
use history_text::print_history;
use std::alloc::Global;
use text_io::{Sink, Source};

/// The history of the schedule whose text a source gives.
fn run_schedule<R: Source>(alloc: Global, reader: &mut R) -> Result<Vec<Stamped>, Fault>
    ensures ok { IfOk result (λ history. IsRunOf (R.state reader.old).left history.items) }
    ensures text { IfErr result (λ fault. TellsFaultyLine (R.state reader.old).left fault.refusal) }
    ensures fault { IfErr result (λ fault. IsRunFault fault.refusal fault.line) }
    ensures refused { IfErr result (λ fault. IfSome fault.line (λ line.
        RunRefused (R.state reader.old).left line fault.refusal)) }
    ensures unwritten { IfErr result (λ fault. fault.refusal ≢ Refusal.Write) }
    ensures reader { EndsReading result (R.state reader.old) (R.state reader.new) }
{
    let history = run_source(alloc, reader)?;
    Ok(history)
}

/// Runs the schedule whose text the reader gives, and writes the text of its history.
///
/// A fault is, in this order: `Memory`, as soon as a growth is refused; `Read`, where a call of the
/// reader fails; `Text`, where the bytes are no schedule; the refusal of the first event that is
/// refused, with its line; `Write`, where a call of the writer fails or takes nothing. It takes
/// memory; whether it waits is up to the reader and the writer.
pub fn run_text<R: Source, W: Sink>(
    alloc: Global,
    reader: &mut R,
    writer: &mut W,
) -> Result<(), Fault>
    //= program/run (ok, quiet): At Ok the history of the world after the schedule's events is written; these were made
    //=   in turn from the opening world, each step that names its line at that line.
    //= program/run_refusals (ok, prefix, write, unwritten, fault, text, refused): If `run_text` is refused `Write`, a
    //=   prefix of the history's text was written, and a write failed or took nothing; at any other refusal nothing
    //=   was written. A text that is no schedule is refused with its first faulty line and what is wrong with it,
    //=   unless memory or reading is refused.
    //= program/run_reader (ok, prefix, text, refused, reader): At Ok, and at each refusal but `Memory` and `Read`,
    //=   the reader of `run_text` has told its end and didn't fail; at `Read` one call of it failed, at `Memory`
    //=   none. At Ok, at `Write` and at a refusal with a line the text is a schedule's, in range; at `Text` it is
    //=   none's.
    ensures ok { OnOk result (WritesRun (R.state reader.old).left (W.state writer.old)
        (W.state writer.new)) }
    ensures quiet { OnOk result ((W.state writer.new).failures ≡ (W.state writer.old).failures) }
    // Where writing fails, a prefix of that text is written.
    ensures prefix { IfErr result (λ fault. fault.refusal ≡ Refusal.Write
        → BeginsRun (R.state reader.old).left (W.state writer.old) (W.state writer.new)) }
    ensures write { IfErr result (λ fault. fault.refusal ≡ Refusal.Write
        → GivesUp (W.state writer.old) (W.state writer.new)) }
    // At any other fault nothing is.
    ensures unwritten { IfErr result (λ fault. fault.refusal ≢ Refusal.Write → writer.new ≡ writer.old) }
    //= program/refused_event (fault, refused): A refusal with a line is that of a schedule's first refused event, which
    //=   stands there: IdleActor, ActorBusy, NotHere or NoSuchActor; the moves before it can be made. One without a
    //=   line is Memory, Text, Read or Write.
    ensures fault { IfErr result (λ fault. IsRunFault fault.refusal fault.line) }
    // A text that is no schedule is refused by its first faulty line.
    ensures text { IfErr result (λ fault. TellsFaultyLine (R.state reader.old).left fault.refusal) }
    // A line is that of the first event that is refused, and the refusal is that event's.
    ensures refused { IfErr result (λ fault. IfSome fault.line (λ line.
        RunRefused (R.state reader.old).left line fault.refusal)) }
    ensures reader { EndsReading result (R.state reader.old) (R.state reader.new) }
{
    let history = run_schedule(alloc, reader)?;
    print_history(&history, writer)?;
    Ok(())
}
