//! The engine of `trace`: from a reader's bytes to a writer's.
ghost use Rattle.std.specs.Prelude.{◌≡◌, ◌≢◌, ◌⊎◌, None, IfErr, OnOk, IfSome};
ghost use Rattle.run_engine.specs.Runs.{EndsReading, IsRunFault, RunRefused, TellsFaultyLine};
ghost use Rattle.schedule_text.specs.Texts.{IsInRange};
ghost use Rattle.text_io.specs.Blocks.{GivesUp};
ghost use Rattle.run_engine.specs.TracesWritten.{BeginsTrace, Traces, WritesStop, WritesTrace};

use crate::by_bits;
use crate::counts::{count_steps, refuse_at};
use crate::traces::write_trace;
use engine_faults::Fault;
use history::Refusal;
use schedule_text::{Schedule, read_schedule};
use std::alloc::Global;
use text_io::{Sink, Source};

/// Writes the trace of a schedule of `B` bits, which is run once before, so that the header tells how many steps there are.
fn trace_with_bits<const B: u32, W: Sink>(
    alloc: Global,
    schedule: &Schedule,
    writer: &mut W,
) -> Result<(), Fault>
    requires range { IsInRange schedule.now }
    requires bits { schedule.now.bits ≡ B }
    ensures { Traces schedule.now (W.state writer.old) (W.state writer.new) (writer.new ≡ writer.old)
        result }
{
    let counted = count_steps::<B>(alloc, schedule)?;
    write_trace::<B, W>(alloc, schedule, &counted, writer)?;
    refuse_at(schedule, &counted)
}

/// The same with as many bits as the schedule says.
fn trace_schedule<W: Sink>(alloc: Global, schedule: &Schedule, writer: &mut W) -> Result<(), Fault>
    requires range { IsInRange schedule.now }
    ensures { Traces schedule.now (W.state writer.old) (W.state writer.new) (writer.new ≡ writer.old)
        result }
{
    let bits = schedule.bits;
    by_bits!(bits, trace_with_bits<W>(alloc, schedule, writer))
}

/// Writes the trace of the schedule whose text the reader gives: a header, and then a line for each of its steps. Where an event is
/// refused, these are the steps of the events before it, and behind them a line for each actor that has a call says where it
/// stands, and a last one how soon the call of the event's actor ends alone.
///
/// The schedule's events are held, at most 1,000,000, and none of its steps is. They are made twice: first to find
/// whether one is refused, and then step by step as the lines are written.
///
/// A fault is, in this order: `Memory`, as soon as a growth is refused; `Read`, where a call of the
/// reader fails; `Text`, where the bytes are no schedule; `Write`, where a call of the writer fails or takes nothing; the
/// refusal of the first event that is refused, with its line. Memory may be refused too while the steps are written. It
/// takes memory; whether it waits is up to the reader and the writer.
pub fn trace_text<R: Source, W: Sink>(
    alloc: Global,
    reader: &mut R,
    writer: &mut W,
) -> Result<(), Fault>
    //= program/trace (ok, quiet): The trace of the schedule read is written, from the worlds before and after each
    //=   step, in turn from the opening one.
    //= program/other_faults (ok, prefix, fault, text, refused, reader): Other faults of a trace, a picture or a page,
    //=   and the reader's end, are as of `run_text`.
    ensures ok { OnOk result (WritesTrace (R.state reader.old).left (W.state writer.old)
        (W.state writer.new)) }
    ensures quiet { OnOk result ((W.state writer.new).failures ≡ (W.state writer.old).failures) }
    //= program/prefix (prefix, write, memory, none_failed, unwritten): If a trace or a picture is refused `Write`, a
    //=   prefix of it was written, and a write failed or took nothing. At `Memory` nothing or a prefix was written,
    //=   and no write failed. At any other refusal without a line nothing was written.
    ensures prefix { IfErr result (λ fault. fault.refusal ≡ Refusal.Write
        → BeginsTrace (R.state reader.old).left (W.state writer.old) (W.state writer.new)) }
    ensures write { IfErr result (λ fault. fault.refusal ≡ Refusal.Write
        → GivesUp (W.state writer.old) (W.state writer.new)) }
    // Where memory is refused, nothing or a prefix of it is, and no call of the writer failed.
    ensures memory { IfErr result (λ fault. fault.refusal ≡ Refusal.Memory → (writer.new ≡ writer.old)
        ⊎ BeginsTrace (R.state reader.old).left (W.state writer.old) (W.state writer.new)) }
    ensures none_failed { IfErr result (λ fault. fault.refusal ≡ Refusal.Memory
        → (W.state writer.new).failures ≡ (W.state writer.old).failures) }
    // At any other fault without a line nothing is.
    ensures unwritten { IfErr result (λ fault. fault.line ≡ None → fault.refusal ≢ Refusal.Write
        → fault.refusal ≢ Refusal.Memory → writer.new ≡ writer.old) }
    //= program/stopped (stopped, none_failed_there): Where an event is refused, the trace or the picture of the
    //=   events before it is written, and then where each actor stands that has a call and is shown; in a trace also
    //=   how many steps alone, of 64 at most, end the call of the event's actor, or `-`.
    ensures stopped { IfErr result (λ fault. IfSome fault.line (λ line. WritesStop (R.state reader.old).left
        line fault.refusal (W.state writer.old) (W.state writer.new))) }
    ensures none_failed_there { IfErr result (λ fault. IfSome fault.line (λ line.
        (W.state writer.new).failures ≡ (W.state writer.old).failures)) }
    ensures fault { IfErr result (λ fault. IsRunFault fault.refusal fault.line) }
    // A text that is no schedule is refused by its first faulty line.
    ensures text { IfErr result (λ fault. TellsFaultyLine (R.state reader.old).left fault.refusal) }
    // A line is that of the first event that is refused, and the refusal is that event's.
    ensures refused { IfErr result (λ fault. IfSome fault.line (λ line.
        RunRefused (R.state reader.old).left line fault.refusal)) }
    ensures reader { EndsReading result (R.state reader.old) (R.state reader.new) }
{
    let schedule = read_schedule(alloc, reader)?;
    trace_schedule(alloc, &schedule, writer)?;
    Ok(())
}
