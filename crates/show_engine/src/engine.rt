//! The engine of `show`: from a reader's bytes to a writer's.
ghost use Rattle.std.specs.Prelude.{◌≡◌, ◌≢◌, ◌⊎◌, None, IfErr, OnOk, IfSome};
ghost use Rattle.run_engine.specs.Runs.{EndsReading, IsRunFault, RunRefused, TellsFaultyLine};
ghost use Rattle.schedule_text.specs.Texts.{IsInRange};
ghost use Rattle.text_io.specs.Blocks.{GivesUp};
ghost use Rattle.show_engine.specs.PicturesWritten.{WritesPicture};
ghost use Rattle.show_engine.specs.RefusedPictures.{BeginsPicture, Draws, WritesStop};

use crate::counts::count;
use crate::frames::{Frame, View};
use crate::pictures::draw;
use engine_faults::Fault;
use history::Refusal;
use run_engine::{by_bits, refuse_at};
use schedule_text::{Schedule, read_schedule};
use std::alloc::Global;
use text_io::{Sink, Source};

/// Writes the picture of a schedule of `B` bits, which is run once before, to find where its operations take effect.
fn show_with_bits<const B: u32, W: Sink>(
    alloc: Global,
    schedule: &Schedule,
    view: View<'_>,
    writer: &mut W,
) -> Result<(), Fault>
    requires range { IsInRange schedule.now }
    requires bits { schedule.now.bits ≡ B }
    ensures { Draws view.entry schedule.now (W.state writer.old) (W.state writer.new)
        (writer.new ≡ writer.old) result }
{
    let counted = count::<B>(alloc, schedule)?;
    let frame = Frame::of(view, schedule.actors);
    draw::<B, W>(alloc, schedule, frame, &counted, view.legend, writer)?;
    refuse_at(schedule, &counted.run)
}

/// The same with as many bits as the schedule says.
fn show_schedule<W: Sink>(
    alloc: Global,
    schedule: &Schedule,
    view: View<'_>,
    writer: &mut W,
) -> Result<(), Fault>
    requires range { IsInRange schedule.now }
    ensures { Draws view.entry schedule.now (W.state writer.old) (W.state writer.new)
        (writer.new ≡ writer.old) result }
{
    let bits = schedule.bits;
    by_bits!(bits, show_with_bits<W>(alloc, schedule, view, writer))
}

/// Writes a picture of the schedule whose text the reader gives: an actor a column and a step a row, and a star where an operation
/// takes effect. The chains of nodes from Head and from Free, with an arrow at Tail's node, and who holds a lock stand beside a row
/// that changed one of them. The view says which steps and actors are shown, and the last line says it too. Where an event is refused,
/// these are the rows of the events before it, and behind them a row for each actor with a column and a call says where it stands.
///
/// Behind the picture stands of the view's legend each row whose line is at a row of a step or of a give.
///
/// The schedule's events are held, at most 1,000,000, and where its operations take effect. None of its steps is. The
/// events are made twice, and those before one that is refused once more: first to find whether one is, and at last step by step as
/// the rows are written. Where there is a legend, they are made once more before, to find which lines are at rows.
///
/// A fault is, in this order: `Memory`, as soon as a growth is refused; `Read`, where a call of the
/// reader fails; `Text`, where the bytes are no schedule; `Write`, where a call of the writer fails or takes nothing; the
/// refusal of the first event that is refused, with its line. Memory may be refused too while the rows are written. It
/// takes memory; whether it waits is up to the reader and the writer.
pub fn show_text<R: Source, W: Sink>(
    alloc: Global,
    reader: &mut R,
    writer: &mut W,
    view: View<'_>,
) -> Result<(), Fault>
    //= program/picture (ok, quiet): The picture of the schedule read is written: the rows shown of its run, a star
    //=   exactly where an operation of the run's history has its place, and the chains, with Tail, and the holders of
    //=   locks where these changed; behind it, of the view's legend, what each line in the rows does.
    //= program/other_faults (ok, prefix, fault, text, refused, reader)
    ensures ok { OnOk result (WritesPicture view.entry (R.state reader.old).left (W.state writer.old)
        (W.state writer.new)) }
    ensures quiet { OnOk result ((W.state writer.new).failures ≡ (W.state writer.old).failures) }
    //= program/prefix (prefix, write, memory, none_failed, unwritten)
    ensures prefix { IfErr result (λ fault. fault.refusal ≡ Refusal.Write
        → BeginsPicture view.entry (R.state reader.old).left (W.state writer.old) (W.state writer.new)) }
    ensures write { IfErr result (λ fault. fault.refusal ≡ Refusal.Write
        → GivesUp (W.state writer.old) (W.state writer.new)) }
    // Where memory is refused, nothing or a prefix of it is, and no call of the writer failed.
    ensures memory { IfErr result (λ fault. fault.refusal ≡ Refusal.Memory → (writer.new ≡ writer.old)
        ⊎ BeginsPicture view.entry (R.state reader.old).left (W.state writer.old) (W.state writer.new)) }
    ensures none_failed { IfErr result (λ fault. fault.refusal ≡ Refusal.Memory
        → (W.state writer.new).failures ≡ (W.state writer.old).failures) }
    // At any other fault without a line nothing is.
    ensures unwritten { IfErr result (λ fault. fault.line ≡ None → fault.refusal ≢ Refusal.Write
        → fault.refusal ≢ Refusal.Memory → writer.new ≡ writer.old) }
    //= program/stopped (stopped, none_failed_there)
    ensures stopped { IfErr result (λ fault. IfSome fault.line (λ line. WritesStop view.entry
        (R.state reader.old).left line fault.refusal (W.state writer.old) (W.state writer.new))) }
    ensures none_failed_there { IfErr result (λ fault. IfSome fault.line (λ line.
        (W.state writer.new).failures ≡ (W.state writer.old).failures)) }
    ensures fault { IfErr result (λ fault. IsRunFault fault.refusal fault.line) }
    // A text that is no schedule is refused by its first faulty line.
    ensures text { IfErr result (λ fault. TellsFaultyLine (R.state reader.old).left fault.refusal) }
    // A line is that of the first event that is refused, and the refusal is that event's.
    ensures refused { IfErr result (λ fault. IfSome fault.line (λ line.
        RunRefused (R.state reader.old).left line fault.refusal)) }
    ensures reader { EndsReading result (R.state reader.old) (R.state reader.new) }
{
    let schedule = read_schedule(alloc, reader)?;
    show_schedule(alloc, &schedule, view, writer)?;
    Ok(())
}
