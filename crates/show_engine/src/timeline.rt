//! The timeline of a history: from a reader's bytes to a writer's.
ghost use Rattle.std.specs.Prelude.{◌≡◌, ◌≢◌, ◌++◌, IfErr, OnOk};
ghost use Rattle.engine_faults.specs.Faults.{IsRunRefusal};
ghost use Rattle.text_io.specs.Blocks.{GivesUp, Writes};
ghost use Rattle.text_io.specs.Readings.{EndsReadingFor};
ghost use Rattle.place_engine.specs.Checks.{TellsFirstFault};
ghost use Rattle.show_engine.specs.Scales.{IsFitting};
ghost use Rattle.show_engine.specs.Timelines.{scaled_text};
ghost use Rattle.show_engine.specs.TimelinesWritten.{BeginsTimeline, WritesTimeline};

use crate::bars::{count_shown, shown_row, span_line};
use crate::frames::View;
use crate::scales::{Scale, end_of_history};
use history::{Refusal, Stamped};
use place_engine::history_in;
use std::alloc::Global;
use text_io::{Block, Sink, Source};

/// Writes the rows of a history that ends at a number, and the last line.
fn write_timeline<W: Sink>(
    history: &[Stamped],
    scale: Scale,
    last: u64,
    writer: &mut W,
) -> Result<(), Refusal>
    requires { IsFitting scale }
    ensures { Writes (W.state writer.old) (W.state writer.new)
        (scaled_text scale last history.now) result }
{
    let mut block = Block::new();
    for operation in history {
        block.put(writer, shown_row(scale, operation).as_slice())?;
    }
    let shown = count_shown(scale, history);
    let span = span_line(scale, last, shown, history.len() as u64);
    block.put(writer, span.as_slice())?;
    block.finish(writer)
}

/// Writes the timeline of the history whose text the reader gives: an operation a row, a bar from its first step to its last
/// one, with a star where it takes effect. The view says which steps are shown, and which actor; the last line says it too.
///
/// It is refused, in this order, by `Memory`, as soon as a growth is refused; `Read`, where a call of
/// the reader fails; `Text`, where the bytes are no history; `Write`, where a call of the writer fails
/// or takes nothing. It takes memory; whether it waits is up to the reader and the writer.
pub fn show_history<R: Source, W: Sink>(
    alloc: Global,
    reader: &mut R,
    writer: &mut W,
    view: View<'_>,
) -> Result<(), Refusal>
    //= program/timeline (ok, quiet, text, prefix, write, unwritten, refusal, reader): The timeline of the history
    //=   read is written, with the operations shown in their order. It is refused as `check_text` is.
    ensures ok { OnOk result (WritesTimeline view.entry (R.state reader.old).left (W.state writer.old)
        (W.state writer.new)) }
    ensures quiet { OnOk result ((W.state writer.new).failures ≡ (W.state writer.old).failures) }
    // A text is refused by its first faulty line.
    ensures text { IfErr result (TellsFirstFault (R.state reader.old).left) }
    // Where writing fails, a prefix of that text is written.
    ensures prefix { IfErr result (λ refusal. refusal ≡ Refusal.Write
        → BeginsTimeline view.entry (R.state reader.old).left (W.state writer.old) (W.state writer.new)) }
    ensures write { IfErr result (λ refusal. refusal ≡ Refusal.Write
        → GivesUp (W.state writer.old) (W.state writer.new)) }
    // At any other refusal nothing is.
    ensures unwritten { IfErr result
        (λ refusal. refusal ≢ Refusal.Write → writer.new ≡ writer.old) }
    ensures refusal { IfErr result IsRunRefusal }
    ensures reader { EndsReadingFor result (R.state reader.old) (R.state reader.new) }
{
    let history = history_in(alloc, reader)?;
    let last = end_of_history(&history);
    write_timeline(&history, Scale::of(view, last), last, writer)
}
