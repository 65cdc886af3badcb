//! The engine of `place` for a queue that holds texts at the start.
ghost use Rattle.std.specs.Prelude.{◌≡◌, ◌≢◌, IfErr, IfOk, OnOk, length, map};
ghost use Rattle.text_io.specs.Blocks.{GivesUp};
ghost use Rattle.text_io.specs.Readings.{EndsReadingFor};
ghost use Rattle.engine_faults.specs.Faults.{IsRunRefusal};
ghost use Rattle.recording_text.specs.RecordingReading.{bytes_of};
ghost use Rattle.recording_text.specs.HeldTexts.{AreHeld, IsFaultHolding};
ghost use Rattle.place_engine.specs.HeldTexts.{FindsHolding, TellsHolding, BeginsHolding, TellsFaultOfHolding};
ghost use Rattle.place_engine.specs.Overlaps.{SaysOverlap};

use crate::engine::{Told, overlap_of};
use crate::found_texts::tell;
use crate::recordings::recording_in;
use history::Refusal;
use placing::{Placed, place};
use recording_text::parse_holding;
use std::alloc::Global;
use text_io::{Sink, Source};

/// Does the same as `place_text` for the recording whose text the reader gives, of a queue that holds texts at the start, the
/// front first. Points and reasons are those of the longer recording, which pushes them before all else, told in the given
/// operations' own numbers and places; what was held is told by its place in the list.
///
/// It is refused as `place_text` is, where the bytes are no recording, or its numbers leave no room below 2^64 for as many more as
/// texts are held. It takes memory; whether it waits is up to the reader and the writer.
pub fn place_holding<R: Source, W: Sink>(
    alloc: Global,
    reader: &mut R,
    writer: &mut W,
    room: u64,
    tells_why: bool,
    held: &[&[u8]],
) -> Result<Told, Refusal>
    requires { AreHeld (map bytes_of held.now) }
    //= program/holding (ok, quiet, text): `place_holding` answers points, a reason or that it is open, for a recording of a queue
    //=   that holds texts at the start, and its text is written. With points the recording is one of such a queue, by the points
    //=   written, which are within its own operations; with a reason it isn't. A refused text is told by its first faulty line
    //=   or, if it has none, by the first whose numbers leave no room for the pushes of these texts.
    ensures ok { IfOk result (λ told. TellsHolding (map bytes_of held.now) (R.state reader.old).left
        room tells_why (W.state writer.old) (W.state writer.new) told.found) }
    //= program/overlap
    ensures overlap { IfOk result (λ told. SaysOverlap (R.state reader.old).left told.overlap) }
    ensures quiet { OnOk result ((W.state writer.new).failures ≡ (W.state writer.old).failures) }
    // A text is refused by its first faulty line, or the first whose numbers leave no room.
    ensures text { IfErr result (TellsFaultOfHolding (length held.now) (R.state reader.old).left) }
    //= program/judge_refusals (prefix, write, unwritten, refusal, reader)
    ensures prefix { IfErr result (λ refusal. refusal ≡ Refusal.Write
        → BeginsHolding (map bytes_of held.now) (R.state reader.old).left room tells_why
        (W.state writer.old) (W.state writer.new)) }
    ensures write { IfErr result (λ refusal. refusal ≡ Refusal.Write
        → GivesUp (W.state writer.old) (W.state writer.new)) }
    // At any other refusal nothing is.
    ensures unwritten { IfErr result
        (λ refusal. refusal ≢ Refusal.Write → writer.new ≡ writer.old) }
    ensures refusal { IfErr result IsRunRefusal }
    ensures reader { EndsReadingFor result (R.state reader.old) (R.state reader.new) }
{
    let text = recording_in(alloc, reader)?;
    let found = found_in(alloc, held, &text, room)?;
    let overlap = overlap_of(alloc, &text)?;
    tell(alloc, &found, tells_why, held, &text, writer)?;
    Ok(Told { found, overlap })
}

// What is found of the recording of a text.
fn found_in(alloc: Global, held: &[&[u8]], text: &[u8], room: u64) -> Result<Placed, Refusal>
    requires { AreHeld (map bytes_of held.now) }
    ensures ok { IfOk result (FindsHolding (map bytes_of held.now) text.now room) }
    ensures err { IfErr result (IsFaultHolding (length held.now) text.now) }
{
    let longer = parse_holding(alloc, held, text)?;
    place(alloc, &longer, room)
}
