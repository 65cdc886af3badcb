//! What is found of a recorded history, drawn: from a reader's bytes to a writer's.
ghost use Rattle.std.specs.Prelude.{◌≡◌, ◌≢◌, ◌⊎◌, IfErr, IfOk, OnOk};
ghost use Rattle.std.specs.Io.KnownBytes.{Appends};
ghost use Rattle.engine_faults.specs.Faults.{IsRunRefusal};
ghost use Rattle.place_engine.specs.Given.{TellsFaultOfRecord};
ghost use Rattle.text_io.specs.Blocks.{GivesUp, TakesPrefix};
ghost use Rattle.text_io.specs.Readings.{EndsReadingFor};
ghost use Rattle.show_engine.specs.Found.{AreRising, BeginsFound, DrawsFound};
ghost use Rattle.show_engine.specs.Reasons.{found_picture, reason_picture};

use crate::bars::count_shown;
use crate::beside::{push_rows, scale_beside, times_line};
use crate::frames::View;
use history::{Refusal, Stamped};
use place_engine::{header_of, lines_of, no_line, places_of, record_in, tell};
use placing::{Placed, Reason, place};
use std::alloc::{AllocError, Global};
use text_io::{Sink, Source, send};

/// The same numbers, by rising number.
fn rising(numbers: Vec<u64>) -> Vec<u64>
    ensures { AreRising numbers.items result.items }
{
    let mut numbers = numbers;
    numbers.sort_unstable();
    numbers
}

/// The picture of a reason of a history with this text.
fn picture_of(
    alloc: Global,
    view: View<'_>,
    text: &[u8],
    history: &[Stamped],
    reason: &Reason,
) -> Result<Vec<u8>, AllocError>
    ensures { IfOk result (λ picture. picture.items
        ≡ reason_picture view.entry text.now history.now reason.now) }
{
    let mut picture = no_line(alloc, reason, 0)?;
    let places = places_of(alloc, reason)?;
    let scale = scale_beside(alloc, view, history, &places)?;
    let places = rising(places);
    let lines = lines_of(alloc, text)?;
    let header = header_of(text);
    push_rows(&mut picture, scale, history, &lines, header, &places)?;
    let shown = count_shown(scale, history);
    let last = times_line(scale, shown, history.len() as u64);
    picture.extend_from_slice(last.as_slice())?;
    Ok(picture)
}

/// Writes the picture of what is found of a history with this text.
fn draw_found<W: Sink>(
    alloc: Global,
    view: View<'_>,
    text: &[u8],
    history: &[Stamped],
    found: &Placed,
    writer: &mut W,
) -> Result<(), Refusal>
    ensures ok { OnOk result (Appends (W.state writer.old).contents (W.state writer.new).contents
        (found_picture view.entry text.now history.now found.now)) }
    ensures quiet { OnOk result ((W.state writer.new).failures ≡ (W.state writer.old).failures) }
    ensures only { IfErr result
        (λ refusal. (refusal ≡ Refusal.Memory) ⊎ (refusal ≡ Refusal.Write)) }
    ensures unwritten { IfErr result
        (λ refusal. refusal ≡ Refusal.Memory → writer.new ≡ writer.old) }
    ensures prefix { IfErr result (λ refusal. refusal ≡ Refusal.Write
        → TakesPrefix (W.state writer.old).contents (W.state writer.new).contents
        (found_picture view.entry text.now history.now found.now)) }
    ensures cause { IfErr result (λ refusal. refusal ≡ Refusal.Write
        → GivesUp (W.state writer.old) (W.state writer.new)) }
{
    match found {
        Placed::Impossible(reason) => match picture_of(alloc, view, text, history, reason) {
            Ok(picture) => send(&picture, writer),
            Err(_) => Err(Refusal::Memory),
        },
        Placed::History(_) | Placed::Open(_) => tell(alloc, found, false, &[], text, writer),
    }
}

/// Writes what `place_text` writes of the recorded history whose text the reader gives, or which the recording stands for whose
/// text it gives, and behind the line of a reason a picture: an operation a row, a bar from its first number to its last one, and
/// the line that says it, with its number, byte for byte. `!` stands before the operations of the reason. Shown are the times from
/// the first number of these operations to their last one, or those of them that the view says, and each operation that has one.
///
/// It is refused as `place_text` is. The picture is kept in memory until it is written. It takes memory; whether it waits is up to the
/// reader and the writer.
pub fn show_found<R: Source, W: Sink>(
    alloc: Global,
    reader: &mut R,
    writer: &mut W,
    view: View<'_>,
    room: u64,
) -> Result<(), Refusal>
    //= program/reason_picture (ok, quiet): `show_found` writes what `place_text` does, and behind the line of a
    //=   reason a row for each operation that the view shows from the first time of the reason's operations to their
    //=   last: whether it is one of them, its bar, and the line of the text that says it, with its number, byte for
    //=   byte.
    //= program/judge_refusals (ok, text, prefix, write, unwritten, refusal, reader)
    ensures ok { OnOk result (DrawsFound view.entry (R.state reader.old).left room
        (W.state writer.old) (W.state writer.new)) }
    ensures quiet { OnOk result ((W.state writer.new).failures ≡ (W.state writer.old).failures) }
    ensures text { IfErr result (TellsFaultOfRecord (R.state reader.old).left) }
    // Where writing fails, a prefix of that is written.
    ensures prefix { IfErr result (λ refusal. refusal ≡ Refusal.Write
        → BeginsFound view.entry (R.state reader.old).left room
        (W.state writer.old) (W.state writer.new)) }
    ensures write { IfErr result (λ refusal. refusal ≡ Refusal.Write
        → GivesUp (W.state writer.old) (W.state writer.new)) }
    // At any other refusal nothing is.
    ensures unwritten { IfErr result
        (λ refusal. refusal ≢ Refusal.Write → writer.new ≡ writer.old) }
    ensures refusal { IfErr result IsRunRefusal }
    ensures reader { EndsReadingFor result (R.state reader.old) (R.state reader.new) }
{
    let given = record_in(alloc, reader)?;
    let found = place(alloc, &given.history, room)?;
    draw_found(alloc, view, &given.text, &given.history, &found, writer)
}
