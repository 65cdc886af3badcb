//! The engine of `show --html --history`: from a reader's bytes to a writer's.
ghost use Rattle.std.specs.Prelude.{◌≡◌, ◌≢◌, IfErr, IfOk, OnOk};
ghost use Rattle.engine_faults.specs.Faults.{IsRunRefusal};
ghost use Rattle.page_engine.specs.Histories.{BeginsHistoryPage, WritesHistoryPage, IsFoundOf};
ghost use Rattle.place_engine.specs.Given.{TellsFaultOfRecord};
ghost use Rattle.text_io.specs.Blocks.{GivesUp};
ghost use Rattle.text_io.specs.Readings.{EndsReadingFor};

use crate::engine::{Frame, write_page};
use crate::kept::KeptText;
use history::Refusal;
use place_engine::{Given, record_in, tell};
use placing::place;
use std::alloc::Global;
use text_io::{Sink, Source};

/// The text of a recorded history and, behind it, what is found of it by a search whose states take at most so many bytes, in memory.
fn content_of(alloc: Global, given: &Given, room: u64) -> Result<KeptText, Refusal>
    ensures found { IfOk result (λ kept.
        IsFoundOf given.now.text.items given.now.history.items room kept.bytes.items) }
    ensures only_memory { IfErr result (λ refusal. refusal ≡ Refusal.Memory) }
{
    let found = place(alloc, &given.history, room)?;
    let mut kept = KeptText::new(alloc);
    kept.put(&given.text)?;
    // A sink in memory takes nothing only where that is refused.
    match tell(alloc, &found, true, &[], &given.text, &mut kept) {
        Ok(()) => Ok(kept),
        Err(_) => Err(Refusal::Memory),
    }
}

/// Writes a page around the text of the recorded history, or of the recording, that the reader gives, and what `place_text` would
/// write of it, with the lines of a reason's operations.
///
/// Both are kept in memory until the page is written. It is refused, in this order, by `Memory`, as soon as a growth is refused;
/// `Read`, where a call of the reader fails; `Text`, where the bytes are neither a history nor a recording; `Write`, where a call
/// of the writer fails or takes nothing. It takes memory; whether it waits is up to the reader and the writer.
pub fn history_page<R: Source, W: Sink>(
    alloc: Global,
    reader: &mut R,
    writer: &mut W,
    frame: &Frame<'_>,
    room: u64,
) -> Result<(), Refusal>
    //= program/history_page (ok, quiet): The page that is written of a history or a recording read is its frame's first part, that
    //=   text, byte for byte, the text that tells an answer to it, with the lines of a reason's operations, and its frame's second part.
    //= program/judge_refusals (ok, text, prefix, write, unwritten, refusal, reader)
    ensures ok { OnOk result (WritesHistoryPage frame.now (R.state reader.old).left room
        (W.state writer.old) (W.state writer.new)) }
    ensures quiet { OnOk result ((W.state writer.new).failures ≡ (W.state writer.old).failures) }
    ensures text { IfErr result (TellsFaultOfRecord (R.state reader.old).left) }
    // Where writing fails, a prefix of that page is written.
    ensures prefix { IfErr result (λ refusal. refusal ≡ Refusal.Write
        → BeginsHistoryPage frame.now (R.state reader.old).left room
        (W.state writer.old) (W.state writer.new)) }
    ensures write { IfErr result (λ refusal. refusal ≡ Refusal.Write
        → GivesUp (W.state writer.old) (W.state writer.new)) }
    // At any other refusal nothing is.
    ensures unwritten { IfErr result
        (λ refusal. refusal ≢ Refusal.Write → writer.new ≡ writer.old) }
    ensures refusal { IfErr result IsRunRefusal }
    ensures reader { EndsReadingFor result (R.state reader.old) (R.state reader.new) }
{
    let given = record_in(alloc, reader)?;
    let content = content_of(alloc, &given, room)?;
    write_page(frame, content.as_slice(), writer)
}
