//! The engine of `place`: from the bytes of a recorded history to what is found of it.
ghost use Rattle.std.specs.Prelude.{◌≡◌, ◌≢◌, IfErr, IfOk, OnOk};
ghost use Rattle.text_io.specs.Blocks.{GivesUp};
ghost use Rattle.text_io.specs.Readings.{EndsReadingFor};
ghost use Rattle.engine_faults.specs.Faults.{IsRunRefusal};
ghost use Rattle.place_engine.specs.Given.{TellsFaultOfRecord};
ghost use Rattle.place_engine.specs.Places.{TellsPlaces, BeginsPlaces};
ghost use Rattle.place_engine.specs.Overlaps.{SaysOverlap, TellsOverlap};

use crate::found_texts::tell;
use crate::histories::record_in;
use crate::overlaps::overlap_in;
use history::Refusal;
use placing::{Placed, place};
use std::alloc::Global;
use text_io::{Sink, Source};

/// What is told of a text.
#[derive(Drop)]
pub struct Told {
    pub found: Placed,
    /// Two lines, the first before the second, that say operations of one thread which overlap: a name for several threads, or a
    /// recorder's mistake. Every recording is placed as if each operation were of a thread of its own.
    pub overlap: Option<(u64, u64)>,
}

/// Finds linearization points for the recorded history whose text the reader gives, or which the recording stands for
/// whose text it gives, and writes that history with them; or writes one line, `no` with a reason why there are none, or
/// `open` where neither was found. Points in the text are not read. It may search for an order, by states that take at most so
/// many bytes. Behind a reason it writes the lines of the text that say its operations, each with its number, where these are
/// asked for.
///
/// It is refused, in this order, by `Memory`, as soon as a growth is refused; `Read`, where a call of the reader
/// fails; `Text`, where the bytes are neither a history nor a recording; `Write`, where a call of the writer fails or
/// takes nothing. It takes memory; whether it waits is up to the reader and the writer.
pub fn place_text<R: Source, W: Sink>(
    alloc: Global,
    reader: &mut R,
    writer: &mut W,
    room: u64,
    tells_why: bool,
) -> Result<Told, Refusal>
    //= program/place (ok, quiet): `place_text` answers points, a reason or that it is open, for the history read or the
    //=   recording's, and its text is written. With points the history is one of a queue, with a reason it isn't. It is
    //=   open only where no operation is wrong by itself: states that the search reaches, each listed once, take as many
    //=   bytes as the room or more, or it found an order by which a history of at most 2,147,483,648 operations isn't one
    //=   of a queue.
    //= program/judge_refusals (ok, text, prefix, write, unwritten, refusal, reader)
    //= program/why (ok, prefix): Where they are asked for, `place_text` writes behind the line of a reason, for each operation of it,
    //=   the number of its line in the text and that line itself, byte for byte (`why_text`).
    ensures ok { IfOk result (λ told. TellsPlaces (R.state reader.old).left room tells_why
        (W.state writer.old) (W.state writer.new) told.found) }
    //= program/overlap: Two lines of a recording that are told say operations of one thread that overlap, the first
    //=   before the second; where none are told, no two lines of a recording do.
    ensures overlap { IfOk result (λ told. SaysOverlap (R.state reader.old).left told.overlap) }
    ensures quiet { OnOk result ((W.state writer.new).failures ≡ (W.state writer.old).failures) }
    // A text is refused by its first faulty line.
    ensures text { IfErr result (TellsFaultOfRecord (R.state reader.old).left) }
    // Where writing fails, a prefix of the text that tells an answer is written.
    ensures prefix { IfErr result (λ refusal. refusal ≡ Refusal.Write
        → BeginsPlaces (R.state reader.old).left room tells_why (W.state writer.old)
        (W.state writer.new)) }
    ensures write { IfErr result (λ refusal. refusal ≡ Refusal.Write
        → GivesUp (W.state writer.old) (W.state writer.new)) }
    // At any other refusal nothing is.
    ensures unwritten { IfErr result
        (λ refusal. refusal ≢ Refusal.Write → writer.new ≡ writer.old) }
    ensures refusal { IfErr result IsRunRefusal }
    ensures reader { EndsReadingFor result (R.state reader.old) (R.state reader.new) }
{
    let given = record_in(alloc, reader)?;
    let found = place(alloc, &given.history, room)?;
    let overlap = overlap_of(alloc, &given.text)?;
    tell(alloc, &found, tells_why, &[], &given.text, writer)?;
    Ok(Told { found, overlap })
}

// Two lines of a text that say operations of one thread which overlap; none where there are none.
pub(crate) fn overlap_of(alloc: Global, text: &[u8]) -> Result<Option<(u64, u64)>, Refusal>
    ensures ok { IfOk result (TellsOverlap text.now) }
    ensures only_memory { IfErr result (λ refusal. refusal ≡ Refusal.Memory) }
{
    match overlap_in(alloc, text) {
        Ok(found) => Ok(found),
        Err(_) => Err(Refusal::Memory),
    }
}
