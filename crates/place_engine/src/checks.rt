//! The engine of `check`: from the bytes of a history to the verdict on it.
ghost use Rattle.std.specs.Prelude.{◌≡◌, ◌≢◌, ◌≤◌, ◌⊎◌, IfErr, IfOk, OnOk, length};
ghost use Rattle.std.specs.Io.KnownBytes.{Appends};
ghost use Rattle.text_io.specs.Blocks.{TakesPrefix, GivesUp};
ghost use Rattle.engine_faults.specs.Faults.{IsRunRefusal};
ghost use Rattle.place_engine.specs.Checks.{cause_name, no_text, verdict_text, IsTextOf, TellsVerdict, BeginsVerdict, TellsFirstFault};
ghost use Rattle.text_io.specs.Readings.{EndsReadingFor};

use crate::history_texts::HistoryTexts;
use history::{Cause, Refusal, Stamped, Verdict, check};
use report::history_table;
use std::alloc::Global;
use text_io::{LineBuffer, Sink, Source, parse_source, send};

/// Judges the history whose text the reader gives, and writes the verdict: for Yes the table of the
/// history, and else one line, `no` with the operation's place in the list and what is wrong with it.
///
/// It is refused, in this order, by `Memory`, as soon as a growth is refused; `Read`, where a call of
/// the reader fails; `Text`, where the bytes are no history; `Write`, where a call of the writer fails
/// or takes nothing. It takes memory; whether it waits is up to the reader and the writer.
pub fn check_text<R: Source, W: Sink>(
    alloc: Global,
    reader: &mut R,
    writer: &mut W,
) -> Result<Verdict, Refusal>
    //= program/check (ok, quiet): `check_text` answers the verdict on the history read, Yes exactly where that is placed
    //=   and legal, and its text is written.
    //= program/judge_refusals (ok, text, prefix, write, unwritten, refusal, reader): `check_text`, `place_text`,
    //=   `show_found` and `history_page` refuse a faulty text with its first faulty line and what is wrong with it,
    //=   unless memory or reading is refused. They and `place_holding` have written a prefix of the text due at
    //=   `Write`, where a write failed or took nothing, and nothing at any other refusal. At Ok, and at each refusal
    //=   but `Memory` and `Read`, the reader has told its end and didn't fail; at `Read` one call of it failed, at
    //=   `Memory` none.
    ensures ok { IfOk result (TellsVerdict (R.state reader.old).left (W.state writer.old)
        (W.state writer.new)) }
    ensures quiet { OnOk result ((W.state writer.new).failures ≡ (W.state writer.old).failures) }
    // A text is refused by its first faulty line.
    ensures text { IfErr result (TellsFirstFault (R.state reader.old).left) }
    // Where writing fails, a prefix of the text that tells the verdict is written.
    ensures prefix { IfErr result (λ refusal. refusal ≡ Refusal.Write
        → BeginsVerdict (R.state reader.old).left (W.state writer.old) (W.state writer.new)) }
    ensures write { IfErr result (λ refusal. refusal ≡ Refusal.Write
        → GivesUp (W.state writer.old) (W.state writer.new)) }
    // At any other refusal nothing is.
    ensures unwritten { IfErr result
        (λ refusal. refusal ≢ Refusal.Write → writer.new ≡ writer.old) }
    ensures refusal { IfErr result IsRunRefusal }
    ensures reader { EndsReadingFor result (R.state reader.old) (R.state reader.new) }
{
    let history = history_in(alloc, reader)?;
    let verdict = check(alloc, &history)?;
    tell(alloc, &history, verdict, writer)?;
    Ok(verdict)
}

/// The history whose text a source gives.
///
/// It is refused, in this order, by `Memory`, as soon as a growth is refused; `Read`, where a call of
/// the reader fails; `Text`, where the bytes are no history. It takes memory; whether it waits is up
/// to the reader.
pub fn history_in<R: Source>(alloc: Global, reader: &mut R) -> Result<Vec<Stamped>, Refusal>
    //= program/readings (*): What is read at Ok is, by `history_in`, a history in range whose text the bytes were; by
    //=   `record_in` that, or the one of a recording in range whose text they were; by `recording_in` the bytes, and
    //=   that they are a recording's, no clause says. Refusals are `Memory`, `Read`, and `Text` with the first faulty
    //=   line and what is wrong with it. At Ok and at `Text` the reader has told its end and didn't fail; at `Read`
    //=   one call of it failed, at `Memory` none.
    ensures ok { IfOk result (λ history. IsTextOf (R.state reader.old).left history.items) }
    ensures text { IfErr result (TellsFirstFault (R.state reader.old).left) }
    ensures unwritten { IfErr result (λ refusal. refusal ≢ Refusal.Write) }
    ensures refusal { IfErr result IsRunRefusal }
    ensures reader { EndsReadingFor result (R.state reader.old) (R.state reader.new) }
{
    parse_source::<HistoryTexts, R>(alloc, reader)
}

/// Writes the text that tells a verdict on a history.
fn tell<W: Sink>(
    alloc: Global,
    history: &[Stamped],
    verdict: Verdict,
    writer: &mut W,
) -> Result<(), Refusal>
    ensures ok { OnOk result (Appends (W.state writer.old).contents (W.state writer.new).contents
        (verdict_text history.now verdict)) }
    ensures quiet { OnOk result ((W.state writer.new).failures ≡ (W.state writer.old).failures) }
    ensures only { IfErr result
        (λ refusal. (refusal ≡ Refusal.Memory) ⊎ (refusal ≡ Refusal.Write)) }
    ensures unwritten { IfErr result
        (λ refusal. refusal ≡ Refusal.Memory → writer.new ≡ writer.old) }
    ensures prefix { IfErr result (λ refusal. refusal ≡ Refusal.Write
        → TakesPrefix (W.state writer.old).contents (W.state writer.new).contents
        (verdict_text history.now verdict)) }
    ensures cause { IfErr result (λ refusal. refusal ≡ Refusal.Write
        → GivesUp (W.state writer.old) (W.state writer.new)) }
{
    match verdict {
        Verdict::Yes => history_table(alloc, history, writer),
        Verdict::No { place, cause } => send(no_line(place, cause).as_slice(), writer),
    }
}

#[tactic(auto, unfolding(crate::specs::Checks::no_text))]
fn no_line(place: u64, cause: Cause) -> LineBuffer
    ensures { result ≡ no_text place cause }
{
    let mut line = LineBuffer::new();
    line.push(b"no ");
    line.push_number(place);
    line.push(b" ");
    line.push(name_of(cause));
    line.push(b"\n");
    line
}

fn name_of(cause: Cause) -> &'static [u8]
    ensures text { result.now ≡ cause_name cause }
    ensures short { length result.now ≤ 6 }
{
    match cause {
        Cause::Shape => b"Shape",
        Cause::Span => b"Span",
        Cause::Shared => b"Shared",
        Cause::Reply => b"Reply",
    }
}
