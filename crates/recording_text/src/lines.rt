//! Reading the lines of a recording.
ghost use Rattle.std.specs.Prelude.{◌≡◌, ◌≢◌, ◌∷◌, All, IfErr, MatchBool, OnOk};
ghost use Rattle.text_io.specs.Numerals.{IsWithin};
ghost use Rattle.text_io.specs.LineReadings.{ReadsBack, ReadsLine};
ghost use Rattle.history_text.specs.HistoryLines.{IsStep, IsStepInRange};
ghost use Rattle.recording_text.specs.Recordings.{Recorded};
ghost use Rattle.recording_text.specs.RecordingLines as lines;
ghost use Rattle.recording_text.specs.RecordingLines.{IsTextByte, IsShortText, IsCallInRange};
ghost use Rattle.recording_text.specs.RecordingLines.{IsToldInRange, IsOperationInRange, IsInTime};
ghost use Rattle.recording_text.specs.RecordingReading.{said_of, said_call, said_told, bytes_of, KeepsAs};
ghost use Rattle.recording_text.specs.RecordingReading.{ReadsText, ReadsCall, ReadsWordsOfOperation, ReadsOperation};
ghost use Rattle.recording_text.specs.RecordingReading.{SaysCount, IsCount, KeepsPush};

use crate::replies::{ReadReply, reply_of};
use history_text::step_of;
use text_io::{TextCause, Words, counted, kept_or_range};

const MOST_OPERATIONS: u64 = 1_000_000;

/// How many bytes a text has at most.
pub(crate) const LONGEST_TEXT: usize = 64;

/// A call as its line says it: a text still lies in the line.
#[derive(Clone, Copy)]
pub enum ReadCall<'a> {
    Push(&'a [u8]),
    Pop,
    Shut,
}

/// An operation as its line says it.
#[derive(Clone, Copy)]
pub struct ReadOperation<'a> {
    pub name: &'a [u8],
    pub call: ReadCall<'a>,
    pub first: u64,
    pub last: Option<u64>,
    pub reply: Option<ReadReply<'a>>,
}

/// Refused with `Form` where a line isn't the first one of a recording.
pub fn expect_version(line: &[u8]) -> Result<(), TextCause>
    ensures ok { OnOk result (line.now ≡ lines.version_line) }
    ensures err { IfErr result
        (λ cause. (cause ≡ TextCause.Form) × (line.now ≢ lines.version_line)) }
{
    if line == b"msq record 1".as_slice() {
        Ok(())
    } else {
        Err(TextCause::Form)
    }
}

/// How many operations the second line says that there are.
pub fn count_of(line: &[u8]) -> Result<u64, TextCause>
    ensures { ReadsLine (SaysCount line.now) IsCount result }
{
    counted(line, b"operations", MOST_OPERATIONS)
}

/// The operation that a line says.
pub fn operation_of(line: &[u8]) -> Result<ReadOperation<'_>, TextCause>
    ensures { ReadsOperation line.now result }
{
    kept_or_range(parts_of(Words::of(line)))
}

fn parts_of(mut words: Words) -> Result<Option<ReadOperation>, TextCause>
    ensures { ReadsWordsOfOperation words.entry result }
{
    let name = text_of(&mut words)?;
    let call = call_of(&mut words)?;
    words.expect_word(b"from")?;
    let first = words.number(1, u64::MAX)?;
    let last = step_of(&mut words, b"to")?;
    words.expect_word(b"reply")?;
    let reply = reply_of(words)?;
    Ok(operation(name, call, first, last, reply))
}

/// The operation of these parts; none where one of them is out of range.
fn operation<'a>(
    name: Option<&'a [u8]>,
    call: Option<ReadCall<'a>>,
    first: Option<u64>,
    last: Option<Option<u64>>,
    reply: Option<Option<ReadReply<'a>>>,
) -> Option<ReadOperation<'a>>
    ensures { (r : Recorded) → KeepsAs bytes_of IsShortText r.name name.entry
        → KeepsAs said_call IsCallInRange r.call call.entry → ReadsBack IsStep r.first first
        → ReadsBack IsStepInRange r.last last → KeepsAs said_told IsToldInRange r.told reply.entry
        → KeepsAs said_of IsOperationInRange r result }
{
    let (first, last) = (first?, last?);
    if !is_in_time(first, last) {
        return None;
    }
    Some(ReadOperation {
        name: name?,
        call: call?,
        first,
        last,
        reply: reply?,
    })
}

/// Whether a call that ended didn't do so before it began.
fn is_in_time(first: u64, last: Option<u64>) -> bool
    ensures { MatchBool result (IsInTime first last) (¬ IsInTime first last) }
{
    match last {
        Some(last) => first <= last,
        None => true,
    }
}

fn is_text_byte(byte: u8) -> bool
    ensures { result ≡ lines.is_text_byte byte }
{
    byte.is_ascii_alphanumeric() || byte == b'-' || byte == b'.' || byte == b'_'
}

pub(crate) fn are_text_bytes(word: &[u8]) -> bool
    ensures { MatchBool result (All IsTextByte word.now) (¬ All IsTextByte word.now) }
{
    word.iter().all(|byte| is_text_byte(*byte))
}

/// The text that the next word is; none where it is too long.
pub fn text_of<'a>(words: &mut Words<'a>) -> Result<Option<&'a [u8]>, TextCause>
    ensures { ReadsText words.old words.new result }
{
    let Some(word) = words.next_word() else {
        return Err(TextCause::Form);
    };
    if word.is_empty() || !are_text_bytes(word) {
        return Err(TextCause::Form);
    }
    Ok(short(word))
}

fn short(word: &[u8]) -> Option<&[u8]>
    ensures { KeepsAs bytes_of IsShortText word.now result }
{
    if word.len() <= LONGEST_TEXT {
        Some(word)
    } else {
        None
    }
}

/// The call that the next words are.
fn call_of<'a>(words: &mut Words<'a>) -> Result<Option<ReadCall<'a>>, TextCause>
    ensures { ReadsCall words.old words.new result }
{
    let Some(word) = words.next_word() else {
        return Err(TextCause::Form);
    };
    if word == b"deq".as_slice() {
        return Ok(Some(ReadCall::Pop));
    }
    if word == b"shut".as_slice() {
        return Ok(Some(ReadCall::Shut));
    }
    if word != b"enq".as_slice() {
        return Err(TextCause::Form);
    }
    Ok(push_of(text_of(words)?))
}

fn push_of(text: Option<&[u8]>) -> Option<ReadCall>
    ensures { KeepsPush text.entry result }
{
    Some(ReadCall::Push(text?))
}
