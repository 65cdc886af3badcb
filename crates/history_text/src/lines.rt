//! Reading the lines of a history.
ghost use Rattle.std.specs.Prelude.{ℕ, Some};
ghost use Rattle.text_io.specs.Numerals.{IsWithin};
ghost use Rattle.text_io.specs.LineReadings.{ReadsBack, Reads, ReadsWords, ReadsLine};
ghost use Rattle.history_text.specs.HistoryLines.{call_words, IsActor, IsBody, IsStep, IsCallInRange};
ghost use Rattle.history_text.specs.HistoryLines.{IsStepInRange, IsReplyInRange, IsOperationInRange, IsCount};
ghost use Rattle.history_text.specs.HistoryReading.{labelled_number, labelled_step};
ghost use Rattle.history_text.specs.HistoryReading.{AreOfOperation, SaysOperation, SaysCount};

use crate::replies::reply_of;
use history::{Body, MOST_ACTOR, MOST_BODY, Op, Reply, Stamped};
use text_io::{TextCause, Words, counted, kept_or_range, number_in};

const MOST_OPERATIONS: u64 = 1_000_000;

/// How many operations the first line says that there are.
pub fn count_of(line: &[u8]) -> Result<u64, TextCause>
    ensures { ReadsLine (SaysCount line.now) IsCount result }
{
    counted(line, b"history", MOST_OPERATIONS)
}

/// The operation that a line says.
pub fn operation_of(line: &[u8]) -> Result<Stamped, TextCause>
    ensures { ReadsLine (SaysOperation line.now) IsOperationInRange result }
{
    // The check of the result stops unless these types are named here.
    let _: (Option<Op>, Option<Reply>) = (None, None);
    kept_or_range(parts_of(Words::of(line)))
}

fn parts_of(mut words: Words) -> Result<Option<Stamped>, TextCause>
    ensures { Reads (AreOfOperation words.entry) IsOperationInRange result }
{
    let actor = words.number(1, MOST_ACTOR)?;
    let op = call_of(&mut words)?;
    let first = labelled(&mut words, b"first", 1, u64::MAX)?;
    let last = step_of(&mut words, b"last")?;
    let at = step_of(&mut words, b"at")?;
    words.expect_word(b"reply")?;
    let reply = reply_of(words)?;
    Ok(stamped(actor, op, first, last, at, reply))
}

/// The operation of these parts; none where one of them is out of range.
fn stamped(
    actor: Option<u64>,
    op: Option<Op>,
    first: Option<u64>,
    last: Option<Option<u64>>,
    at: Option<Option<u64>>,
    reply: Option<Option<Reply>>,
) -> Option<Stamped>
    ensures { (o : Stamped) → ReadsBack IsActor o.actor actor → ReadsBack IsCallInRange o.op op
        → ReadsBack IsStep o.first first → ReadsBack IsStepInRange o.last last
        → ReadsBack IsStepInRange o.at at → ReadsBack IsReplyInRange o.reply reply
        → ReadsBack IsOperationInRange o result }
{
    Some(Stamped {
        actor: u16::try_from(actor?).ok()?,
        op: op?,
        first: first?,
        last: last?,
        at: at?,
        reply: reply?,
    })
}

/// The number behind this word.
fn labelled(words: &mut Words, label: &[u8], low: u64, high: u64) -> Result<Option<u64>, TextCause>
    ensures { ReadsWords (labelled_number label.now) (IsWithin low high) words.old words.new result }
{
    words.expect_word(label)?;
    words.number(low, high)
}

/// The step behind this word, or none for a dash. Takes no memory, and doesn't wait.
pub fn step_of(words: &mut Words, label: &[u8]) -> Result<Option<Option<u64>>, TextCause>
    ensures { ReadsWords (labelled_step label.now) IsStepInRange words.old words.new result }
{
    words.expect_word(label)?;
    let Some(word) = words.next_word() else {
        return Err(TextCause::Form);
    };
    if word == b"-".as_slice() {
        return Ok(Some(None));
    }
    Ok(taken_step(number_in(word, 1, u64::MAX)?))
}

fn taken_step(step: Option<u64>) -> Option<Option<u64>>
    ensures { (n : ℕ) → ReadsBack IsStep n step → ReadsBack IsStepInRange (Some n) result }
{
    Some(Some(step?))
}

/// The call that the next words are.
fn call_of(words: &mut Words) -> Result<Option<Op>, TextCause>
    ensures { ReadsWords call_words IsCallInRange words.old words.new result }
{
    let Some(word) = words.next_word() else {
        return Err(TextCause::Form);
    };
    if word == b"deq".as_slice() {
        return Ok(Some(Op::Deq));
    }
    if word == b"shut".as_slice() {
        return Ok(Some(Op::Shut));
    }
    if word != b"enq".as_slice() {
        return Err(TextCause::Form);
    }
    let body = words.number(0, MOST_BODY)?;
    Ok(enqueue(body))
}

fn enqueue(body: Option<u64>) -> Option<Op>
    ensures { (n : ℕ) → ReadsBack IsBody n body → ReadsBack IsCallInRange (Op.Enq n) result }
{
    Some(Op::Enq(Body::new(body?)?))
}
