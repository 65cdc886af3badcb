//! The history of a recording of a queue that holds texts at the start.
ghost use Rattle.std.specs.Prelude.{◌≡◌, ◌≤◌, ◌++◌, [], IfErr, IfOk, MatchOption, OnOk, length, map};
ghost use Rattle.recording_text.specs.Numbers.{stamped_by, with_texts};
ghost use Rattle.recording_text.specs.RecordingReading.{bytes_of, known_by, said_of};
ghost use Rattle.recording_text.specs.HeldTexts as texts;
ghost use Rattle.recording_text.specs.HeldTexts.{StandsHolding, IsFaultHolding, IsBeyondIn, HasRoom, pushes_from, push_at, stamped_later};

use crate::lines::{ReadCall, ReadOperation};
use crate::numbers::numbered;
use crate::readers::{parse_behind, push_to};
use crate::replies::ReadReply;
use history::{Op, Refusal, Reply, Stamped};
use indexmap::IndexSet;
use std::alloc::Global;
use text_io::TextCause;

/// The history of a recording of a queue that holds texts at the start, the front first: that of the longer recording, which first
/// pushes them, at the numbers from 1 on, and then has each operation so many numbers later.
///
/// It is refused with `Memory` where room is refused, and with `Text` where the text is no recording's, by its first faulty line, or
/// where the numbers of an operation leave no room below 2^64, with `Range`, by the first such line. Takes memory, and doesn't wait.
pub fn parse_holding<'a>(
    alloc: Global,
    held: &[&'a [u8]],
    text: &'a [u8],
) -> Result<Vec<Stamped>, Refusal>
    requires { length held.now ≤ 1000000 }
    //= texts/holding (ok, err): A recording of a queue that holds texts at the start is parsed exactly, to the history of the
    //=   longer recording that pushes them first; or refused with the first line whose numbers leave no room for these
    //=   pushes.
    ensures ok { IfOk result (λ ops. StandsHolding (map bytes_of held.now) text.now ops.items) }
    ensures err { IfErr result (IsFaultHolding (length held.now) text.now) }
{
    let mut known = IndexSet::new(alloc);
    let mut history = pushes_of(alloc, &mut known, held)?;
    let operations = parse_behind(alloc, &mut known, text)?;
    push_later(&mut history, held.len() as u64, &operations)?;
    Ok(history)
}

/// The pushes of texts that are held, the first at 1, with the numbers that the texts get.
fn pushes_of<'a>(
    alloc: Global,
    known: &mut IndexSet<&'a [u8]>,
    held: &[&'a [u8]],
) -> Result<Vec<Stamped>, Refusal>
    requires few { length held.now ≤ 1000000 }
    requires none { known_by known.old ≡ [] }
    ensures learnt { OnOk result (known_by known.new ≡ with_texts [] (map bytes_of held.now)) }
    ensures ok { IfOk result (λ ops. ops.items
        ≡ map (stamped_by (known_by known.new)) (pushes_from 1 (map bytes_of held.now))) }
    ensures err { IfErr result (λ refusal. refusal ≡ Refusal.Memory) }
{
    // The check of the calls below stops unless these types are named here.
    let _: (Option<Op>, Option<Reply>) = (None, None);
    let mut history = Vec::new(alloc);
    for (index, text) in held.iter().enumerate() {
        let push = numbered(known, held_push(index as u64 + 1, text))?;
        push_to(&mut history, push)?;
    }
    Ok(history)
}

/// The push of a text that is held, at this number.
fn held_push(number: u64, text: &[u8]) -> ReadOperation<'_>
    ensures { said_of result ≡ push_at number text.now }
{
    ReadOperation {
        name: b"held",
        call: ReadCall::Push(text),
        first: number,
        last: Some(number),
        reply: Some(ReadReply::Done),
    }
}

/// Adds operations, so many numbers later.
fn push_later(history: &mut Vec<Stamped>, count: u64, operations: &[Stamped]) -> Result<(), Refusal>
    ensures ok { OnOk result (history.new.items
        ≡ history.old.items ++ map (stamped_later count) operations.now) }
    ensures err { IfErr result (IsBeyondIn count operations.now) }
{
    for (index, operation) in operations.iter().enumerate() {
        let Some(later) = later_by(count, operation) else {
            return Err(Refusal::Text(3 + index as u64, TextCause::Range));
        };
        push_to(history, later)?;
    }
    Ok(())
}

/// The operation so many numbers later; none where these have no room.
fn later_by(count: u64, operation: &Stamped) -> Option<Stamped>
    ensures { MatchOption result (¬ HasRoom count operation.now.first operation.now.last)
        (λ later. (later ≡ stamped_later count operation.now)
        × HasRoom count operation.now.first operation.now.last) }
{
    let first = operation.first.checked_add(count)?;
    let last = match operation.last {
        Some(last) => Some(last.checked_add(count)?),
        None => None,
    };
    Some(Stamped {
        actor: operation.actor,
        op: operation.op,
        first,
        last,
        at: operation.at,
        reply: operation.reply,
    })
}
