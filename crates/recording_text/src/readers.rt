//! The history that a recording stands for, from its text.
ghost use Rattle.std.specs.Prelude.{◌≡◌, ◌++◌, ◌∷◌, ◌≤◌, [], IfOk, IfErr, MatchResult, OnOk, length};
ghost use Rattle.recording_text.specs.RecordingLines.{IsFirstFaultOfRecording};
ghost use Rattle.recording_text.specs.RecordingReading.{StandsFor, StandsBehind, IsAfterCount, AddsOperation};
ghost use Rattle.recording_text.specs.RecordingReading.{IsWrongOperation, known_by};

use crate::lines::{count_of, expect_version, operation_of};
use crate::numbers::numbered;
use history::{Op, Refusal, Reply, Stamped};
use indexmap::IndexSet;
use std::alloc::Global;
use text_io::{TextCause, due_line};

/// The history that the recording of a text stands for, in the order of its lines: each operation is the actor 1's, and
/// each text of a value is a number, by the order in which the texts first occur.
///
/// It is refused with `Memory` where room for an operation or a text is refused, and with `Text` exactly where the text
/// is no recording's: with the number of its first faulty line, from 1, and what is wrong with it. It goes over the text
/// once, takes memory for the operations and the different texts read so far, and doesn't wait.
pub fn parse_recording(alloc: Global, text: &[u8]) -> Result<Vec<Stamped>, Refusal>
    //= texts/recordings (ok, err): A recording is parsed exactly, to the history that it stands for.
    ensures ok { IfOk result (λ ops. StandsFor text.now ops.items) }
    ensures err { IfErr result (IsFirstFaultOfRecording text.now) }
{
    let mut known = IndexSet::new(alloc);
    parse_behind(alloc, &mut known, text)
}

/// The operations of a recording, with the numbers of its texts among those that are known; new ones become known, behind the
/// others.
pub(crate) fn parse_behind<'a>(
    alloc: Global,
    known: &mut IndexSet<&'a [u8]>,
    text: &'a [u8],
) -> Result<Vec<Stamped>, Refusal>
    requires { length (known_by known.old) ≤ 1000000 }
    ensures ok { IfOk result
        (λ ops. StandsBehind (known_by known.old) (known_by known.new) text.now ops.items) }
    ensures err { IfErr result (IsFirstFaultOfRecording text.now) }
{
    let (count, mut rest) = first_lines(text)?;
    let mut operations = Vec::new(alloc);
    for place in 0..count {
        let (line, later) = due_line(3 + place, rest)?;
        keep(known, &mut operations, 3 + place, line)?;
        rest = later;
    }
    if rest.is_empty() {
        Ok(operations)
    } else {
        Err(Refusal::Text(3 + count, TextCause::Extra))
    }
}

/// How many operations the second line says that there are, and what follows it.
fn first_lines(text: &[u8]) -> Result<(u64, &[u8]), Refusal>
    ensures ok { IfOk result (λ found. IsAfterCount text.now found.0 found.1.now) }
    ensures err { IfErr result (IsFirstFaultOfRecording text.now) }
{
    let (version, later) = due_line(1, text)?;
    if let Err(cause) = expect_version(version) {
        return Err(Refusal::Text(1, cause));
    }
    let (line, rest) = due_line(2, later)?;
    match count_of(line) {
        Ok(count) => Ok((count, rest)),
        Err(cause) => Err(Refusal::Text(2, cause)),
    }
}

/// Adds the operation of a line, which has this number.
fn keep<'a>(
    known: &mut IndexSet<&'a [u8]>,
    operations: &mut Vec<Stamped>,
    number: u64,
    line: &'a [u8],
) -> Result<(), Refusal>
    requires { length (known_by known.old) ≤ 3000000 }
    ensures ok { OnOk result (AddsOperation (known_by known.old) (known_by known.new)
        operations.old.items operations.new.items line.now) }
    ensures err { IfErr result (IsWrongOperation number line.now) }
{
    // The check of the calls below stops unless these types are named here.
    let _: (Option<Op>, Option<Reply>) = (None, None);
    match operation_of(line) {
        Ok(read) => push_to(operations, numbered(known, read)?),
        Err(cause) => Err(Refusal::Text(number, cause)),
    }
}

pub(crate) fn push_to(operations: &mut Vec<Stamped>, operation: Stamped) -> Result<(), Refusal>
    ensures { MatchResult result
        (λ done. operations.new.items ≡ operations.old.items ++ operation ∷ [])
        (λ refusal. refusal ≡ Refusal.Memory) }
{
    // And that of the push.
    let _: (Option<Op>, Option<Reply>) = (None, None);
    match operations.push(operation) {
        Ok(()) => Ok(()),
        Err(_) => Err(Refusal::Memory),
    }
}
