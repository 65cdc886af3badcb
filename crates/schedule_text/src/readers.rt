//! The schedule that a text is.
ghost use Rattle.std.specs.Prelude.{◌≡◌, ◌≢◌, ℕ, ◌+◌, ◌-◌, ◌<◌, ◌≤◌, ◌++◌, ◌∷◌, [], All, IfOk, IfErr, MatchOption, MatchResult, OnOk, length, map};
ghost use Rattle.text_io.specs.Grammars.{Begins};
ghost use Rattle.text_io.specs.Lines.{HasNo, line, spaced};
ghost use Rattle.schedule_text.specs.declared.fields.Field.TheVariants.{Nodes};
ghost use Rattle.schedule_text.specs.Readers.{AddsEvent, AreSizesInRange, IsFront, IsHeaderInRange, IsRefusedAfter, IsRefusedText, said_in, sizes_in};
ghost use Rattle.schedule_text.specs.Schedules.{Schedule, IsBitsOf, header_lines};
ghost use Rattle.counted_ref.specs.Ref.{IsSplit};
ghost use Rattle.schedule_text.specs.Texts.{version, queue, number, happens, version_due, queue_due, number_due, events_left, due_after_queue, bits_said};
ghost use Rattle.schedule_text.specs.Texts.{said_words, schedule_lines, schedule_text, IsEventOf, IsInRange, IsSaidInRange};

use crate::events::event_in;
use crate::fields::{Field, kind_in, number_of};
use crate::schedules::{Event, Schedule, Version};
use history::{Op, Refusal};
use line_table::Kind;
use std::alloc::Global;
use text_io::{TextCause, line_at};

/// What the header of a schedule says.
#[derive(Drop)]
pub struct Header {
    pub version: Version,
    pub kind: Kind,
    /// How many of a word's bits hold a node, 16 to 32.
    pub bits: u32,
    pub nodes: u32,
    pub limit: u64,
    pub actors: u16,
    /// The number of events.
    pub events: u64,
}

/// How many bits of a word hold a node where no text says it.
pub const FIRST_BITS: u32 = 24;

/// The sizes that the header says, in its last four lines.
#[derive(Clone, Copy)]
pub struct Sizes {
    pub nodes: u32,
    pub limit: u64,
    pub actors: u16,
    pub events: u64,
}

// The line that stands after so many others, and what follows it.
fn next_line(before: u64, text: &[u8]) -> Result<(&[u8], &[u8]), Refusal>
    requires { before ≤ 1000007 }
    ensures ok { IfOk result (λ found. HasNo 10 found.0.now
        × (text.now ≡ line found.0.now ++ found.1.now)) }
    ensures err { IfErr result (λ refusal. (refusal ≡ Refusal.Text (before + 1) TextCause.End)
        × HasNo 10 text.now) }
{
    line_at(text).ok_or(Refusal::Text(before + 1, TextCause::End))
}

// The version, and what follows its line.
fn version_at(text: &[u8]) -> Result<(Version, &[u8]), Refusal>
    ensures ok { IfOk result (λ found. IsFront version_due (version found.0) text.now found.1.now) }
    ensures err { IfErr result (IsRefusedAfter 0 version_due text.now) }
{
    let (line, rest) = next_line(0, text)?;
    match version_of(line) {
        Some(version) => Ok((version, rest)),
        None => Err(Refusal::Text(1, TextCause::Form)),
    }
}

/// The version that a first line says.
pub fn version_of(line: &[u8]) -> Option<Version>
    ensures { MatchOption result ((v : Version) → line.now ≢ spaced (said_words (version v)))
        (λ v. line.now ≡ spaced (said_words (version v))) }
{
    if line == b"msq schedule 1".as_slice() {
        Some(Version::One)
    } else if line == b"msq schedule 2".as_slice() {
        Some(Version::Two)
    } else {
        None
    }
}

// The queue, and what follows its line.
fn kind_at(text: &[u8]) -> Result<(Kind, &[u8]), Refusal>
    ensures ok { IfOk result (λ found. (v : Version)
        → IsFront (queue_due v) (queue found.0) text.now found.1.now) }
    ensures err { IfErr result (λ refusal. (v : Version)
        → IsRefusedAfter 1 (queue_due v) text.now refusal) }
{
    let (line, rest) = next_line(1, text)?;
    match kind_in(line) {
        Ok(kind) => Ok((kind, rest)),
        Err(cause) => Err(Refusal::Text(2, cause)),
    }
}

// The number of the header that stands after so many lines, and what follows its line.
fn number_at(before: u64, field: Field, bits: u32, text: &[u8]) -> Result<(u64, &[u8]), Refusal>
    requires before { before ≤ 1000007 }
    requires split { IsSplit bits }
    ensures ok { IfOk result (λ found. (v : Version)
        → IsFront (number_due v bits field) (number field found.0) text.now found.1.now) }
    ensures range { IfOk result (λ found. IsSaidInRange bits (number field found.0)) }
    ensures err { IfErr result (λ refusal. (v : Version)
        → IsRefusedAfter before (number_due v bits field) text.now refusal) }
{
    let (line, rest) = next_line(before, text)?;
    match number_of(field, bits, line) {
        Ok(value) => Ok((value, rest)),
        Err(cause) => Err(Refusal::Text(before + 1, cause)),
    }
}

// How many bits hold a node, and what follows the line that says it, if one does.
fn bits_at(version: Version, text: &[u8]) -> Result<(u32, &[u8]), Refusal>
    ensures text { IfOk result (λ found. Begins schedule_lines (due_after_queue version)
        (bits_said version found.0) text.now found.1.now) }
    ensures split { IfOk result (λ found. IsSplit found.0) }
    ensures first { IfOk result (λ found. IsBitsOf version found.0) }
    ensures err { IfErr result (IsRefusedAfter 2 (due_after_queue version) text.now) }
{
    match version {
        Version::One => Ok((FIRST_BITS, text)),
        Version::Two => {
            let (bits, rest) = number_at(2, Field::Bits, FIRST_BITS, text)?;
            Ok((bits as u32, rest))
        }
    }
}

// The sizes where so many bits hold a node, and what follows their lines.
#[tactic(auto, using(counted_ref::proofs::Words::span_most))]
fn sizes_at(version: Version, bits: u32, text: &[u8]) -> Result<(Sizes, &[u8]), Refusal>
    requires { IsSplit bits }
    ensures text { IfOk result (λ found. Begins schedule_lines (number_due version bits Nodes)
        (sizes_in found.0) text.now found.1.now) }
    ensures range { IfOk result (λ found. AreSizesInRange bits found.0) }
    ensures err { IfErr result (IsRefusedAfter (header_lines version - 4)
        (number_due version bits Nodes) text.now) }
{
    let before = version.header_lines() - 4;
    let (nodes, rest) = number_at(before, Field::Nodes, bits, text)?;
    let (limit, rest) = number_at(before + 1, Field::Limit, bits, rest)?;
    let (actors, rest) = number_at(before + 2, Field::Actors, bits, rest)?;
    let (events, rest) = number_at(before + 3, Field::Events, bits, rest)?;
    let sizes = Sizes {
        nodes: nodes as u32,
        limit,
        actors: actors as u16,
        events,
    };
    Ok((sizes, rest))
}

// Adds the event that stands after so many lines, and answers what follows its line.
fn push_event<'a>(
    events: &mut Vec<Event>,
    version: Version,
    before: u64,
    text: &'a [u8],
) -> Result<&'a [u8], Refusal>
    requires { before ≤ 1000007 }
    ensures ok { IfOk result (λ rest.
        AddsEvent version events.old.items events.new.items text.now rest.now) }
    ensures err { IfErr result (λ refusal. (left : ℕ) → 0 < left
        → IsRefusedAfter before (events_left version left) text.now refusal) }
{
    let (line, rest) = next_line(before, text)?;
    match event_in(version, line) {
        Ok(event) => {
            keep(events, event)?;
            Ok(rest)
        }
        Err(cause) => Err(Refusal::Text(before + 1, cause)),
    }
}

pub fn keep(events: &mut Vec<Event>, event: Event) -> Result<(), Refusal>
    ensures ok { OnOk result (events.new.items ≡ events.old.items ++ event ∷ []) }
    ensures err { IfErr result (λ refusal. refusal ≡ Refusal.Memory) }
{
    // The check of the push stops unless the type of a call is named here.
    let _: Option<Op> = None;
    match events.push(event) {
        Ok(()) => Ok(()),
        Err(_) => Err(Refusal::Memory),
    }
}

// So many events, a line each, and what follows them.
fn events_of(
    alloc: Global,
    version: Version,
    count: u64,
    text: &[u8],
) -> Result<(Vec<Event>, &[u8]), Refusal>
    requires { count ≤ 1000000 }
    ensures text { IfOk result (λ found. Begins schedule_lines (events_left version count)
        (map happens found.0.items) text.now found.1.now) }
    ensures count { IfOk result (λ found. length found.0.items ≡ count) }
    ensures range { IfOk result (λ found. All (IsEventOf version) found.0.items) }
    ensures err { IfErr result (IsRefusedAfter (header_lines version) (events_left version count)
        text.now) }
{
    let mut events = Vec::new(alloc);
    let mut rest = text;
    for place in 0..count {
        rest = push_event(&mut events, version, version.header_lines() + place, rest)?;
    }
    Ok((events, rest))
}

// The header, and what follows it.
fn header_of(text: &[u8]) -> Result<(Header, &[u8]), Refusal>
    ensures text { IfOk result (λ found.
        Begins schedule_lines version_due (said_in found.0) text.now found.1.now) }
    ensures range { IfOk result (λ found. IsHeaderInRange found.0) }
    ensures err { IfErr result (IsRefusedAfter 0 version_due text.now) }
{
    let (version, rest) = version_at(text)?;
    let (kind, rest) = kind_at(rest)?;
    let (bits, rest) = bits_at(version, rest)?;
    let (sizes, rest) = sizes_at(version, bits, rest)?;
    let header = Header {
        version,
        kind,
        bits,
        nodes: sizes.nodes,
        limit: sizes.limit,
        actors: sizes.actors,
        events: sizes.events,
    };
    Ok((header, rest))
}

/// The schedule of this text, whole.
///
/// It is refused with `Memory`, and with `Text` exactly where the text is no schedule's: with the
/// number of its first faulty line, from 1, and what is wrong with it. It takes memory as its events
/// come, and goes over the text once. It doesn't wait.
pub fn parse(alloc: Global, text: &[u8]) -> Result<Schedule, Refusal>
    //= texts/schedules (text, range, err, back): A schedule is parsed exactly.
    ensures text { IfOk result (λ schedule. text.now ≡ schedule_text schedule) }
    ensures range { IfOk result IsInRange }
    ensures err { IfErr result (IsRefusedText text.now) }
    // The text of a schedule in range is read as that schedule, unless memory is refused.
    ensures back { (s : Schedule) → IsInRange s → text.now ≡ schedule_text s
        → MatchResult result (λ schedule. schedule ≡ s) (λ refusal. refusal ≡ Refusal.Memory) }
{
    schedule_of(alloc, text)
}

fn schedule_of(alloc: Global, text: &[u8]) -> Result<Schedule, Refusal>
    ensures text { IfOk result (λ schedule. text.now ≡ schedule_text schedule) }
    ensures range { IfOk result IsInRange }
    ensures err { IfErr result (IsRefusedText text.now) }
{
    let (header, rest) = header_of(text)?;
    let (events, rest) = events_of(alloc, header.version, header.events, rest)?;
    if !rest.is_empty() {
        let number = header.version.header_lines() + header.events + 1;
        return Err(Refusal::Text(number, TextCause::Extra));
    }
    Ok(Schedule {
        version: header.version,
        kind: header.kind,
        bits: header.bits,
        nodes: header.nodes,
        limit: header.limit,
        actors: header.actors,
        events,
    })
}
