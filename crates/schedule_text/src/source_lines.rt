//! The lines of a schedule, as they come from a source.
ghost use Rattle.std.specs.Prelude.{◌≡◌, ◌-◌, ◌≤◌, ◌<◌, ℕ, IfOk, IfErr, MatchOption, OnOk, true};
ghost use Rattle.schedule_text.specs.Streams.{stream, GaveLine, IsOver};
ghost use Rattle.schedule_text.specs.SourceLines.{GaveLines, GaveSaid, IsStopped};
ghost use Rattle.schedule_text.specs.declared.fields.Field.TheVariants.{Nodes};
ghost use Rattle.schedule_text.specs.Readers.{AreSizesInRange, IsHeaderInRange, said_in, sizes_in};
ghost use Rattle.schedule_text.specs.Schedules.{IsBitsOf, header_lines};
ghost use Rattle.counted_ref.specs.Ref.{IsSplit};
ghost use Rattle.schedule_text.specs.Texts.{Due, version, queue, number, happens, version_due, queue_due, number_due, events_left, due_after_queue, bits_said, is_due, IsSaidInRange};

use crate::ahead::Ahead;
use crate::events::event_in;
use crate::fields::{Field, kind_in, number_of};
use crate::held::HeldLine;
use crate::readers::{FIRST_BITS, Header, Sizes, version_of};
use crate::schedules::{Event, Version};
use history::Refusal;
use line_table::Kind;
use text_io::{Source, TextCause};

// What is held of the line behind so many, which is due.
fn held_line<R: Source>(ahead: &mut Ahead, reader: &mut R, before: u64) -> Result<HeldLine, Refusal>
    requires { before ≤ 1000007 }
    ensures ok { IfOk result (λ held. GaveLine held
        (stream ahead.old (R.state reader.old)) (stream ahead.new (R.state reader.new))) }
    ensures err { IfErr result (λ refusal. (due : Due) → is_due due ≡ true → IsStopped before due
        (stream ahead.old (R.state reader.old)) (stream ahead.new (R.state reader.new)) refusal) }
{
    match ahead.next_line(reader)? {
        Some(held) => Ok(held),
        None => Err(Refusal::Text(before + 1, TextCause::End)),
    }
}

// The version that the first line says.
fn version_from<R: Source>(ahead: &mut Ahead, reader: &mut R) -> Result<Version, Refusal>
    ensures ok { IfOk result (λ v. GaveSaid version_due (version v)
        (stream ahead.old (R.state reader.old)) (stream ahead.new (R.state reader.new))) }
    ensures err { IfErr result (IsStopped 0 version_due
        (stream ahead.old (R.state reader.old)) (stream ahead.new (R.state reader.new))) }
{
    let held = held_line(ahead, reader, 0)?;
    let Some(line) = held.line() else {
        return Err(Refusal::Text(1, TextCause::Form));
    };
    match version_of(line) {
        Some(version) => Ok(version),
        None => Err(Refusal::Text(1, TextCause::Form)),
    }
}

// The queue that the line behind the version names.
fn kind_from<R: Source>(ahead: &mut Ahead, reader: &mut R) -> Result<Kind, Refusal>
    ensures ok { IfOk result (λ kind. (v : Version) → GaveSaid (queue_due v) (queue kind)
        (stream ahead.old (R.state reader.old)) (stream ahead.new (R.state reader.new))) }
    ensures err { IfErr result (λ refusal. (v : Version) → IsStopped 1 (queue_due v)
        (stream ahead.old (R.state reader.old)) (stream ahead.new (R.state reader.new)) refusal) }
{
    let held = held_line(ahead, reader, 1)?;
    let Some(line) = held.line() else {
        return Err(Refusal::Text(2, TextCause::Form));
    };
    match kind_in(line) {
        Ok(kind) => Ok(kind),
        Err(cause) => Err(Refusal::Text(2, cause)),
    }
}

// The number of the header that the line behind so many says, where so many bits hold a node.
fn number_from<R: Source>(
    ahead: &mut Ahead,
    reader: &mut R,
    before: u64,
    field: Field,
    bits: u32,
) -> Result<u64, Refusal>
    requires before { before ≤ 1000007 }
    requires split { IsSplit bits }
    ensures ok { IfOk result (λ value. (v : Version)
        → GaveSaid (number_due v bits field) (number field value)
        (stream ahead.old (R.state reader.old)) (stream ahead.new (R.state reader.new))) }
    ensures range { IfOk result (λ value. IsSaidInRange bits (number field value)) }
    ensures err { IfErr result
        (λ refusal. (v : Version) → IsStopped before (number_due v bits field)
        (stream ahead.old (R.state reader.old)) (stream ahead.new (R.state reader.new)) refusal) }
{
    let held = held_line(ahead, reader, before)?;
    let Some(line) = held.line() else {
        return Err(Refusal::Text(before + 1, TextCause::Form));
    };
    match number_of(field, bits, line) {
        Ok(value) => Ok(value),
        Err(cause) => Err(Refusal::Text(before + 1, cause)),
    }
}

// How many bits hold a node, by the line that says it, if one does.
fn bits_from<R: Source>(ahead: &mut Ahead, reader: &mut R, version: Version) -> Result<u32, Refusal>
    ensures lines { IfOk result (λ bits.
        GaveLines (due_after_queue version) (bits_said version bits)
        (stream ahead.old (R.state reader.old)) (stream ahead.new (R.state reader.new))) }
    ensures split { IfOk result IsSplit }
    ensures first { IfOk result (IsBitsOf version) }
    ensures err { IfErr result (IsStopped 2 (due_after_queue version)
        (stream ahead.old (R.state reader.old)) (stream ahead.new (R.state reader.new))) }
{
    match version {
        Version::One => Ok(FIRST_BITS),
        Version::Two => {
            let bits = number_from(ahead, reader, 2, Field::Bits, FIRST_BITS)?;
            Ok(bits as u32)
        }
    }
}

// The sizes, where so many bits hold a node.
#[tactic(auto, using(counted_ref::proofs::Words::span_most))]
fn sizes_from<R: Source>(
    ahead: &mut Ahead,
    reader: &mut R,
    version: Version,
    bits: u32,
) -> Result<Sizes, Refusal>
    requires { IsSplit bits }
    ensures lines { IfOk result (λ sizes. GaveLines (number_due version bits Nodes) (sizes_in sizes)
        (stream ahead.old (R.state reader.old)) (stream ahead.new (R.state reader.new))) }
    ensures range { IfOk result (AreSizesInRange bits) }
    ensures err { IfErr result (IsStopped (header_lines version - 4) (number_due version bits Nodes)
        (stream ahead.old (R.state reader.old)) (stream ahead.new (R.state reader.new))) }
{
    let before = version.header_lines() - 4;
    let nodes = number_from(ahead, reader, before, Field::Nodes, bits)?;
    let limit = number_from(ahead, reader, before + 1, Field::Limit, bits)?;
    let actors = number_from(ahead, reader, before + 2, Field::Actors, bits)?;
    let events = number_from(ahead, reader, before + 3, Field::Events, bits)?;
    Ok(Sizes {
        nodes: nodes as u32,
        limit,
        actors: actors as u16,
        events,
    })
}

// The event that the line behind so many says, by what is held of it.
fn held_event<R: Source>(
    ahead: &mut Ahead,
    reader: &mut R,
    version: Version,
    before: u64,
) -> Result<Event, Refusal>
    requires { before ≤ 1000007 }
    ensures ok { IfOk result (λ event. (left : ℕ)
        → GaveSaid (events_left version left) (happens event)
        (stream ahead.old (R.state reader.old)) (stream ahead.new (R.state reader.new))) }
    ensures err { IfErr result (λ refusal. (left : ℕ) → 0 < left
        → IsStopped before (events_left version left)
        (stream ahead.old (R.state reader.old)) (stream ahead.new (R.state reader.new)) refusal) }
{
    let held = held_line(ahead, reader, before)?;
    let Some(line) = held.line() else {
        return Err(Refusal::Text(before + 1, TextCause::Form));
    };
    match event_in(version, line) {
        Ok(event) => Ok(event),
        Err(cause) => Err(Refusal::Text(before + 1, cause)),
    }
}

// The event that the line behind so many says.
fn event_from<R: Source>(
    ahead: &mut Ahead,
    reader: &mut R,
    version: Version,
    before: u64,
) -> Result<Event, Refusal>
    requires { before ≤ 1000007 }
    ensures ok { IfOk result (λ event. (left : ℕ)
        → GaveSaid (events_left version left) (happens event)
        (stream ahead.old (R.state reader.old)) (stream ahead.new (R.state reader.new))) }
    ensures err { IfErr result (λ refusal. (left : ℕ) → 0 < left
        → IsStopped before (events_left version left)
        (stream ahead.old (R.state reader.old)) (stream ahead.new (R.state reader.new)) refusal) }
{
    let Some((line, _)) = ahead.whole_line() else {
        return held_event(ahead, reader, version, before);
    };
    let count = line.len() + 1;
    let event = event_in(version, line);
    ahead.skip(count);
    match event {
        Ok(event) => Ok(event),
        Err(cause) => Err(Refusal::Text(before + 1, cause)),
    }
}

// Whether nothing follows the last event, behind so many lines.
fn end_from<R: Source>(ahead: &mut Ahead, reader: &mut R, before: u64) -> Result<(), Refusal>
    requires { before ≤ 1000007 }
    ensures ok { OnOk result (IsOver (stream ahead.old (R.state reader.old))
        (stream ahead.new (R.state reader.new))) }
    ensures err { IfErr result (λ refusal. (v : Version) → IsStopped before (events_left v 0)
        (stream ahead.old (R.state reader.old)) (stream ahead.new (R.state reader.new)) refusal) }
{
    if ahead.has_more(reader)? {
        Err(Refusal::Text(before + 1, TextCause::Extra))
    } else {
        Ok(())
    }
}

/// The event that is due behind so many lines, where so many are left; none where none is and nothing follows.
pub fn due_from<R: Source>(
    ahead: &mut Ahead,
    reader: &mut R,
    version: Version,
    before: u64,
    left: u64,
) -> Result<Option<Event>, Refusal>
    requires { before ≤ 1000007 }
    ensures ok { IfOk result (λ next. MatchOption next
        ((left ≡ 0) × IsOver (stream ahead.old (R.state reader.old))
        (stream ahead.new (R.state reader.new)))
        (λ event. (0 < left) × GaveSaid (events_left version left) (happens event)
        (stream ahead.old (R.state reader.old)) (stream ahead.new (R.state reader.new)))) }
    ensures err { IfErr result (IsStopped before (events_left version left)
        (stream ahead.old (R.state reader.old)) (stream ahead.new (R.state reader.new))) }
{
    if left == 0 {
        end_from(ahead, reader, before)?;
        return Ok(None);
    }
    let event = event_from(ahead, reader, version, before)?;
    Ok(Some(event))
}

/// The header.
pub fn header_from<R: Source>(ahead: &mut Ahead, reader: &mut R) -> Result<Header, Refusal>
    ensures ok { IfOk result (λ header. GaveLines version_due (said_in header)
        (stream ahead.old (R.state reader.old)) (stream ahead.new (R.state reader.new))) }
    ensures range { IfOk result IsHeaderInRange }
    ensures err { IfErr result (IsStopped 0 version_due
        (stream ahead.old (R.state reader.old)) (stream ahead.new (R.state reader.new))) }
{
    let version = version_from(ahead, reader)?;
    let kind = kind_from(ahead, reader)?;
    let bits = bits_from(ahead, reader, version)?;
    let sizes = sizes_from(ahead, reader, version, bits)?;
    Ok(Header {
        version,
        kind,
        bits,
        nodes: sizes.nodes,
        limit: sizes.limit,
        actors: sizes.actors,
        events: sizes.events,
    })
}
