//! The lines of a text that say the operations of a reason, each with its number.
ghost use Rattle.std.specs.Prelude.{◌≡◌, ◌++◌, ◌+◌, IfOk, OnOk, codes, decimal, map};
ghost use Rattle.std.specs.List.{flat_map};
ghost use Rattle.text_io.specs.Lines.{line};
ghost use Rattle.place_engine.specs.WhyTexts as texts;
ghost use Rattle.place_engine.specs.WhyTexts.{held_line, lines_in, numbered_line, told_line, places_held, why_text};
ghost use Rattle.recording_text.specs.RecordingReading.{bytes_of};

use crate::recorded_texts::header_of;
use placing::{Held, Reason, Span};
use std::alloc::{AllocError, Global};
use text_io::{LineBuffer, line_at};

/// Puts the lines of a text that say the operations of a reason, and the texts held at the start that it names, behind other
/// bytes.
#[tactic(auto, unfolding(crate::specs::WhyTexts::why_text))]
pub(crate) fn push_why(
    alloc: Global,
    into: &mut Vec<u8>,
    held: &[&[u8]],
    text: &[u8],
    reason: &Reason,
) -> Result<(), AllocError>
    ensures { OnOk result (into.new.items
        ≡ into.old.items ++ why_text (map bytes_of held.now) text.now reason.now) }
{
    let lines = lines_of(alloc, text)?;
    let places = places_of(alloc, reason)?;
    push_lines(into, held, &lines, header_of(text), &places)
}

// Puts the lines of operations at these places, of which the first tell what is held, and so many lines come before the others,
// behind other bytes.
fn push_lines(
    into: &mut Vec<u8>,
    held: &[&[u8]],
    lines: &[&[u8]],
    header: u64,
    places: &[u64],
) -> Result<(), AllocError>
    ensures { OnOk result (into.new.items ≡ into.old.items ++ flat_map
        (λ place. told_line (map bytes_of held.now) (map bytes_of lines.now) header place) places.now) }
{
    for place in places {
        push_line(into, held, lines, header, *place)?;
    }
    Ok(())
}

fn push_line(
    into: &mut Vec<u8>,
    held: &[&[u8]],
    lines: &[&[u8]],
    header: u64,
    place: u64,
) -> Result<(), AllocError>
    ensures { OnOk result (into.new.items ≡ into.old.items
        ++ told_line (map bytes_of held.now) (map bytes_of lines.now) header place) }
{
    let count = held.len() as u64;
    if place <= count {
        return push_held_line(into, held, place);
    }
    push_given(into, lines, header, place - count)
}

// Puts the line of what is held at this place behind other bytes.
fn push_held_line(into: &mut Vec<u8>, held: &[&[u8]], place: u64) -> Result<(), AllocError>
    ensures { OnOk result
        (into.new.items ≡ into.old.items ++ held_line (map bytes_of held.now) place) }
{
    let Some(text) = held.get(place.saturating_sub(1) as usize) else {
        return Ok(());
    };
    push_held_text(into, place, text)
}

fn push_held_text(into: &mut Vec<u8>, place: u64, text: &[u8]) -> Result<(), AllocError>
    ensures { OnOk result (into.new.items
        ≡ into.old.items ++ (codes "held " ++ (decimal place ++ codes " " ++ line text.now))) }
{
    into.extend_from_slice(b"held ")?;
    push_numbered(into, place, text)
}

/// Puts the line of the operation at this place, from 1, with its number, behind other bytes, where so many lines come before that of
/// the first one; nothing where there is no such line. It takes memory, and doesn't wait.
pub fn push_given(
    into: &mut Vec<u8>,
    lines: &[&[u8]],
    header: u64,
    place: u64,
) -> Result<(), AllocError>
    ensures { OnOk result (into.new.items
        ≡ into.old.items ++ numbered_line (map bytes_of lines.now) (place + header)) }
{
    // A number that has no room is that of no line.
    let Some(number) = place.checked_add(header) else {
        return Ok(());
    };
    let Some(says) = lines.get(number.saturating_sub(1) as usize) else {
        return Ok(());
    };
    push_numbered(into, number, says)
}

fn push_numbered(into: &mut Vec<u8>, number: u64, says: &[u8]) -> Result<(), AllocError>
    ensures { OnOk result
        (into.new.items ≡ into.old.items ++ (decimal number ++ codes " " ++ line says.now)) }
{
    let mut head = LineBuffer::new();
    head.push_number(number);
    head.push(b" ");
    into.extend_from_slice(head.as_slice())?;
    into.extend_from_slice(says)?;
    into.push(b'\n')?;
    Ok(())
}

/// The lines of a text: what stands between its line feeds. It takes memory, and doesn't wait.
pub fn lines_of(alloc: Global, text: &[u8]) -> Result<Vec<&[u8]>, AllocError>
    ensures { IfOk result (λ lines. map bytes_of lines.items ≡ lines_in text.now) }
{
    let mut lines = Vec::new(alloc);
    let mut rest = text;
    while let Some((line, later)) = line_at(rest) {
        lines.push(line)?;
        rest = later;
    }
    lines.push(rest)?;
    Ok(lines)
}

/// The places of the operations of a reason: that which it is of, and the others, in the order of its line. It takes memory, and
/// doesn't wait.
pub fn places_of(alloc: Global, reason: &Reason) -> Result<Vec<u64>, AllocError>
    ensures { IfOk result (λ places. places.items ≡ texts.places_of reason.now) }
{
    let mut places = Vec::new(alloc);
    match reason {
        Reason::Shape { place }
        | Reason::Span { place }
        | Reason::Reply { place }
        | Reason::Unshut { place } => places.push(*place)?,
        Reason::Sooner { place, others } | Reason::Stuck { place, others } => {
            places.push(*place)?;
            places.extend_from_slice(others)?;
        }
        Reason::Order { place, push, held } => {
            places.extend_from_slice(&[*place, *push])?;
            push_held(&mut places, held)?;
        }
        Reason::Full { place, spans } => {
            places.push(*place)?;
            push_spans(&mut places, spans)?;
        }
        Reason::Late { place, other } | Reason::Twice { place, other } => {
            places.extend_from_slice(&[*place, *other])?;
        }
        Reason::Undrained { place, held } => {
            places.push(*place)?;
            push_held(&mut places, held)?;
        }
    }
    Ok(places)
}

fn push_held(places: &mut Vec<u64>, held: &Held) -> Result<(), AllocError>
    ensures { OnOk result (places.new.items ≡ places.old.items ++ places_held held.now) }
{
    match held {
        Held::Value { push, take } => places.extend_from_slice(&[*push, *take]),
        Held::Left(left) => places.extend_from_slice(left),
    }
}

fn push_spans(places: &mut Vec<u64>, spans: &[Span]) -> Result<(), AllocError>
    ensures { OnOk result (places.new.items
        ≡ places.old.items ++ flat_map (λ span. places_held span.held) spans.now) }
{
    for span in spans {
        push_held(places, &span.held)?;
    }
    Ok(())
}
