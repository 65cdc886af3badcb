//! The text that tells what is found of a recorded history.
ghost use Rattle.std.specs.Prelude.{◌≡◌, ◌≤◌, ◌++◌, ◌⊎◌, IfErr, IfOk, OnOk, length, map};
ghost use Rattle.std.specs.Io.KnownBytes.{Appends};
ghost use Rattle.std.specs.List.{flat_map};
ghost use Rattle.history_text.specs.HistoryText.{history_text};
ghost use Rattle.text_io.specs.Blocks.{TakesPrefix, GivesUp};
ghost use Rattle.place_engine.specs.FoundTexts as texts;
ghost use Rattle.place_engine.specs.FoundTexts.{place_text, held_text, head_text, others_text, no_text, unknown_name, open_text};
ghost use Rattle.place_engine.specs.WhyTexts.{reason_text, answer_text};
ghost use Rattle.place_engine.specs.GivenParts.{given_part};
ghost use Rattle.recording_text.specs.RecordingReading.{bytes_of};

use crate::given::behind;
use crate::why::push_why;
use history::{Refusal, Stamped};
use history_text::print_history;
use placing::{Held, Placed, Reason, Span, Unknown};
use std::alloc::{AllocError, Global};
use text_io::{LineBuffer, Sink, send};

/// Writes the text that tells what is found of a text, of a queue that holds these at the start: a history with points, or one
/// line, and behind a reason the lines of its operations, where they are asked for.
///
/// It is refused by `Memory`, and then nothing is written; or by `Write`, where a call of the writer fails or takes nothing. It
/// takes memory for a reason; whether it waits is up to the writer.
pub fn tell<W: Sink>(
    alloc: Global,
    found: &Placed,
    tells_why: bool,
    held: &[&[u8]],
    text: &[u8],
    writer: &mut W,
) -> Result<(), Refusal>
    ensures ok { OnOk result (Appends (W.state writer.old).contents (W.state writer.new).contents
        (answer_text (map bytes_of held.now) tells_why text.now found.now)) }
    ensures quiet { OnOk result ((W.state writer.new).failures ≡ (W.state writer.old).failures) }
    ensures only { IfErr result
        (λ refusal. (refusal ≡ Refusal.Memory) ⊎ (refusal ≡ Refusal.Write)) }
    ensures unwritten { IfErr result
        (λ refusal. refusal ≡ Refusal.Memory → writer.new ≡ writer.old) }
    ensures prefix { IfErr result (λ refusal. refusal ≡ Refusal.Write
        → TakesPrefix (W.state writer.old).contents (W.state writer.new).contents
        (answer_text (map bytes_of held.now) tells_why text.now found.now)) }
    ensures cause { IfErr result (λ refusal. refusal ≡ Refusal.Write
        → GivesUp (W.state writer.old) (W.state writer.new)) }
{
    match found {
        Placed::History(new) => tell_points(alloc, held.len(), new, writer),
        Placed::Impossible(reason) => match reason_lines(alloc, reason, tells_why, held, text) {
            Ok(lines) => send(&lines, writer),
            Err(_) => Err(Refusal::Memory),
        },
        Placed::Open(cause) => send(open_line(*cause).as_slice(), writer),
    }
}

// Writes the history of the operations behind so many, with their points.
fn tell_points<W: Sink>(
    alloc: Global,
    count: usize,
    new: &[Stamped],
    writer: &mut W,
) -> Result<(), Refusal>
    ensures ok { OnOk result (Appends (W.state writer.old).contents (W.state writer.new).contents
        (history_text (given_part count new.now))) }
    ensures quiet { OnOk result ((W.state writer.new).failures ≡ (W.state writer.old).failures) }
    ensures only { IfErr result
        (λ refusal. (refusal ≡ Refusal.Memory) ⊎ (refusal ≡ Refusal.Write)) }
    ensures unwritten { IfErr result
        (λ refusal. refusal ≡ Refusal.Memory → writer.new ≡ writer.old) }
    ensures prefix { IfErr result (λ refusal. refusal ≡ Refusal.Write
        → TakesPrefix (W.state writer.old).contents (W.state writer.new).contents
        (history_text (given_part count new.now))) }
    ensures cause { IfErr result (λ refusal. refusal ≡ Refusal.Write
        → GivesUp (W.state writer.old) (W.state writer.new)) }
{
    if count == 0 {
        return print_history(new, writer);
    }
    match behind(alloc, count, new) {
        Ok(given) => print_history(&given, writer),
        Err(_) => Err(Refusal::Memory),
    }
}

// The line that tells a reason, and those of its operations, where they are asked for.
fn reason_lines(
    alloc: Global,
    reason: &Reason,
    tells_why: bool,
    held: &[&[u8]],
    text: &[u8],
) -> Result<Vec<u8>, AllocError>
    ensures { IfOk result (λ lines. lines.items
        ≡ reason_text (map bytes_of held.now) tells_why text.now reason.now) }
{
    let mut lines = no_line(alloc, reason, held.len() as u64)?;
    if tells_why {
        push_why(alloc, &mut lines, held, text, reason)?;
    }
    Ok(lines)
}

/// The line that tells a reason, where the first so many operations push what is held at the start. It takes memory, and doesn't
/// wait.
pub fn no_line(alloc: Global, reason: &Reason, count: u64) -> Result<Vec<u8>, AllocError>
    ensures { IfOk result (λ line. line.items ≡ no_text count reason.now) }
{
    let mut line = Vec::new(alloc);
    line.extend_from_slice(head(reason, count).as_slice())?;
    push_others(&mut line, reason, count)?;
    line.push(b'\n')?;
    Ok(line)
}

// The place of the operation that a reason is of, and the cause.
#[tactic(auto, unfolding(crate::specs::FoundTexts::head_text))]
fn head(reason: &Reason, count: u64) -> LineBuffer
    ensures { result ≡ head_text count reason.now }
{
    let mut line = LineBuffer::new();
    line.push(b"no");
    line.push(place_word(count, place_of(reason)).as_slice());
    line.push(b" ");
    line.push(cause_of(reason));
    line
}

fn place_of(reason: &Reason) -> u64
    ensures { result ≡ texts.place_of reason.now }
{
    match reason {
        Reason::Shape { place }
        | Reason::Span { place }
        | Reason::Reply { place }
        | Reason::Sooner { place, .. }
        | Reason::Order { place, .. }
        | Reason::Full { place, .. }
        | Reason::Late { place, .. }
        | Reason::Twice { place, .. }
        | Reason::Unshut { place }
        | Reason::Undrained { place, .. }
        | Reason::Stuck { place, .. } => *place,
    }
}

fn cause_of(reason: &Reason) -> &'static [u8]
    ensures text { result.now ≡ texts.cause_of reason.now }
    ensures short { length result.now ≤ 9 }
{
    match reason {
        Reason::Shape { .. } => b"Shape",
        Reason::Span { .. } => b"Span",
        Reason::Reply { .. } => b"Reply",
        Reason::Sooner { .. } => b"Sooner",
        Reason::Order { .. } => b"Order",
        Reason::Full { .. } => b"Full",
        Reason::Late { .. } => b"Late",
        Reason::Twice { .. } => b"Twice",
        Reason::Unshut { .. } => b"Unshut",
        Reason::Undrained { .. } => b"Undrained",
        Reason::Stuck { .. } => b"Stuck",
    }
}

// Puts the places of the other operations that a reason names behind a text.
fn push_others(text: &mut Vec<u8>, reason: &Reason, count: u64) -> Result<(), AllocError>
    ensures { OnOk result (text.new.items ≡ text.old.items ++ others_text count reason.now) }
{
    match reason {
        Reason::Shape { .. } | Reason::Span { .. } | Reason::Reply { .. } | Reason::Unshut { .. } =>
            Ok(()),
        Reason::Sooner { others, .. } | Reason::Stuck { others, .. } => {
            push_places(text, count, others)
        }
        Reason::Order { push, held, .. } => {
            push_place(text, count, *push)?;
            push_held(text, count, held)
        }
        Reason::Full { spans, .. } => push_spans(text, count, spans),
        Reason::Late { other, .. } | Reason::Twice { other, .. } => push_place(text, count, *other),
        Reason::Undrained { held, .. } => push_held(text, count, held),
    }
}

fn push_place(text: &mut Vec<u8>, count: u64, place: u64) -> Result<(), AllocError>
    ensures { OnOk result (text.new.items ≡ text.old.items ++ place_text count place) }
{
    text.extend_from_slice(place_word(count, place).as_slice())
}

// A place with a space before it: of the first so many, that it is held, and of the others counted behind these.
fn place_word(count: u64, place: u64) -> LineBuffer
    ensures text { result ≡ place_text count place }
    ensures short { length result ≤ 26 }
{
    let mut word = LineBuffer::new();
    if place <= count {
        word.push(b" held ");
        word.push_number(place);
    } else {
        word.push(b" ");
        word.push_number(place - count);
    }
    word
}

fn push_places(text: &mut Vec<u8>, count: u64, places: &[u64]) -> Result<(), AllocError>
    ensures { OnOk result
        (text.new.items ≡ text.old.items ++ flat_map (place_text count) places.now) }
{
    for place in places {
        push_place(text, count, *place)?;
    }
    Ok(())
}

// Puts the places of the pushes of values that stay behind a text.
fn push_held(text: &mut Vec<u8>, count: u64, held: &Held) -> Result<(), AllocError>
    ensures { OnOk result (text.new.items ≡ text.old.items ++ held_text count held.now) }
{
    match held {
        Held::Value { push, .. } => push_place(text, count, *push),
        Held::Left(places) => push_places(text, count, places),
    }
}

fn push_spans(text: &mut Vec<u8>, count: u64, spans: &[Span]) -> Result<(), AllocError>
    ensures { OnOk result (text.new.items
        ≡ text.old.items ++ flat_map (λ span. held_text count span.held) spans.now) }
{
    for span in spans {
        push_held(text, count, &span.held)?;
    }
    Ok(())
}

// The line that tells why nothing was found.
#[tactic(auto, unfolding(crate::specs::FoundTexts::open_text))]
fn open_line(cause: Unknown) -> LineBuffer
    ensures { result ≡ open_text cause }
{
    let mut line = LineBuffer::new();
    line.push(b"open ");
    line.push(name_of(cause));
    line.push(b"\n");
    line
}

fn name_of(cause: Unknown) -> &'static [u8]
    ensures text { result.now ≡ unknown_name cause }
    ensures short { length result.now ≤ 8 }
{
    match cause {
        Unknown::Room => b"Room",
        Unknown::Unplaced => b"Unplaced",
    }
}
