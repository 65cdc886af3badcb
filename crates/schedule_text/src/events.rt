//! The event of a schedule's line.
ghost use Rattle.std.specs.Prelude.{◌≡◌, ◌≢◌, ℕ, [], ◌∷◌, IfSome, IsNone, MatchResult, codes};
ghost use Rattle.text_io.specs.Lines.{words_of};
ghost use Rattle.text_io.specs.LineReadings.{ReadsBack, Reads, ReadsLine, ReadsWords};
ghost use Rattle.text_io.specs.Numerals.{IsWithin};
ghost use Rattle.text_io.specs.WordsLeft.{number_words};
ghost use Rattle.line_table.specs.Names.{name_of};
ghost use Rattle.history.specs.declared.operations.Op.{Op};
ghost use Rattle.schedule_text.specs.declared.schedules.Version.{Version};
ghost use Rattle.line_table.specs.declared.lines.Line.{Line};
ghost use Rattle.schedule_text.specs.Texts.{call_words, IsActor, IsBegun, IsCallInRange, IsEventInRange, is_named, IsNamed, Tells, SpellsEvent};

use crate::schedules::{Event, Version};
use history::{Body, MOST_ACTOR, MOST_BODY, Op};
use line_table::{Line, Section};
use text_io::{TextCause, Words};

const MOST_STEPS: u64 = 1_000_000;

/// The event that a line of a text of this version says, without its line feed. Takes no memory and doesn't wait.
pub fn event_in(version: Version, line: &[u8]) -> Result<Event, TextCause>
    ensures { ReadsLine (Tells version (words_of line.now)) IsEventInRange result }
{
    // The check of what follows stops unless the type of a call is named here.
    let _: Option<Op> = None;
    let mut words = Words::of(line);
    let event = match words.next_word() {
        Some(name) => event_of(version, name, words)?,
        None => return Err(TextCause::Form),
    };
    event.ok_or(TextCause::Range)
}

// The event of this name; none where a number is out of its range.
fn event_of(version: Version, name: &[u8], words: Words) -> Result<Option<Event>, TextCause>
    ensures { Reads (SpellsEvent version name.now words.entry) IsEventInRange result }
{
    match name {
        b"begin" => begin_in(version, words),
        b"step" => step_in(version, words),
        b"steps" => steps_in(words),
        b"give" => give_in(words),
        _ => Err(TextCause::Form),
    }
}

fn begin_in(version: Version, words: Words) -> Result<Option<Event>, TextCause>
    ensures { Reads (SpellsEvent version (codes "begin") words.entry) IsEventInRange result }
{
    let mut words = words;
    let actor = actor_in(&mut words)?;
    let call = call_in(version, words)?;
    Ok(begin_of(actor, call))
}

fn begin_of(actor: Option<u16>, call: Option<Op>) -> Option<Event>
    ensures { (a : ℕ) (c : Op) → ReadsBack IsActor a actor → ReadsBack IsCallInRange c call
        → ReadsBack IsEventInRange (Event.Begin a c) result }
{
    Some(Event::Begin(actor?, call?))
}

// The call of these words; none where its body is out of its range.
fn call_in(version: Version, words: Words) -> Result<Option<Op>, TextCause>
    ensures { Reads (λ op. IsBegun version op × (words.entry ≡ call_words op))
        IsCallInRange result }
{
    let mut words = words;
    let call = match words.next_word() {
        Some(b"enq") => return enqueue_in(words),
        Some(b"deq") => Op::Deq,
        Some(b"shut") if version.tells_shuts() => Op::Shut,
        _ => return Err(TextCause::Form),
    };
    words.expect_end()?;
    Ok(Some(call))
}

fn step_in(version: Version, words: Words) -> Result<Option<Event>, TextCause>
    ensures { Reads (SpellsEvent version (codes "step") words.entry) IsEventInRange result }
{
    let mut words = words;
    let actor = actor_in(&mut words)?;
    let line = line_in(version, words)?;
    Ok(step_of(actor, line))
}

fn step_of(actor: Option<u16>, line: Line) -> Option<Event>
    ensures { (a : ℕ) → ReadsBack IsActor a actor
        → ReadsBack IsEventInRange (Event.Step a line) result }
{
    Some(Event::Step(actor?, line))
}

// The line of the table whose name is the one word.
fn line_in(version: Version, words: Words) -> Result<Line, TextCause>
    ensures { MatchResult result (λ line. IsNamed version line × (words.entry ≡ name_of line ∷ []))
        (λ cause. (cause ≡ TextCause.Form)
        × ((line : Line) → IsNamed version line → words.entry ≢ name_of line ∷ [])) }
{
    let mut words = words;
    let name = words.next_word().ok_or(TextCause::Form)?;
    let line = line_named(version, name).ok_or(TextCause::Form)?;
    words.expect_end()?;
    Ok(line)
}

// The line of this name, where it has one in a text of this version.
fn line_named(version: Version, name: &[u8]) -> Option<Line>
    ensures found { IfSome result (λ line. IsNamed version line × (name.now ≡ name_of line)) }
    ensures none { IsNone result → (line : Line) → IsNamed version line → name.now ≢ name_of line }
{
    let line = Line::of_name(name)?;
    if has_name(version, line.section()) {
        Some(line)
    } else {
        None
    }
}

// Whether the lines of this section have names in a text of this version.
fn has_name(version: Version, section: Section) -> bool
    ensures { result ≡ is_named version section }
{
    match section {
        Section::Shut | Section::LockedShut => version.tells_shuts(),
        _ => true,
    }
}

fn steps_in(words: Words) -> Result<Option<Event>, TextCause>
    ensures { (version : Version)
        → Reads (SpellsEvent version (codes "steps") words.entry) IsEventInRange result }
{
    let mut words = words;
    let actor = actor_in(&mut words)?;
    let count = words.number(1, MOST_STEPS)?;
    words.expect_end()?;
    Ok(steps_of(actor, count))
}

fn steps_of(actor: Option<u16>, count: Option<u64>) -> Option<Event>
    requires { (k : ℕ) × ReadsBack (IsWithin 1 1000000) k count }
    ensures { (a k : ℕ) → ReadsBack IsActor a actor → ReadsBack (IsWithin 1 1000000) k count
        → ReadsBack IsEventInRange (Event.Steps a k) result }
{
    Some(Event::Steps(actor?, count? as u32))
}

fn give_in(words: Words) -> Result<Option<Event>, TextCause>
    ensures { (version : Version)
        → Reads (SpellsEvent version (codes "give") words.entry) IsEventInRange result }
{
    let mut words = words;
    let actor = actor_in(&mut words)?;
    words.expect_end()?;
    Ok(give_of(actor))
}

fn give_of(actor: Option<u16>) -> Option<Event>
    ensures { (a : ℕ) → ReadsBack IsActor a actor → ReadsBack IsEventInRange (Event.Give a) result }
{
    Some(Event::Give(actor?))
}

fn actor_in(words: &mut Words) -> Result<Option<u16>, TextCause>
    ensures { ReadsWords number_words IsActor words.old words.new result }
{
    match words.number(1, MOST_ACTOR)? {
        Some(actor) => Ok(Some(actor as u16)),
        None => Ok(None),
    }
}

// The enqueue of the body that is the one word left.
fn enqueue_in(words: Words) -> Result<Option<Op>, TextCause>
    ensures { (version : Version) → Reads (λ op. IsBegun version op
        × (codes "enq" ∷ words.entry ≡ call_words op)) IsCallInRange result }
{
    let mut words = words;
    let number = words.number(0, MOST_BODY)?;
    words.expect_end()?;
    Ok(enqueue_of(number))
}

fn enqueue_of(number: Option<u64>) -> Option<Op>
    ensures { (n : ℕ) → ReadsBack (IsWithin 0 281474976710655) n number
        → ReadsBack IsCallInRange (Op.Enq n) result }
{
    Some(Op::Enq(Body::new(number?)?))
}
