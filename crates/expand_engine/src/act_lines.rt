//! The act, repeat or end that a line says.
ghost use Rattle.std.specs.Prelude.{◌≡◌, ◌≢◌, ℕ, List, ◌∷◌, [], true, false, MatchResult, codes};
ghost use Rattle.line_table.specs.Names.{name_of};
ghost use Rattle.line_table.specs.declared.lines.Line.{Line};
ghost use Rattle.schedule_text.specs.Texts.{IsActor};
ghost use Rattle.text_io.specs.Lines.{words_of};
ghost use Rattle.text_io.specs.Numerals.{IsWithin};
ghost use Rattle.text_io.specs.LineReadings.{Reads, ReadsBack, ReadsLine, ReadsWords};
ghost use Rattle.text_io.specs.WordsLeft.{number_words};
ghost use Rattle.expand_engine.specs.Recipes.{IsActInRange, IsActSaid, SpellsAct, SpellsEvent, said_words};

use crate::recipes::{MOST_TIMES, Said};
use history::{MOST_ACTOR, Op};
use line_table::Line;
use schedule_text::{Event, Version, event_in};
use text_io::{TextCause, Words};

/// The act, the repeat or the end that a line says.
pub fn act_in(line: &[u8]) -> Result<Said, TextCause>
    ensures { ReadsLine (λ said. IsActSaid said × (words_of line.now ≡ said_words said))
        IsActInRange result }
{
    // The check of what follows stops unless the types of its parts are named here.
    let _: Option<Op> = None;
    let _: Option<Event> = None;
    let mut words = Words::of(line);
    let said = match words.next_word() {
        Some(name) => act_of(name, words, line)?,
        None => return Err(TextCause::Form),
    };
    said.ok_or(TextCause::Range)
}

/// Whether a line begins as one that opens a repeat.
pub fn opens_repeat(line: &[u8]) -> bool
    ensures yes { result ≡ true → (rest : List (List ℕ)) × (words_of line.now ≡ codes "repeat" ∷ rest) }
    ensures no { result ≡ false → (rest : List (List ℕ)) → words_of line.now ≢ codes "repeat" ∷ rest }
{
    let mut words = Words::of(line);
    words.expect_word(b"repeat").is_ok()
}

// What a line says that begins with this word; none where a number is out of its range.
#[tactic(auto, using(crate::proofs::Spoken::reads_event))]
fn act_of(name: &[u8], words: Words, line: &[u8]) -> Result<Option<Said>, TextCause>
    requires { words_of line.now ≡ name.now ∷ words }
    ensures { Reads (SpellsAct name.now words.entry) IsActInRange result }
{
    if name == b"until".as_slice() {
        until_in(words)
    } else if name == b"finish".as_slice() {
        finish_in(words)
    } else if name == b"repeat".as_slice() {
        repeat_in(words)
    } else if name == b"end".as_slice() {
        end_in(words)
    } else {
        happens_in(line)
    }
}

// The event that a line says.
fn happens_in(line: &[u8]) -> Result<Option<Said>, TextCause>
    ensures { Reads (SpellsEvent (words_of line.now)) IsActInRange result }
{
    match event_in(Version::Two, line) {
        Ok(event) => Ok(Some(Said::Happens(event))),
        Err(TextCause::Range) => Ok(None),
        Err(_) => Err(TextCause::Form),
    }
}

fn until_in(words: Words) -> Result<Option<Said>, TextCause>
    ensures { Reads (SpellsAct (codes "until") words.entry) IsActInRange result }
{
    let mut words = words;
    let actor = actor_in(&mut words)?;
    let line = line_in(words)?;
    Ok(until_of(actor, line))
}

fn until_of(actor: Option<u16>, line: Line) -> Option<Said>
    ensures { (a : ℕ) → ReadsBack IsActor a actor → ReadsBack IsActInRange (Said.Until a line) result }
{
    Some(Said::Until(actor?, line))
}

// The line of the table whose name is the one word.
fn line_in(words: Words) -> Result<Line, TextCause>
    ensures { MatchResult result (λ line. words.entry ≡ name_of line ∷ [])
        (λ cause. (cause ≡ TextCause.Form) × ((line : Line) → words.entry ≢ name_of line ∷ [])) }
{
    let mut words = words;
    let name = words.next_word().ok_or(TextCause::Form)?;
    let line = Line::of_name(name).ok_or(TextCause::Form)?;
    words.expect_end()?;
    Ok(line)
}

fn finish_in(words: Words) -> Result<Option<Said>, TextCause>
    ensures { Reads (SpellsAct (codes "finish") words.entry) IsActInRange result }
{
    let mut words = words;
    let actor = actor_in(&mut words)?;
    words.expect_end()?;
    Ok(finish_of(actor))
}

fn finish_of(actor: Option<u16>) -> Option<Said>
    ensures { (a : ℕ) → ReadsBack IsActor a actor → ReadsBack IsActInRange (Said.Finish a) result }
{
    Some(Said::Finish(actor?))
}

fn actor_in(words: &mut Words) -> Result<Option<u16>, TextCause>
    ensures { ReadsWords number_words IsActor words.old words.new result }
{
    match words.number(1, MOST_ACTOR)? {
        Some(actor) => Ok(Some(actor as u16)),
        None => Ok(None),
    }
}

fn repeat_in(words: Words) -> Result<Option<Said>, TextCause>
    ensures { Reads (SpellsAct (codes "repeat") words.entry) IsActInRange result }
{
    let mut words = words;
    let times = words.number(1, MOST_TIMES)?;
    words.expect_end()?;
    Ok(repeat_of(times))
}

fn repeat_of(times: Option<u64>) -> Option<Said>
    ensures { (n : ℕ) → ReadsBack (IsWithin 1 1000000) n times
        → ReadsBack IsActInRange (Said.Repeat n) result }
{
    Some(Said::Repeat(times?))
}

fn end_in(words: Words) -> Result<Option<Said>, TextCause>
    ensures { Reads (SpellsAct (codes "end") words.entry) IsActInRange result }
{
    words.expect_end()?;
    Ok(Some(Said::End))
}
