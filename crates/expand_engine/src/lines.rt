//! What a line of a recipe says, where it is due.
ghost use Rattle.std.specs.Prelude.{◌≡◌, ◌≢◌, ◌≤◌, ℕ, ◌∷◌, [], MatchResult, codes};
ghost use Rattle.counted_ref.specs.Ref.{IsSplit};
ghost use Rattle.schedule_text.specs.Texts.{IsSaidInRange as IsScheduleInRange, number, said_words as schedule_words};
ghost use Rattle.text_io.specs.Lines.{words_of};
ghost use Rattle.text_io.specs.LineReadings.{IsWrong, ReadsLine};
ghost use Rattle.expand_engine.specs.Recipes.{HasRoom, IsActInRange, IsActSaid, IsDueInRange, IsSaidInRange, SaysWhere, said_words};

use crate::act_lines::{act_in, opens_repeat};
use crate::dues::spent;
use crate::recipes::{Due, MOST_STEPS, Said};
use history::Op;
use schedule_text::{Event, Field, kind_in, number_of};
use text_io::TextCause;

/// What a line says, less its comment, where this is due.
pub fn said_in(due: Due, line: &[u8]) -> Result<Said, TextCause>
    requires { IsDueInRange due }
    ensures { ReadsLine (SaysWhere due line.now) (IsSaidInRange due) result }
{
    if line.is_empty() {
        return nothing_in(due);
    }
    match due {
        Due::Version => version_in(line),
        Due::Queue => queue_in(line),
        Due::Number(bits, field) => field_in(bits, field, line),
        Due::Act(steps) => act_outside(steps, line),
        Due::Repeated(steps, times) => act_inside(steps, times, line),
        Due::Nothing => Err(TextCause::Form),
    }
}

// Where a line says nothing: all but the first may.
fn nothing_in(due: Due) -> Result<Said, TextCause>
    ensures { ReadsLine (SaysWhere due []) (IsSaidInRange due) result }
{
    match due {
        Due::Version | Due::Nothing => Err(TextCause::Form),
        _ => Ok(Said::Nothing),
    }
}

fn version_in(line: &[u8]) -> Result<Said, TextCause>
    ensures { ReadsLine (SaysWhere Due.Version line.now) (IsSaidInRange Due.Version) result }
{
    if line == b"msq schedule 3".as_slice() {
        Ok(Said::Version)
    } else {
        Err(TextCause::Form)
    }
}

fn queue_in(line: &[u8]) -> Result<Said, TextCause>
    requires { line.now ≢ [] }
    ensures { ReadsLine (SaysWhere Due.Queue line.now) (IsSaidInRange Due.Queue) result }
{
    match kind_in(line) {
        Ok(kind) => Ok(Said::Queue(kind)),
        Err(cause) => Err(cause),
    }
}

fn field_in(bits: u32, field: Field, line: &[u8]) -> Result<Said, TextCause>
    requires split { IsSplit bits }
    requires some { line.now ≢ [] }
    ensures { ReadsLine (SaysWhere (Due.Number bits field) line.now)
        (IsSaidInRange (Due.Number bits field)) result }
{
    match number_of(field, bits, line) {
        Ok(value) => Ok(Said::Number(field, value)),
        Err(cause) => unless_other(bits, field, line, cause),
    }
}

// What a line says that doesn't say the number of the header that is due, for this cause.
fn unless_other(bits: u32, field: Field, line: &[u8], cause: TextCause) -> Result<Said, TextCause>
    requires split { IsSplit bits }
    requires some { line.now ≢ [] }
    requires wrong { IsWrong (λ value. words_of line.now ≡ schedule_words (number field value))
        (λ value. IsScheduleInRange bits (number field value)) cause }
    ensures { ReadsLine (SaysWhere (Due.Number bits field) line.now)
        (IsSaidInRange (Due.Number bits field)) result }
{
    match cause {
        TextCause::Form => other_in(bits, field, line),
        _ => Err(cause),
    }
}

// What a line says that is to say a number of the header, and says another one, if any: where the bits are due, the nodes.
fn other_in(bits: u32, field: Field, line: &[u8]) -> Result<Said, TextCause>
    requires split { IsSplit bits }
    requires some { line.now ≢ [] }
    requires none { (value : ℕ) → words_of line.now ≢ schedule_words (number field value) }
    ensures { ReadsLine (SaysWhere (Due.Number bits field) line.now)
        (IsSaidInRange (Due.Number bits field)) result }
{
    match field {
        Field::Bits => nodes_in(bits, line),
        _ => Err(TextCause::Form),
    }
}

// What a line says where the bits are due, and it doesn't say them.
fn nodes_in(bits: u32, line: &[u8]) -> Result<Said, TextCause>
    requires split { IsSplit bits }
    requires some { line.now ≢ [] }
    requires none { (value : ℕ) → words_of line.now ≢ schedule_words (number Field.Bits value) }
    ensures { ReadsLine (SaysWhere (Due.Number bits Field.Bits) line.now)
        (IsSaidInRange (Due.Number bits Field.Bits)) result }
{
    match number_of(Field::Nodes, bits, line) {
        Ok(value) => Ok(Said::Number(Field::Nodes, value)),
        Err(cause) => Err(cause),
    }
}

// What is said where no repeat is open.
fn act_outside(steps: u64, line: &[u8]) -> Result<Said, TextCause>
    requires few { steps ≤ 100000000 }
    requires some { line.now ≢ [] }
    ensures { ReadsLine (SaysWhere (Due.Act steps) line.now) (IsSaidInRange (Due.Act steps)) result }
{
    match act_in(line) {
        Ok(said) => with_room(steps, 1, said),
        Err(cause) => Err(cause),
    }
}

// What is said in a repeat.
fn act_inside(steps: u64, times: u64, line: &[u8]) -> Result<Said, TextCause>
    requires few { steps ≤ 100000000 }
    requires times { times ≤ 1000000 }
    requires some { line.now ≢ [] }
    ensures { ReadsLine (SaysWhere (Due.Repeated steps times) line.now)
        (IsSaidInRange (Due.Repeated steps times)) result }
{
    if opens_repeat(line) {
        return Err(TextCause::Form);
    }
    match act_in(line) {
        Ok(said) => with_room(steps, times, said),
        Err(cause) => Err(cause),
    }
}

// What is said, where there is room for it.
fn with_room(steps: u64, times: u64, said: Said) -> Result<Said, TextCause>
    requires few { steps ≤ 100000000 }
    requires times { times ≤ 1000000 }
    ensures { MatchResult result (λ kept. (kept ≡ said) × HasRoom steps times said)
        (λ cause. (cause ≡ TextCause.Range) × ¬ HasRoom steps times said) }
{
    // The check of the match stops unless the types of its parts are named here.
    let _: Option<Op> = None;
    let _: Option<Event> = None;
    if said.is_act() && spent(steps, times, &said) > MOST_STEPS {
        return Err(TextCause::Range);
    }
    Ok(said)
}
