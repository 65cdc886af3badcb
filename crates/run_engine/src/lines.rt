//! The lines of a trace.
ghost use Rattle.std.specs.Prelude.{◌≡◌, ◌+◌, ◌<◌, ◌≤◌, ◌^◌, ◌++◌, [], Some, IsSome, IfErr, OnOk, codes, length, decimal};
ghost use Rattle.history.specs.declared.refusals.Refusal.TheVariants.{Memory};
ghost use Rattle.step_machine.specs.Accesses.{word_named};
ghost use Rattle.step_machine.specs.Machine.{next};
ghost use Rattle.step_machine.specs.declared.actors.Move.TheVariants.{Give, Step};
ghost use Rattle.run_engine.specs.Steps.{access_text, contents_text, end_told, header_text, line_told, move_text, word_text};

use history::Refusal;
use history_text::push_reply;
use schedule_text::{Schedule, name_of_kind};
use step_machine::{Contents, Move, Stepped, WordName, WorldOf, step_in};
use text_io::{LINE_ROOM, LineBuffer};

/// Puts a number in decimal at the end of a line. A turn puts up to four digits, since the lines are mostly digits.
fn push_digits(line: &mut LineBuffer, number: u64)
    requires { length line.old + length (decimal number) ≤ LINE_ROOM }
    ensures { line.new ≡ line.old ++ decimal number }
{
    if number < 10 {
        line.push(&[b'0' + number as u8]);
    } else if number < 100 {
        line.push(&[b'0' + (number / 10) as u8, b'0' + (number % 10) as u8]);
    } else if number < 10_000 {
        push_digits(line, number / 100);
        line.push(&[b'0' + (number / 10 % 10) as u8, b'0' + (number % 10) as u8]);
    } else {
        let high = number / 100;
        push_digits(line, high / 100);
        line.push(&[
            b'0' + (high / 10 % 10) as u8,
            b'0' + (high % 10) as u8,
            b'0' + (number / 10 % 10) as u8,
            b'0' + (number % 10) as u8,
        ]);
    }
}

/// Puts a number at the end of a line.
fn push_number(line: &mut LineBuffer, number: u64)
    requires { length line.old + 20 ≤ LINE_ROOM }
    ensures digits { line.new ≡ line.old ++ decimal number }
    ensures short { length line.new ≤ length line.old + 20 }
{
    push_digits(line, number);
}

/// Puts a number of 32 bits at the end of a line.
pub(crate) fn push_short(line: &mut LineBuffer, number: u32)
    requires { length line.old + 10 ≤ LINE_ROOM }
    ensures digits { line.new ≡ line.old ++ decimal number }
    ensures short { length line.new ≤ length line.old + 10 }
{
    push_digits(line, u64::from(number));
}

/// Puts the name of a word at the end of a line.
pub(crate) fn push_word(line: &mut LineBuffer, word: WordName)
    requires { length line.old + 30 ≤ LINE_ROOM }
    ensures text { line.new ≡ line.old ++ word_text (word_named word) }
    ensures short { length line.new ≤ length line.old + 16 }
{
    match word {
        WordName::Fresh => line.push(b"Fresh"),
        WordName::Free => line.push(b"Free"),
        WordName::Head => line.push(b"Head"),
        WordName::Tail => line.push(b"Tail"),
        WordName::TailLock => line.push(b"T_lock"),
        WordName::HeadLock => line.push(b"H_lock"),
        WordName::Next(node) => {
            line.push(b"next ");
            push_short(line, node);
        }
        WordName::Value(node) => {
            line.push(b"value ");
            push_short(line, node);
        }
    }
}

/// Puts what a word holds at the end of a line.
pub(crate) fn push_contents(line: &mut LineBuffer, contents: &Contents)
    requires { length line.old + 31 ≤ LINE_ROOM }
    ensures text { line.new ≡ line.old ++ contents_text contents.now }
    ensures short { length line.new ≤ length line.old + 31 }
{
    match *contents {
        Contents::Number(number) => push_number(line, number),
        Contents::Reference(node, count) => {
            push_short(line, node);
            line.push(b" ");
            push_number(line, count);
        }
        Contents::Closed(count) => {
            line.push(b"closed ");
            push_number(line, count);
        }
        Contents::Value(value) => {
            push_short(line, u32::from(value.from));
            line.push(b" ");
            push_number(line, value.body.number());
        }
    }
}

/// Puts an access at the end of a line: the name of its word, what was found there, and what is there now.
fn push_access(line: &mut LineBuffer, word: WordName, found: &Contents, now: &Contents)
    requires { length line.old + 91 ≤ LINE_ROOM }
    ensures text { line.new ≡ line.old ++ access_text (word_named word) found.now now.now }
    ensures short { length line.new ≤ length line.old + 91 }
{
    line.push(b" ");
    push_word(line, word);
    line.push(b" found ");
    push_contents(line, found);
    line.push(b" now ");
    push_contents(line, now);
}

/// Puts the number of a move, its actor and the actor's line at the end of a line.
#[inline(always)]
fn push_row(line: &mut LineBuffer, number: u64, actor: u16, told: &Stepped)
    requires { length line.old + 35 ≤ LINE_ROOM }
    ensures text { line.new ≡ line.old ++ decimal number ++ codes " " ++ decimal actor ++ codes " "
        ++ line_told told.now }
    ensures short { length line.new ≤ length line.old + 35 }
{
    push_number(line, number);
    line.push(b" ");
    push_short(line, u32::from(actor));
    line.push(b" ");
    match *told {
        Stepped::Began => {}
        Stepped::Went(at) | Stepped::Ended(at, _) => line.push(at.name().as_bytes()),
    }
}

/// Puts the reply of the call that a move ended, and a line feed, at the end of a line.
#[inline(always)]
fn push_end(line: &mut LineBuffer, told: &Stepped)
    requires { length line.old + 60 ≤ LINE_ROOM }
    ensures { line.new ≡ line.old ++ end_told told.now ++ codes "\n" }
{
    if let Stepped::Ended(_, reply) = *told {
        line.push(b" reply ");
        push_reply(line, Some(reply));
    }
    line.push(b"\n");
}

/// Takes a step that can be taken, and puts its line.
#[tactic(auto, unfolding(crate::specs::Steps::row_text))]
fn push_step<const B: u32>(line: &mut LineBuffer, world: &mut WorldOf<B>, actor: u16)
    requires empty { line.old ≡ [] }
    requires can { IsSome (next world.old (Step actor)) }
    requires left { world.old.steps + 1 < 2 ^ 64 }
    ensures ok { next world.old (Step actor) ≡ Some world.new }
    ensures steps { world.new.steps ≡ world.old.steps + 1 }
    ensures text { line.new ≡ move_text B world.old world.new (Step actor) }
{
    let Some(word) = world.touches(actor) else {
        unreachable!()
    };
    let found = world.holds(word);
    let Ok(told) = world.step(actor) else {
        unreachable!()
    };
    push_row(line, world.steps(), actor, &told);
    push_access(line, word, &found, &world.holds(word));
    push_end(line, &told);
}

/// Gives up a call that can be given up, and puts the line of that.
#[tactic(auto, unfolding(crate::specs::Steps::row_text))]
fn push_give<const B: u32>(line: &mut LineBuffer, world: &mut WorldOf<B>, actor: u16)
    requires empty { line.old ≡ [] }
    requires can { IsSome (next world.old (Give actor)) }
    requires left { world.old.steps + 1 < 2 ^ 64 }
    ensures ok { next world.old (Give actor) ≡ Some world.new }
    ensures steps { world.new.steps ≡ world.old.steps + 1 }
    ensures text { line.new ≡ move_text B world.old world.new (Give actor) }
{
    let Ok(told) = step_in(world, Move::Give(actor)) else {
        unreachable!()
    };
    push_row(line, world.steps(), actor, &told);
    line.push(b" gives");
    push_end(line, &told);
}

/// Makes a move that can be made, and puts its line, none for a begin. It is refused by `Memory` alone.
pub(crate) fn push_move<const B: u32>(
    line: &mut LineBuffer,
    world: &mut WorldOf<B>,
    one: Move,
) -> Result<(), Refusal>
    requires empty { line.old ≡ [] }
    requires can { IsSome (next world.old one) }
    requires left { world.old.steps + 1 < 2 ^ 64 }
    ensures ok { OnOk result (next world.old one ≡ Some world.new) }
    ensures steps { OnOk result (world.new.steps ≤ world.old.steps + 1) }
    ensures text { OnOk result (line.new ≡ move_text B world.old world.new one) }
    ensures memory { IfErr result (λ refusal. refusal ≡ Memory) }
{
    match one {
        Move::Begin(actor, op) => world.begin(actor, op)?,
        Move::Step(actor) => push_step(line, world, actor),
        Move::Give(actor) => push_give(line, world, actor),
    }
    Ok(())
}

/// The lines before the steps.
#[tactic(auto, unfolding(crate::specs::Steps::header_text))]
pub(crate) fn header_lines(schedule: &Schedule, steps: u64) -> LineBuffer
    ensures { result ≡ header_text schedule.now steps }
{
    let mut lines = LineBuffer::new();
    lines.push(b"msq trace 1\nqueue ");
    lines.push(name_of_kind(schedule.kind));
    push_named(&mut lines, b"\nbits ", u64::from(schedule.bits));
    push_named(&mut lines, b"\nnodes ", u64::from(schedule.nodes));
    push_named(&mut lines, b"\nlimit ", schedule.limit);
    push_named(&mut lines, b"\nactors ", u64::from(schedule.actors));
    push_named(&mut lines, b"\nsteps ", steps);
    lines.push(b"\n");
    lines
}

/// Puts the name of a number and the number at the end of lines.
fn push_named(lines: &mut LineBuffer, name: &[u8], number: u64)
    requires { length lines.old + length name.now + 20 ≤ LINE_ROOM }
    ensures text { lines.new ≡ lines.old ++ name.now ++ decimal number }
    ensures short { length lines.new ≤ length lines.old + length name.now + 20 }
{
    lines.push(name);
    lines.push_number(number);
}
