//! Where the actors stand in a world in which an event is refused.
ghost use Rattle.std.specs.Prelude.{◌≡◌, ◌+◌, ◌<◌, ◌≤◌, ◌^◌, ◌++◌, Some, IfSome, IsSome, length};
ghost use Rattle.step_machine.specs.Accesses.{touched_by, word_named};
ghost use Rattle.step_machine.specs.Calls.{line_of};
ghost use Rattle.step_machine.specs.Machine.{actor_of};
ghost use Rattle.run_engine.specs.Stands.{actor_in, alone_text, at_text, count_text, stand_text, standing_text, steps_alone};

use crate::lines::{push_contents, push_short, push_word};
use history::Reply;
use line_table::Line;
use schedule_text::Event;
use step_machine::{WordName, WorldOf};
use text_io::{LINE_ROOM, LineBuffer};

/// How many steps alone are tried for the end of a call.
const MOST_STEPS: u32 = 64;

/// The line before which an actor that is there stands.
pub fn line_of<const B: u32>(world: &WorldOf<B>, actor: u16) -> Option<Line>
    requires { IsSome (actor_of world.now actor) }
    ensures { result ≡ line_of (actor_of world.now actor) }
{
    world.line(actor)
}

/// Puts the name of a line, if there is one, at the end of a text.
pub fn push_at(line: &mut LineBuffer, at: Option<Line>)
    requires { length line.old + 3 ≤ LINE_ROOM }
    ensures text { line.new ≡ line.old ++ at_text at }
    ensures short { length line.new ≤ length line.old + 3 }
{
    if let Some(at) = at {
        line.push(at.name().as_bytes());
    }
}

/// Where an actor that is there stands, whose next step touches this word.
fn touching_line<const B: u32>(world: &WorldOf<B>, actor: u16, word: WordName) -> LineBuffer
    requires { IsSome (actor_of world.now actor) }
    ensures { result ≡ stand_text B world.now actor (Some (word_named word)) }
{
    let mut line = LineBuffer::new();
    push_short(&mut line, u32::from(actor));
    line.push(b" at ");
    push_at(&mut line, line_of(world, actor));
    line.push(b" ");
    push_word(&mut line, word);
    line.push(b" holds ");
    push_contents(&mut line, &world.holds(word));
    line.push(b"\n");
    line
}

/// Where an actor stands, or nothing where it has no call.
pub fn stand_line<const B: u32>(world: &WorldOf<B>, actor: u16) -> LineBuffer
    ensures { result ≡ standing_text B world.now actor }
{
    match world.touches(actor) {
        Some(word) => touching_line(world, actor, word),
        None => LineBuffer::new(),
    }
}

/// How many steps of an actor alone end its call, if so many at most do. They are taken.
fn steps_alone<const B: u32>(world: &mut WorldOf<B>, actor: u16, most: u32) -> Option<u32>
    requires { world.old.steps + most < 2 ^ 64 }
    ensures count { result ≡ steps_alone most actor world.old }
    ensures few { IfSome result (λ count. count ≤ most) }
{
    // The check of the call stops unless the type of a reply is named here.
    let _: Option<Reply> = None;
    if most == 0 {
        return None;
    }
    let Ok(_) = world.step(actor) else {
        return None;
    };
    if world.touches(actor).is_none() {
        return Some(1);
    }
    match steps_alone(world, actor, most - 1) {
        Some(more) => Some(more + 1),
        None => None,
    }
}

/// Puts a number of steps, if there is one, at the end of a line.
fn push_count(line: &mut LineBuffer, count: Option<u32>)
    requires { length line.old + 10 ≤ LINE_ROOM }
    ensures text { line.new ≡ line.old ++ count_text count }
    ensures short { length line.new ≤ length line.old + 10 }
{
    match count {
        Some(count) => push_short(line, count),
        None => line.push(b"-"),
    }
}

/// How soon the call of an actor ends alone, or nothing where it has none.
pub(crate) fn alone_line<const B: u32>(world: &mut WorldOf<B>, actor: u16) -> LineBuffer
    requires { world.old.steps + 64 < 2 ^ 64 }
    ensures { result ≡ alone_text actor (touched_by world.old actor (actor_of world.old actor))
        (steps_alone 64 actor world.old) }
{
    let mut line = LineBuffer::new();
    if world.touches(actor).is_some() {
        push_short(&mut line, u32::from(actor));
        line.push(b" alone ");
        push_count(&mut line, steps_alone(world, actor, MOST_STEPS));
        line.push(b"\n");
    }
    line
}

/// Whose event it is.
pub(crate) fn actor_in(event: Event) -> u16
    ensures { result ≡ actor_in event }
{
    match event {
        Event::Begin(actor, _)
        | Event::Step(actor, _)
        | Event::Steps(actor, _)
        | Event::Give(actor) => actor,
    }
}
