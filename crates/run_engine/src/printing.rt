//! The one walk over a run: makes the moves of a schedule, and puts what a printer prints of them.
ghost use Rattle.std.specs.Prelude.{◌≡◌, ◌+◌, ◌<◌, ◌≤◌, ◌^◌, ◌++◌, All, Some, IsSome, OnOk, length, replicate, take};
ghost use Rattle.std.specs.List.{slice_get};
ghost use Rattle.run_engine.specs.Runs.{EventsLead, opening_of, world_after};
ghost use Rattle.schedule_text.specs.Schedules.{moves_of, moves_of_event};
ghost use Rattle.schedule_text.specs.Texts.{IsEventInRange, IsInRange};
ghost use Rattle.step_machine.specs.Machine.{World};
ghost use Rattle.text_io.specs.Blocks.{Puts};
ghost use Rattle.run_engine.specs.Answers.{Tells};
ghost use Rattle.run_engine.specs.Pieces.{actors_text, moves_text, rest_text, run_text, stop_text};
ghost use Rattle.run_engine.specs.Extents.{IsExtentOf};

use crate::counts::{RunExtent, first_events, opening_world};
use crate::printers::RunPrinter;
use history::Refusal;
use schedule_text::{Event, Schedule};
use std::alloc::Global;
use step_machine::{Move, WorldOf};
use text_io::{Block, Sink};

/// Makes so many copies of a move, which can be made, and puts what is printed of them.
fn put_moves<const B: u32, P: RunPrinter<B>, W: Sink>(
    printer: &P,
    world: &mut WorldOf<B>,
    one: Move,
    count: u32,
    block: &mut Block,
    writer: &mut W,
) -> Result<(), Refusal>
    requires printer { P.can_print printer.now }
    requires can { IsSome (world_after (replicate count one) world.old) }
    requires left { world.old.steps + count < 2 ^ 64 }
    ensures ok { OnOk result (world_after (replicate count one) world.old ≡ Some world.new) }
    ensures steps { OnOk result (world.new.steps ≤ world.old.steps + count) }
    ensures tells { Tells (W.state writer.old) (W.state writer.new)
        (block.old ++ moves_text (P.pieces printer.now).each (replicate count one) world.old)
        block.new result }
{
    for _ in 0..count {
        let next: Move = one;
        printer.put_move(world, next, block, writer)?;
    }
    Ok(())
}

/// The move of an event, and how often it is made.
pub fn moves_in(event: Event) -> (Move, u32)
    requires { IsEventInRange event }
    ensures moves { replicate result.1 result.0 ≡ moves_of_event event }
    ensures few { result.1 ≤ 1000000 }
{
    match event {
        Event::Begin(actor, op) => (Move::Begin(actor, op), 1),
        Event::Step(actor, _) => (Move::Step(actor), 1),
        Event::Steps(actor, count) => (Move::Step(actor), count),
        Event::Give(actor) => (Move::Give(actor), 1),
    }
}

/// Makes events that can be made, and puts what is printed of their moves.
fn put_events<const B: u32, P: RunPrinter<B>, W: Sink>(
    printer: &P,
    world: &mut WorldOf<B>,
    events: &[Event],
    block: &mut Block,
    writer: &mut W,
) -> Result<(), Refusal>
    requires printer { P.can_print printer.now }
    requires range { All IsEventInRange events.now }
    requires few { length events.now ≤ 1000000 }
    requires left { world.old.steps ≡ 0 }
    requires can { IsSome (world_after (moves_of events.now) world.old) }
    ensures ok { OnOk result (world_after (moves_of events.now) world.old ≡ Some world.new) }
    ensures tells { Tells (W.state writer.old) (W.state writer.new)
        (block.old ++ moves_text (P.pieces printer.now).each (moves_of events.now) world.old)
        block.new result }
{
    for event in events {
        let (one, count) = moves_in(*event);
        put_moves(printer, world, one, count, block, writer)?;
    }
    Ok(())
}

/// Puts the lines above the moves, and then what is printed of those of the first so many events of a schedule, which can be made.
fn put_made<const B: u32, P: RunPrinter<B>, W: Sink>(
    printer: &P,
    world: &mut WorldOf<B>,
    schedule: &Schedule,
    counted: &RunExtent,
    block: &mut Block,
    writer: &mut W,
) -> Result<(), Refusal>
    requires printer { P.can_print printer.now }
    requires range { IsInRange schedule.now }
    requires count { IsExtentOf schedule.now counted.now }
    requires opening { world.old ≡ opening_of schedule.now }
    ensures ok { OnOk result (world_after (moves_of (take counted.now.made schedule.now.events))
        world.old ≡ Some world.new) }
    ensures tells { Tells (W.state writer.old) (W.state writer.new)
        ((block.old ++ (P.pieces printer.now).heading schedule.now)
        ++ moves_text (P.pieces printer.now).each
        (moves_of (take counted.now.made schedule.now.events)) world.old) block.new result }
{
    printer.put_heading(schedule, block, writer)?;
    let events = first_events(schedule, counted.made);
    put_events(printer, world, events, block, writer)
}

/// Puts where the first so many actors stand.
fn put_stands<const B: u32, P: RunPrinter<B>, W: Sink>(
    printer: &P,
    world: &WorldOf<B>,
    actors: u16,
    block: &mut Block,
    writer: &mut W,
) -> Result<(), Refusal>
    requires { P.can_print printer.now }
    ensures { Puts (W.state writer.old) (W.state writer.new)
        (block.old ++ actors_text ((P.pieces printer.now).stand world.now) actors) block.new result }
{
    for index in 0..actors {
        let line = printer.stand_line(world, index + 1);
        block.put(writer, line.as_slice())?;
    }
    Ok(())
}

/// Puts where the first so many actors stand as an event is refused, and what is printed behind that.
fn put_stop<const B: u32, P: RunPrinter<B>, W: Sink>(
    printer: &P,
    world: &mut WorldOf<B>,
    actors: u16,
    event: Event,
    block: &mut Block,
    writer: &mut W,
) -> Result<(), Refusal>
    requires printer { P.can_print printer.now }
    requires left { world.old.steps + 64 < 2 ^ 64 }
    ensures { Puts (W.state writer.old) (W.state writer.new)
        (block.old ++ stop_text (P.pieces printer.now) world.old actors event) block.new result }
{
    put_stands(printer, world, actors, block, writer)?;
    let last = printer.last_line(world, event);
    block.put(writer, last.as_slice())
}

/// Puts what is printed where an event of a schedule is refused, behind so many that were made.
fn put_rest<const B: u32, P: RunPrinter<B>, W: Sink>(
    printer: &P,
    world: &mut WorldOf<B>,
    schedule: &Schedule,
    made: usize,
    block: &mut Block,
    writer: &mut W,
) -> Result<(), Refusal>
    requires printer { P.can_print printer.now }
    requires left { world.old.steps + 64 < 2 ^ 64 }
    ensures { Puts (W.state writer.old) (W.state writer.new) (block.old ++ rest_text
        (P.pieces printer.now) world.old schedule.now.actors (slice_get schedule.now.events made))
        block.new result }
{
    match schedule.events.get(made) {
        Some(event) => put_stop(printer, world, schedule.actors, *event, block, writer),
        None => Ok(()),
    }
}

/// Makes the events of a schedule that can be made, which a run has counted, and puts what is printed of them, with the lines above
/// them, and of where the actors stand if the next one is refused.
///
/// It is refused by `Memory`, as soon as a growth is refused, and by `Write`, where a call of the writer fails or takes nothing. It
/// takes memory; whether it waits is up to the writer.
pub fn print_run<const B: u32, P: RunPrinter<B>, W: Sink>(
    alloc: Global,
    printer: &P,
    schedule: &Schedule,
    counted: &RunExtent,
    block: &mut Block,
    writer: &mut W,
) -> Result<(), Refusal>
    requires printer { P.can_print printer.now }
    requires range { IsInRange schedule.now }
    requires bits { schedule.now.bits ≡ B }
    requires count { IsExtentOf schedule.now counted.now }
    ensures { (w : World) → EventsLead (opening_of schedule.now)
        (take counted.now.made schedule.now.events) w → Tells (W.state writer.old) (W.state writer.new)
        (run_text block.old (P.pieces printer.now) schedule.now
        (take counted.now.made schedule.now.events) w (slice_get schedule.now.events counted.now.made))
        block.new result }
{
    let mut world = opening_world::<B>(alloc, schedule)?;
    put_made(printer, &mut world, schedule, counted, block, writer)?;
    put_rest(printer, &mut world, schedule, counted.made, block, writer)
}
