//! Which lines are in the rows of a picture, and what is told of them.
ghost use Rattle.std.specs.Prelude.{◌≡◌, ◌++◌, All, IfErr, IfOk, OnOk, Some, length, replicate, take, ◌≤◌};
ghost use Rattle.history.specs.declared.refusals.Refusal.TheVariants.{Memory};
ghost use Rattle.run_engine.specs.Runs.{opening_of, world_after};
ghost use Rattle.schedule_text.specs.Schedules.{moves_of};
ghost use Rattle.schedule_text.specs.Texts.{IsEventInRange, IsInRange};
ghost use Rattle.step_machine.specs.Machine.{next};
ghost use Rattle.text_io.specs.Blocks.{Writes};
ghost use Rattle.show_engine.specs.Frames.{IsFitting};
ghost use Rattle.show_engine.specs.Legends.{has_line, legend_text, lines_in, meaning_row, with_line, with_move, with_moves, with_stepped};

use crate::frames::{Frame, Meaning};
use crate::move_rows::mover;
use crate::rows::pair_line;
use history::Refusal;
use line_table::Line;
use run_engine::{first_events, moves_in, opening_world};
use schedule_text::{Event, Schedule};
use std::alloc::Global;
use step_machine::{Move, Stepped, WorldOf, step_in};
use text_io::{Block, LineBuffer, Sink};

/// Whether a line is one of these.
fn has_line(lines: &[Line], at: Line) -> bool
    ensures { result ≡ has_line lines.now at }
{
    lines.iter().any(|one| one.name() == at.name())
}

/// Puts a line behind others, if it isn't among them.
fn note(lines: &mut Vec<Line>, at: Line) -> Result<(), Refusal>
    ensures ok { OnOk result (lines.new.items ≡ with_line at lines.old.items) }
    ensures memory { IfErr result (λ refusal. refusal ≡ Memory) }
{
    if has_line(lines.as_slice(), at) {
        return Ok(());
    }
    match lines.push(at) {
        Ok(()) => Ok(()),
        Err(_) => Err(Refusal::Memory),
    }
}

/// Puts the line at which a move was made, if it was made at one, behind others.
fn note_told(lines: &mut Vec<Line>, told: &Stepped) -> Result<(), Refusal>
    ensures ok { OnOk result (lines.new.items ≡ with_stepped told.now lines.old.items) }
    ensures memory { IfErr result (λ refusal. refusal ≡ Memory) }
{
    match *told {
        Stepped::Began => Ok(()),
        Stepped::Went(at) | Stepped::Ended(at, _) => note(lines, at),
    }
}

/// Makes a move, and puts its line behind others where its row is shown. It can be made, unless memory is refused.
fn note_move<const B: u32>(
    world: &mut WorldOf<B>,
    frame: Frame,
    one: Move,
    lines: &mut Vec<Line>,
) -> Result<(), Refusal>
    requires { IsFitting frame }
    ensures ok { OnOk result (next world.old one ≡ Some world.new) }
    ensures lines { OnOk result (lines.new.items
        ≡ with_move frame world.old world.new one lines.old.items) }
    ensures memory { IfErr result (λ refusal. refusal ≡ Memory) }
{
    let actor = mover(&one);
    let Ok(told) = step_in(world, one) else {
        return Err(Refusal::Memory);
    };
    if frame.shows(world.steps(), actor) {
        return note_told(lines, &told);
    }
    Ok(())
}

/// Makes so many copies of a move, and puts their lines behind others.
fn note_moves<const B: u32>(
    world: &mut WorldOf<B>,
    frame: Frame,
    one: Move,
    count: u32,
    lines: &mut Vec<Line>,
) -> Result<(), Refusal>
    requires { IsFitting frame }
    ensures ok { OnOk result (world_after (replicate count one) world.old ≡ Some world.new) }
    ensures lines { OnOk result (lines.new.items
        ≡ with_moves frame (replicate count one) world.old lines.old.items) }
    ensures memory { IfErr result (λ refusal. refusal ≡ Memory) }
{
    for _ in 0..count {
        let next: Move = one;
        note_move(world, frame, next, lines)?;
    }
    Ok(())
}

/// Makes events, and puts the lines of their moves behind others.
fn note_all<const B: u32>(
    world: &mut WorldOf<B>,
    frame: Frame,
    events: &[Event],
    lines: &mut Vec<Line>,
) -> Result<(), Refusal>
    requires range { All IsEventInRange events.now }
    requires fits { IsFitting frame }
    ensures lines { OnOk result (lines.new.items
        ≡ with_moves frame (moves_of events.now) world.old lines.old.items) }
    ensures memory { IfErr result (λ refusal. refusal ≡ Memory) }
{
    for event in events {
        let (one, count) = moves_in(*event);
        note_moves(world, frame, one, count, lines)?;
    }
    Ok(())
}

/// The lines in the rows of the first so many events of a schedule, which were made before; none where nothing is told of them.
/// The events can be made again, unless memory is refused.
pub(crate) fn lines_in<const B: u32>(
    alloc: Global,
    schedule: &Schedule,
    frame: Frame,
    made: usize,
    legend: &[Meaning<'_>],
) -> Result<Vec<Line>, Refusal>
    requires range { IsInRange schedule.now }
    requires bits { schedule.now.bits ≡ B }
    requires within { made ≤ length schedule.now.events }
    requires fits { IsFitting frame }
    ensures ok { IfOk result (λ lines. legend_text frame legend.now lines.items ≡ legend_text frame
        legend.now (lines_in frame schedule.now (take made schedule.now.events))) }
    ensures memory { IfErr result (λ refusal. refusal ≡ Memory) }
{
    let mut lines = Vec::new(alloc);
    if legend.is_empty() {
        return Ok(lines);
    }
    let mut world = opening_world::<B>(alloc, schedule)?;
    note_all(&mut world, frame, first_events(schedule, made), &mut lines)?;
    Ok(lines)
}

/// What is told of a line, where it is one of these, and else nothing.
fn meaning_row(frame: Frame, lines: &[Line], meaning: &Meaning<'_>) -> LineBuffer
    requires { IsFitting frame }
    ensures { result ≡ meaning_row frame lines.now meaning.now }
{
    if !has_line(lines, meaning.line) {
        return LineBuffer::new();
    }
    let name = meaning.line.name();
    pair_line(frame, 4, name.as_bytes(), meaning.access.as_bytes())
}

/// Writes what a block holds, the last line of a picture, and what is told of lines.
pub(crate) fn write_end<W: Sink>(
    last: &LineBuffer,
    frame: Frame,
    legend: &[Meaning<'_>],
    lines: &[Line],
    mut block: Block,
    writer: &mut W,
) -> Result<(), Refusal>
    requires { IsFitting frame }
    ensures { Writes (W.state writer.old) (W.state writer.new)
        (block ++ last.now ++ legend_text frame legend.now lines.now) result }
{
    block.put(writer, last.as_slice())?;
    for meaning in legend {
        block.put(writer, meaning_row(frame, lines, meaning).as_slice())?;
    }
    block.finish(writer)
}
