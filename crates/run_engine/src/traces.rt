//! A trace of a run.
ghost use Rattle.std.specs.Prelude.{◌≡◌, [], take};
ghost use Rattle.run_engine.specs.Runs.{EventsLead, opening_of};
ghost use Rattle.schedule_text.specs.Texts.{IsInRange};
ghost use Rattle.step_machine.specs.Machine.{World};
ghost use Rattle.run_engine.specs.Answers.{Tells};
ghost use Rattle.run_engine.specs.Extents.{IsExtentOf};
ghost use Rattle.run_engine.specs.TracesWritten.{due_text};

use crate::counts::RunExtent;
use crate::lines::{header_lines, push_move};
use crate::printers::RunPrinter;
use crate::printing::print_run;
use crate::stands::{actor_in, alone_line, stand_line};
use history::Refusal;
use schedule_text::{Event, Schedule};
use std::alloc::Global;
use step_machine::{Move, WorldOf};
use text_io::{Block, LineBuffer, Sink};

/// A trace whose header tells so many steps.
#[derive(Drop)]
struct Trace {
    steps: u64,
}

impl<const B: u32> RunPrinter<B> for Trace {
    ghost use Rattle.run_engine.specs.TracesWritten.{trace_pieces};

    ghost can_print = { λ trace. Unit {0} };

    ghost pieces = { λ trace. trace_pieces B trace.steps };

    fn put_heading<W: Sink>(
        &self,
        schedule: &Schedule,
        block: &mut Block,
        writer: &mut W,
    ) -> Result<(), Refusal> {
        let header = header_lines(schedule, self.steps);
        block.put(writer, header.as_slice())
    }

    fn put_move<W: Sink>(
        &self,
        world: &mut WorldOf<B>,
        one: Move,
        block: &mut Block,
        writer: &mut W,
    ) -> Result<(), Refusal> {
        let mut line = LineBuffer::new();
        push_move(&mut line, world, one)?;
        block.put(writer, line.as_slice())
    }

    fn stand_line(&self, world: &WorldOf<B>, actor: u16) -> LineBuffer {
        stand_line(world, actor)
    }

    fn last_line(&self, world: &mut WorldOf<B>, event: Event) -> LineBuffer {
        alone_line(world, actor_in(event))
    }
}

/// Writes the header, and then the steps of the events of a schedule that can be made, and where the actors stand if the next one
/// is refused. It takes memory; whether it waits is up to the writer.
pub fn write_trace<const B: u32, W: Sink>(
    alloc: Global,
    schedule: &Schedule,
    counted: &RunExtent,
    writer: &mut W,
) -> Result<(), Refusal>
    requires range { IsInRange schedule.now }
    requires bits { schedule.now.bits ≡ B }
    requires count { IsExtentOf schedule.now counted.now }
    ensures { (w : World) → EventsLead (opening_of schedule.now)
        (take counted.now.made schedule.now.events) w → counted.now.steps ≡ w.steps
        → Tells (W.state writer.old) (W.state writer.new) (due_text schedule.now counted.now.made w) []
        result }
{
    let trace = Trace {
        steps: counted.steps,
    };
    let mut block = Block::new();
    print_run::<B, Trace, W>(alloc, &trace, schedule, counted, &mut block, writer)?;
    block.finish(writer)
}
