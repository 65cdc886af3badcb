//! The picture of a run.
ghost use Rattle.std.specs.Prelude.{◌≡◌, [], take};
ghost use Rattle.run_engine.specs.Runs.{EventsLead, opening_of};
ghost use Rattle.schedule_text.specs.Texts.{IsInRange};
ghost use Rattle.step_machine.specs.Machine.{World};
ghost use Rattle.run_engine.specs.Answers.{Tells};
ghost use Rattle.show_engine.specs.Frames.{IsFitting};
ghost use Rattle.show_engine.specs.PicturesWritten.{IsCountOf};
ghost use Rattle.show_engine.specs.RefusedPictures.{due_text};

use crate::counts::Counted;
use crate::frames::{Frame, Meaning};
use crate::legends::{lines_in, write_end};
use crate::move_rows::draw_move;
use crate::rows::{names_line, queue_line, shown_line};
use crate::stand_rows::shown_stand;
use history::Refusal;
use run_engine::{RunPrinter, print_run};
use schedule_text::{Event, Schedule};
use std::alloc::Global;
use step_machine::{Move, WorldOf};
use text_io::{Block, LineBuffer, Sink};

/// The rows of a picture, marked where operations take effect.
#[derive(Drop)]
struct Rows<'a> {
    frame: Frame,
    /// The numbers at which operations take effect, by rising number.
    effects: &'a [u64],
}

impl<'a, const B: u32> RunPrinter<B> for Rows<'a> {
    ghost use Rattle.std.specs.List.Sorted.{IsNonDecreasing};
    ghost use Rattle.show_engine.specs.Frames.{IsFitting};
    ghost use Rattle.show_engine.specs.Pictures.{picture_pieces};
    ghost use Rattle.show_engine.specs.PicturesWritten.{is_among};

    ghost can_print = { λ rows. IsFitting rows.frame × IsNonDecreasing rows.effects.now };

    ghost pieces = { λ rows. picture_pieces rows.frame (is_among rows.effects.now) B };

    fn put_heading<W: Sink>(
        &self,
        schedule: &Schedule,
        block: &mut Block,
        writer: &mut W,
    ) -> Result<(), Refusal> {
        block.put(writer, queue_line(schedule).as_slice())?;
        block.put(writer, names_line(self.frame).as_slice())
    }

    fn put_move<W: Sink>(
        &self,
        world: &mut WorldOf<B>,
        one: Move,
        block: &mut Block,
        writer: &mut W,
    ) -> Result<(), Refusal> {
        let line = draw_move(world, self.frame, self.effects, one)?;
        block.put(writer, line.as_slice())
    }

    fn stand_line(&self, world: &WorldOf<B>, actor: u16) -> LineBuffer {
        shown_stand(world, self.frame, actor)
    }

    fn last_line(&self, _: &mut WorldOf<B>, _: Event) -> LineBuffer {
        LineBuffer::new()
    }
}

/// Writes the picture of the events of a schedule that can be made, by what a run of it has left, and where actors stand if the next
/// one is refused.
pub(crate) fn draw<const B: u32, W: Sink>(
    alloc: Global,
    schedule: &Schedule,
    frame: Frame,
    counted: &Counted,
    legend: &[Meaning<'_>],
    writer: &mut W,
) -> Result<(), Refusal>
    requires range { IsInRange schedule.now }
    requires bits { schedule.now.bits ≡ B }
    requires count { IsCountOf schedule.now counted.now }
    requires fits { IsFitting frame }
    ensures { (w : World) → EventsLead (opening_of schedule.now)
        (take counted.now.run.made schedule.now.events) w → counted.now.run.steps ≡ w.steps
        → Tells (W.state writer.old) (W.state writer.new)
        (due_text frame legend.now B schedule.now counted.now w) [] result }
{
    let lines = lines_in::<B>(alloc, schedule, frame, counted.run.made, legend)?;
    let effects = counted.effects.as_slice();
    let rows = Rows { frame, effects };
    let mut block = Block::new();
    print_run::<B, Rows<'_>, W>(alloc, &rows, schedule, &counted.run, &mut block, writer)?;
    let last = shown_line(frame, schedule.actors, counted.run.steps);
    write_end(&last, frame, legend, lines.as_slice(), block, writer)
}
