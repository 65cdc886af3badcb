//! What is printed of a run.
ghost use Rattle.std.specs.Prelude.{◌≡◌, ◌+◌, ◌<◌, ◌≤◌, ◌^◌, ◌++◌, ◌∷◌, [], Some, IsSome, OnOk};
ghost use Rattle.step_machine.specs.Machine.{next};
ghost use Rattle.text_io.specs.Blocks.{Puts};
ghost use Rattle.run_engine.specs.Answers.{Tells};
ghost use Rattle.run_engine.specs.Pieces.{Pieces, moves_text};

use history::Refusal;
use schedule_text::{Event, Schedule};
use step_machine::{Move, WorldOf};
use text_io::{Block, LineBuffer, Sink};

/// Prints the runs of schedules, where `B` bits of a word hold a node.
pub trait RunPrinter<const B: u32> {
    // What has to hold of it.
    ghost can_print: { Self → Type 0 };

    // What it prints.
    ghost pieces: { Self → Pieces };

    /// Puts the lines above the moves of a schedule. It takes no memory.
    fn put_heading<W: Sink>(
        &self,
        schedule: &Schedule,
        block: &mut Block,
        writer: &mut W,
    ) -> Result<(), Refusal>
        requires { can_print self.now }
        ensures { Puts (W.state writer.old) (W.state writer.new)
            (block.old ++ (pieces self.now).heading schedule.now) block.new result };

    /// Makes a move that can be made, and puts what is printed of it.
    fn put_move<W: Sink>(
        &self,
        world: &mut WorldOf<B>,
        one: Move,
        block: &mut Block,
        writer: &mut W,
    ) -> Result<(), Refusal>
        requires printer { can_print self.now }
        requires can { IsSome (next world.old one) }
        requires left { world.old.steps + 1 < 2 ^ 64 }
        ensures ok { OnOk result (next world.old one ≡ Some world.new) }
        ensures steps { OnOk result (world.new.steps ≤ world.old.steps + 1) }
        ensures tells { Tells (W.state writer.old) (W.state writer.new)
            (block.old ++ moves_text (pieces self.now).each (one ∷ []) world.old) block.new result };

    /// Where an actor stands as an event is refused, as it is printed. It takes no memory.
    fn stand_line(&self, world: &WorldOf<B>, actor: u16) -> LineBuffer
        requires { can_print self.now }
        ensures { result ≡ (pieces self.now).stand world.now actor };

    /// What is printed behind where the actors stand as an event is refused. The world is left as it comes.
    fn last_line(&self, world: &mut WorldOf<B>, event: Event) -> LineBuffer
        requires printer { can_print self.now }
        requires left { world.old.steps + 64 < 2 ^ 64 }
        ensures { result ≡ (pieces self.now).last world.old event };
}
