//! The rows of where actors stand as an event is refused.
ghost use Rattle.std.specs.Prelude.{◌≡◌, Some, IsSome};
ghost use Rattle.step_machine.specs.Accesses.{touched_by, word_named};
ghost use Rattle.step_machine.specs.Machine.{actor_of};
ghost use Rattle.show_engine.specs.Frames.{IsFitting};
ghost use Rattle.show_engine.specs.StandRows.{shown_stand, stand_row};

use crate::cells::stand_cell;
use crate::frames::Frame;
use crate::rows::row;
use run_engine::line_of;
use step_machine::{WordName, WorldOf};
use text_io::LineBuffer;

/// The row of an actor that is there, whose next step touches this word.
fn touching_row<const B: u32>(
    world: &WorldOf<B>,
    frame: Frame,
    actor: u16,
    word: WordName,
) -> LineBuffer
    requires there { IsSome (actor_of world.now actor) }
    requires fits { IsFitting frame }
    ensures { result ≡ stand_row frame B world.now actor (Some (word_named word)) }
{
    let cell = stand_cell(line_of(world, actor), word, world.holds(word));
    row(frame, actor, b"", cell.as_slice(), b"")
}

/// The row of where an actor stands that has a column, or nothing where it has no call.
pub(crate) fn shown_stand<const B: u32>(world: &WorldOf<B>, frame: Frame, actor: u16) -> LineBuffer
    requires { IsFitting frame }
    ensures { result ≡ shown_stand frame B world.now actor }
{
    if !frame.has_column(actor) {
        return LineBuffer::new();
    }
    match world.touches(actor) {
        Some(word) => touching_row(world, frame, actor, word),
        None => LineBuffer::new(),
    }
}
