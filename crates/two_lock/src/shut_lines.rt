//! The lines of a shut, each a row of the line table on the words of an arena.
ghost use Rattle.std.specs.Prelude.{IsTrue};
ghost use Rattle.line_table.specs.declared.lines.Line.TheVariants as lines;
ghost use Rattle.node_arena.specs.Prologues.{continues};
ghost use Rattle.node_arena.specs.Plans.{may_push};
ghost use Rattle.node_arena.specs.Seats.{role_of};
ghost use Rattle.two_lock.specs.Shuts.{shutting, CallIsAt, Follows, LetsGo};

use crate::shut_outcomes::{ActorOf, left};
use counted_ref::CountedRefOf;
use free_list::{Reply, RowOutcome, access, effect, first_row, goes, onward, row};
use history::Refusal;
use line_table::{Line, line_table};
use node_arena::{ArenaOf, Seat};

/// `index` turns of this call failed since it began.
pub(crate) fn s6<const B: u32, T>(
    arena: &ArenaOf<B, T>,
    seat: &mut Seat<T>,
    a: ActorOf<B>,
    index: u32,
) -> RowOutcome<ActorOf<B>>
    requires stands { CallIsAt arena.now seat.old (shutting index) lines.S6 a }
    ensures { Follows arena.now seat.old seat.new (shutting index) lines.S6 a.entry result }
{
    let me = seat.number();
    line_table!(S6 (setup me a found) first_row (arena seat found index))
}

pub(crate) fn s7<const B: u32, T>(
    arena: &ArenaOf<B, T>,
    seat: &mut Seat<T>,
    mut a: ActorOf<B>,
) -> ActorOf<B>
    requires stands { CallIsAt arena.now seat.old continues lines.S7 a }
    ensures { Follows arena.now seat.old seat.new continues lines.S7 a.entry
        (RowOutcome.Goes lines.S8 result) }
{
    use onward::goes;
    line_table!(S7 (setup me a found) row (arena seat found))
}

pub(crate) fn s8<const B: u32, T>(
    arena: &ArenaOf<B, T>,
    seat: &mut Seat<T>,
    mut a: ActorOf<B>,
) -> ActorOf<B>
    requires stands { CallIsAt arena.now seat.old continues lines.S8 a }
    requires role { IsTrue (may_push (role_of seat.old)) }
    ensures { Follows arena.now seat.old seat.new continues lines.S8 a.entry
        (RowOutcome.Goes lines.S9 result) }
{
    use onward::goes;
    let _ = arena.setup();
    line_table!(S8 (setup me a found) row (arena seat found))
}

pub(crate) fn s9<const B: u32, T>(
    arena: &ArenaOf<B, T>,
    seat: &mut Seat<T>,
    a: ActorOf<B>,
) -> Result<(), Refusal>
    requires stands { CallIsAt arena.now seat.old continues lines.S9 a }
    ensures { LetsGo arena.now seat.old seat.new a.entry result }
{
    line_table!(S9 (setup me a found) row (arena seat found))
}
