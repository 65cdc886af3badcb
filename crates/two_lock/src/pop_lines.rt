//! The lines of a pop, each a row of the line table on the words of an arena.
ghost use Rattle.std.specs.Prelude.{IsTrue};
ghost use Rattle.line_table.specs.declared.lines.Line.TheVariants as lines;
ghost use Rattle.node_arena.specs.Prologues.{continues};
ghost use Rattle.node_arena.specs.Plans.{may_pop};
ghost use Rattle.node_arena.specs.Loads.{IsBare};
ghost use Rattle.node_arena.specs.Seats.{role_of};
ghost use Rattle.two_lock.specs.Pops.{popping, CallIsAt, Follows};

use crate::pop_outcomes::{ActorOf, unlocked};
use free_list::{Reply, RowOutcome, access, branch, effect, first_row, goes, notes, onward, row};
use history::{Refusal, WornWord};
use line_table::{Line, line_table};
use node_arena::{ArenaOf, Seat, raised};

/// `index` turns of this call failed since it began.
pub(crate) fn b1<const B: u32, T>(
    arena: &ArenaOf<B, T>,
    seat: &mut Seat<T>,
    a: ActorOf<B>,
    index: u32,
) -> RowOutcome<ActorOf<B>>
    requires stands { CallIsAt arena.now seat.old (popping index) lines.B1 a }
    ensures { Follows arena.now seat.old seat.new (popping index) lines.B1 a.entry result }
{
    let me = seat.number();
    line_table!(B1 (setup me a found) first_row (arena seat found index))
}

pub(crate) fn b2<const B: u32, T>(
    arena: &ArenaOf<B, T>,
    seat: &mut Seat<T>,
    mut a: ActorOf<B>,
) -> ActorOf<B>
    requires stands { CallIsAt arena.now seat.old continues lines.B2 a }
    ensures { Follows arena.now seat.old seat.new continues lines.B2 a.entry
        (RowOutcome.Goes lines.B3 result) }
{
    use onward::goes;
    line_table!(B2 (setup me a found) row (arena seat found))
}

pub(crate) fn b3<const B: u32, T>(
    arena: &ArenaOf<B, T>,
    seat: &mut Seat<T>,
    mut a: ActorOf<B>,
) -> (Line, ActorOf<B>)
    requires stands { CallIsAt arena.now seat.old continues lines.B3 a }
    ensures { Follows arena.now seat.old seat.new continues lines.B3 a.entry
        (RowOutcome.Goes result.0 result.1) }
{
    use branch::goes;
    let _ = arena.setup();
    line_table!(B3 (setup me a found) row (arena seat found))
}

pub(crate) fn b4<const B: u32, T>(
    arena: &ArenaOf<B, T>,
    seat: &mut Seat<T>,
    mut a: ActorOf<B>,
) -> (Line, ActorOf<B>)
    requires stands { CallIsAt arena.now seat.old continues lines.B4 a }
    ensures { Follows arena.now seat.old seat.new continues lines.B4 a.entry
        (RowOutcome.Goes result.0 result.1) }
{
    use branch::goes;
    let setup = arena.setup();
    line_table!(B4 (setup me a found) row (arena seat found))
}

pub(crate) fn b5<const B: u32, T>(
    arena: &ArenaOf<B, T>,
    seat: &mut Seat<T>,
    mut a: ActorOf<B>,
) -> ActorOf<B>
    requires stands { CallIsAt arena.now seat.old continues lines.B5 a }
    requires bare { IsBare arena.now seat.old }
    requires role { IsTrue (may_pop (role_of seat.old)) }
    ensures { Follows arena.now seat.old seat.new continues lines.B5 a.entry
        (RowOutcome.Goes lines.B6 result) }
{
    use onward::goes;
    let setup = arena.setup();
    line_table!(B5 (setup me a found) row (arena seat found))
}

pub(crate) fn b6<const B: u32, T>(
    arena: &ArenaOf<B, T>,
    seat: &mut Seat<T>,
    a: ActorOf<B>,
) -> RowOutcome<ActorOf<B>>
    requires stands { CallIsAt arena.now seat.old continues lines.B6 a }
    ensures { Follows arena.now seat.old seat.new continues lines.B6 a.entry result }
{
    line_table!(B6 (setup me a found) row (arena seat found))
}
