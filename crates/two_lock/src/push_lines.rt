//! The lines of a push, each a row of the line table on the words of an arena.
ghost use Rattle.std.specs.Prelude.{IsTrue};
ghost use Rattle.line_table.specs.declared.lines.Line.TheVariants as lines;
ghost use Rattle.node_arena.specs.Prologues.{continues};
ghost use Rattle.node_arena.specs.Machine.{value_of};
ghost use Rattle.node_arena.specs.Plans.{may_push};
ghost use Rattle.node_arena.specs.Loads.{IsLoaded};
ghost use Rattle.node_arena.specs.Seats.{role_of};
ghost use Rattle.two_lock.specs.Pushes.{pushing, CallIsAt, Follows};

use crate::push_outcomes::{ActorOf, left_with_node};
use counted_ref::CountedRefOf;
use free_list::{Reply, RowOutcome, access, branch, effect, goes, onward, row};
use history::Refusal;
use line_table::{Line, line_table};
use node_arena::{ArenaOf, Seat};

pub(crate) fn a1<const B: u32, T>(
    arena: &ArenaOf<B, T>,
    seat: &mut Seat<T>,
    a: ActorOf<B>,
) -> ActorOf<B>
    requires stands { CallIsAt arena.now seat.old (pushing a.val) lines.A1 a }
    ensures { Follows arena.now seat.old seat.new (pushing a.entry.val) lines.A1 a.entry
        (RowOutcome.Goes lines.A2 result) }
{
    use onward::goes;
    line_table!(A1 (setup me a found) row (arena seat found))
}

pub(crate) fn a2<const B: u32, T>(
    arena: &ArenaOf<B, T>,
    seat: &mut Seat<T>,
    a: ActorOf<B>,
) -> ActorOf<B>
    requires stands { CallIsAt arena.now seat.old continues lines.A2 a }
    ensures { Follows arena.now seat.old seat.new continues lines.A2 a.entry
        (RowOutcome.Goes lines.A3 result) }
{
    use onward::goes;
    line_table!(A2 (setup me a found) row (arena seat found))
}

pub(crate) fn a3<const B: u32, T>(
    arena: &ArenaOf<B, T>,
    seat: &mut Seat<T>,
    a: ActorOf<B>,
) -> RowOutcome<ActorOf<B>>
    requires stands { CallIsAt arena.now seat.old continues lines.A3 a }
    ensures { Follows arena.now seat.old seat.new continues lines.A3 a.entry result }
{
    let me = seat.number();
    line_table!(A3 (setup me a found) row (arena seat found))
}

pub(crate) fn a4<const B: u32, T>(
    arena: &ArenaOf<B, T>,
    seat: &mut Seat<T>,
    mut a: ActorOf<B>,
) -> ActorOf<B>
    requires stands { CallIsAt arena.now seat.old continues lines.A4 a }
    ensures { Follows arena.now seat.old seat.new continues lines.A4 a.entry
        (RowOutcome.Goes lines.A5 result) }
{
    use onward::goes;
    line_table!(A4 (setup me a found) row (arena seat found))
}

pub(crate) fn a5<const B: u32, T>(
    arena: &ArenaOf<B, T>,
    seat: &mut Seat<T>,
    mut a: ActorOf<B>,
) -> (Line, ActorOf<B>)
    requires stands { CallIsAt arena.now seat.old continues lines.A5 a }
    requires loaded { IsLoaded arena.now (value_of a.val).body seat.old }
    requires role { IsTrue (may_push (role_of seat.old)) }
    ensures { Follows arena.now seat.old seat.new continues lines.A5 a.entry
        (RowOutcome.Goes result.0 result.1) }
{
    use branch::goes;
    let _ = arena.setup();
    line_table!(A5 (setup me a found) row (arena seat found))
}

pub(crate) fn a6<const B: u32, T>(
    arena: &ArenaOf<B, T>,
    seat: &mut Seat<T>,
    a: ActorOf<B>,
) -> ActorOf<B>
    requires stands { CallIsAt arena.now seat.old continues lines.A6 a }
    ensures { Follows arena.now seat.old seat.new continues lines.A6 a.entry
        (RowOutcome.Goes lines.A7 result) }
{
    use onward::goes;
    let _ = arena.setup();
    line_table!(A6 (setup me a found) row (arena seat found))
}

pub(crate) fn a7<const B: u32, T>(
    arena: &ArenaOf<B, T>,
    seat: &mut Seat<T>,
    a: ActorOf<B>,
) -> RowOutcome<ActorOf<B>>
    requires stands { CallIsAt arena.now seat.old continues lines.A7 a }
    ensures { Follows arena.now seat.old seat.new continues lines.A7 a.entry result }
{
    line_table!(A7 (setup me a found) row (arena seat found))
}
