//! The lines of a push, each a row of the line table on the words of an arena.
ghost use Rattle.std.specs.Prelude.{IsTrue};
ghost use Rattle.line_table.specs.declared.lines.Line.TheVariants as lines;
ghost use Rattle.node_arena.specs.Prologues.{continues};
ghost use Rattle.node_arena.specs.Machine.{value_of};
ghost use Rattle.node_arena.specs.Plans.{may_push};
ghost use Rattle.node_arena.specs.Loads.{IsLoaded};
ghost use Rattle.node_arena.specs.Seats.{role_of};
ghost use Rattle.nonblocking.specs.Pushes.{pushing, CallIsAt, Follows};

use crate::push_outcomes::ActorOf;
use free_list::{
    Reply, RowOutcome, access, closed_with_node, effect, ends, goes, onward, row, worn_aside,
    worn_with_node,
};
use history::WornWord;
use line_table::{Line, line_table};
use node_arena::{ArenaOf, Seat, raised};

pub(crate) fn e2<const B: u32, T>(
    arena: &ArenaOf<B, T>,
    seat: &mut Seat<T>,
    a: ActorOf<B>,
) -> ActorOf<B>
    requires stands { CallIsAt arena.now seat.old (pushing a.val) lines.E2 a }
    ensures { Follows arena.now seat.old seat.new (pushing a.entry.val) lines.E2 a.entry
        (RowOutcome.Goes lines.E3 result) }
{
    use onward::goes;
    line_table!(E2 (setup me a found) row (arena seat found))
}

pub(crate) fn e3<const B: u32, T>(
    arena: &ArenaOf<B, T>,
    seat: &mut Seat<T>,
    mut a: ActorOf<B>,
) -> RowOutcome<ActorOf<B>>
    requires stands { CallIsAt arena.now seat.old continues lines.E3 a }
    ensures { Follows arena.now seat.old seat.new continues lines.E3 a.entry result }
{
    let setup = arena.setup();
    line_table!(E3 (setup me a found) row (arena seat found))
}

pub(crate) fn e5<const B: u32, T>(
    arena: &ArenaOf<B, T>,
    seat: &mut Seat<T>,
    mut a: ActorOf<B>,
) -> ActorOf<B>
    requires stands { CallIsAt arena.now seat.old continues lines.E5 a }
    ensures { Follows arena.now seat.old seat.new continues lines.E5 a.entry
        (RowOutcome.Goes lines.E6 result) }
{
    use onward::goes;
    line_table!(E5 (setup me a found) row (arena seat found))
}

pub(crate) fn e6<const B: u32, T>(
    arena: &ArenaOf<B, T>,
    seat: &mut Seat<T>,
    mut a: ActorOf<B>,
) -> ActorOf<B>
    requires stands { CallIsAt arena.now seat.old continues lines.E6 a }
    ensures { Follows arena.now seat.old seat.new continues lines.E6 a.entry
        (RowOutcome.Goes lines.E7 result) }
{
    use onward::goes;
    line_table!(E6 (setup me a found) row (arena seat found))
}

pub(crate) fn e7<const B: u32, T>(
    arena: &ArenaOf<B, T>,
    seat: &mut Seat<T>,
    mut a: ActorOf<B>,
) -> RowOutcome<ActorOf<B>>
    requires stands { CallIsAt arena.now seat.old continues lines.E7 a }
    ensures { Follows arena.now seat.old seat.new continues lines.E7 a.entry result }
{
    let setup = arena.setup();
    line_table!(E7 (setup me a found) row (arena seat found))
}

pub(crate) fn e9<const B: u32, T>(
    arena: &ArenaOf<B, T>,
    seat: &mut Seat<T>,
    mut a: ActorOf<B>,
) -> RowOutcome<ActorOf<B>>
    requires stands { CallIsAt arena.now seat.old continues lines.E9 a }
    requires loaded { IsLoaded arena.now (value_of a.val).body seat.old }
    requires role { IsTrue (may_push (role_of seat.old)) }
    ensures { Follows arena.now seat.old seat.new continues lines.E9 a.entry result }
{
    let setup = arena.setup();
    line_table!(E9 (setup me a found) row (arena seat found))
}

pub(crate) fn e13<const B: u32, T>(
    arena: &ArenaOf<B, T>,
    seat: &mut Seat<T>,
    a: ActorOf<B>,
) -> ActorOf<B>
    requires stands { CallIsAt arena.now seat.old continues lines.E13 a }
    ensures { Follows arena.now seat.old seat.new continues lines.E13 a.entry
        (RowOutcome.Goes lines.E5 result) }
{
    use onward::goes;
    let setup = arena.setup();
    line_table!(E13 (setup me a found) row (arena seat found))
}

pub(crate) fn e17<const B: u32, T>(
    arena: &ArenaOf<B, T>,
    seat: &mut Seat<T>,
    a: ActorOf<B>,
) -> RowOutcome<ActorOf<B>>
    requires stands { CallIsAt arena.now seat.old continues lines.E17 a }
    ensures { Follows arena.now seat.old seat.new continues lines.E17 a.entry result }
{
    let setup = arena.setup();
    line_table!(E17 (setup me a found) row (arena seat found))
}
