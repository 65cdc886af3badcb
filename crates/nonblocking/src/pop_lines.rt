//! The lines of a pop, each a row of the line table on the words of an arena.
ghost use Rattle.std.specs.Prelude.{IsTrue};
ghost use Rattle.line_table.specs.declared.lines.Line.TheVariants as lines;
ghost use Rattle.node_arena.specs.Prologues.{continues};
ghost use Rattle.node_arena.specs.Plans.{may_pop};
ghost use Rattle.node_arena.specs.Loads.{IsBare};
ghost use Rattle.node_arena.specs.Seats.{role_of};
ghost use Rattle.nonblocking.specs.Pops.{popping, CallIsAt, Follows};

use crate::pop_outcomes::ActorOf;
use free_list::{
    Reply, RowOutcome, access, closed, effect, ends, first_row, goes, notes, onward, row, worn,
};
use history::WornWord;
use line_table::{Line, line_table};
use node_arena::{ArenaOf, Seat, raised};

/// `index` turns of this call failed since it began.
pub(crate) fn d2<const B: u32, T>(
    arena: &ArenaOf<B, T>,
    seat: &mut Seat<T>,
    mut a: ActorOf<B>,
    index: u32,
) -> ActorOf<B>
    requires stands { CallIsAt arena.now seat.old (popping index) lines.D2 a }
    ensures { Follows arena.now seat.old seat.new (popping index) lines.D2 a.entry
        (RowOutcome.Goes lines.D3 result) }
{
    use onward::goes;
    line_table!(D2 (setup me a found) first_row (arena seat found index))
}

pub(crate) fn d3<const B: u32, T>(
    arena: &ArenaOf<B, T>,
    seat: &mut Seat<T>,
    mut a: ActorOf<B>,
) -> ActorOf<B>
    requires stands { CallIsAt arena.now seat.old continues lines.D3 a }
    ensures { Follows arena.now seat.old seat.new continues lines.D3 a.entry
        (RowOutcome.Goes lines.D4 result) }
{
    use onward::goes;
    line_table!(D3 (setup me a found) row (arena seat found))
}

pub(crate) fn d4<const B: u32, T>(
    arena: &ArenaOf<B, T>,
    seat: &mut Seat<T>,
    mut a: ActorOf<B>,
) -> ActorOf<B>
    requires stands { CallIsAt arena.now seat.old continues lines.D4 a }
    ensures { Follows arena.now seat.old seat.new continues lines.D4 a.entry
        (RowOutcome.Goes lines.D5 result) }
{
    use onward::goes;
    line_table!(D4 (setup me a found) row (arena seat found))
}

pub(crate) fn d5<const B: u32, T>(
    arena: &ArenaOf<B, T>,
    seat: &mut Seat<T>,
    a: ActorOf<B>,
) -> RowOutcome<ActorOf<B>>
    requires stands { CallIsAt arena.now seat.old continues lines.D5 a }
    ensures { Follows arena.now seat.old seat.new continues lines.D5 a.entry result }
{
    let setup = arena.setup();
    line_table!(D5 (setup me a found) row (arena seat found))
}

pub(crate) fn d10<const B: u32, T>(
    arena: &ArenaOf<B, T>,
    seat: &mut Seat<T>,
    a: ActorOf<B>,
) -> ActorOf<B>
    requires stands { CallIsAt arena.now seat.old continues lines.D10 a }
    ensures { Follows arena.now seat.old seat.new continues lines.D10 a.entry
        (RowOutcome.Goes lines.D2 result) }
{
    use onward::goes;
    let setup = arena.setup();
    line_table!(D10 (setup me a found) row (arena seat found))
}

pub(crate) fn d12<const B: u32, T>(
    arena: &ArenaOf<B, T>,
    seat: &mut Seat<T>,
    mut a: ActorOf<B>,
) -> RowOutcome<ActorOf<B>>
    requires stands { CallIsAt arena.now seat.old continues lines.D12 a }
    ensures { Follows arena.now seat.old seat.new continues lines.D12 a.entry result }
{
    let setup = arena.setup();
    line_table!(D12 (setup me a found) row (arena seat found))
}

pub(crate) fn d13<const B: u32, T>(
    arena: &ArenaOf<B, T>,
    seat: &mut Seat<T>,
    mut a: ActorOf<B>,
) -> RowOutcome<ActorOf<B>>
    requires stands { CallIsAt arena.now seat.old continues lines.D13 a }
    requires bare { IsBare arena.now seat.old }
    requires role { IsTrue (may_pop (role_of seat.old)) }
    ensures { Follows arena.now seat.old seat.new continues lines.D13 a.entry result }
{
    let setup = arena.setup();
    line_table!(D13 (setup me a found) row (arena seat found))
}
