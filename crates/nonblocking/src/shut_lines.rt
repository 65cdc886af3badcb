//! The lines of a shut, each a row of the line table on the words of an arena.
ghost use Rattle.std.specs.Prelude.{IsTrue};
ghost use Rattle.line_table.specs.declared.lines.Line.TheVariants as lines;
ghost use Rattle.node_arena.specs.Prologues.{continues};
ghost use Rattle.node_arena.specs.Plans.{may_push};
ghost use Rattle.node_arena.specs.Seats.{role_of};
ghost use Rattle.nonblocking.specs.Shuts.{shutting, CallIsAt, Follows};

use crate::shut_outcomes::ActorOf;
use free_list::{
    Reply, RowOutcome, access, closed, effect, ends, first_row, goes, onward, row, worn,
};
use history::WornWord;
use line_table::{Line, line_table};
use node_arena::{ArenaOf, Seat, raised, raised_end};

/// `index` turns of this call failed since it began.
pub(crate) fn s1<const B: u32, T>(
    arena: &ArenaOf<B, T>,
    seat: &mut Seat<T>,
    mut a: ActorOf<B>,
    index: u32,
) -> ActorOf<B>
    requires stands { CallIsAt arena.now seat.old (shutting index) lines.S1 a }
    ensures { Follows arena.now seat.old seat.new (shutting index) lines.S1 a.entry
        (RowOutcome.Goes lines.S2 result) }
{
    use onward::goes;
    line_table!(S1 (setup me a found) first_row (arena seat found index))
}

pub(crate) fn s2<const B: u32, T>(
    arena: &ArenaOf<B, T>,
    seat: &mut Seat<T>,
    mut a: ActorOf<B>,
) -> ActorOf<B>
    requires stands { CallIsAt arena.now seat.old continues lines.S2 a }
    ensures { Follows arena.now seat.old seat.new continues lines.S2 a.entry
        (RowOutcome.Goes lines.S3 result) }
{
    use onward::goes;
    line_table!(S2 (setup me a found) row (arena seat found))
}

pub(crate) fn s3<const B: u32, T>(
    arena: &ArenaOf<B, T>,
    seat: &mut Seat<T>,
    a: ActorOf<B>,
) -> RowOutcome<ActorOf<B>>
    requires stands { CallIsAt arena.now seat.old continues lines.S3 a }
    ensures { Follows arena.now seat.old seat.new continues lines.S3 a.entry result }
{
    let setup = arena.setup();
    line_table!(S3 (setup me a found) row (arena seat found))
}

pub(crate) fn s4<const B: u32, T>(
    arena: &ArenaOf<B, T>,
    seat: &mut Seat<T>,
    a: ActorOf<B>,
) -> RowOutcome<ActorOf<B>>
    requires stands { CallIsAt arena.now seat.old continues lines.S4 a }
    requires role { IsTrue (may_push (role_of seat.old)) }
    ensures { Follows arena.now seat.old seat.new continues lines.S4 a.entry result }
{
    let setup = arena.setup();
    line_table!(S4 (setup me a found) row (arena seat found))
}

pub(crate) fn s5<const B: u32, T>(
    arena: &ArenaOf<B, T>,
    seat: &mut Seat<T>,
    a: ActorOf<B>,
) -> ActorOf<B>
    requires stands { CallIsAt arena.now seat.old continues lines.S5 a }
    ensures { Follows arena.now seat.old seat.new continues lines.S5 a.entry
        (RowOutcome.Goes lines.S1 result) }
{
    use onward::goes;
    let setup = arena.setup();
    line_table!(S5 (setup me a found) row (arena seat found))
}
