//! Takes a node.
ghost use Rattle.std.specs.Prelude.{◌≡◌, ◌≤◌, Some, None, MatchResult, IfOk, IfErr};
ghost use Rattle.history.specs.Seats.{IsSound};
ghost use Rattle.node_arena.specs.Seats.{IsBefore, IsReady, KeepsName, KeepsSlots, permits_of, known_of, pocket_of, failed_of};
ghost use Rattle.node_arena.specs.Turns.{failed_turns};
ghost use Rattle.node_arena.specs.Paths.{HadNoEffect, SeesNoMore, added};
ghost use Rattle.line_table.specs.declared.lines.Line.TheVariants as lines;
ghost use Rattle.node_arena.specs.Prologues.{continues};
ghost use Rattle.free_list.specs.Runs.{CallIsAt, Follows, GoesTo, taking};
ghost use Rattle.free_list.specs.Takes.{StandsAfterN2, Turns, AnswersTake, IsTaken, TakeRefused, FailsFewer};

use crate::turns::{ActorOf, Turn, registers, turned};
use crate::{Reply, RowOutcome, access, ends, first_row, goes, onward, row, with_node, worn};
use history::{Refusal, WornWord};
use line_table::{Line, line_table};
use node_arena::{ArenaOf, Held, Seat, raised_unless_shut as raised};

/// `index` turns of this call failed before.
fn n1<const B: u32, T>(arena: &ArenaOf<B, T>, seat: &mut Seat<T>, index: u32) -> ActorOf<B>
    requires stands { IsBefore arena.now seat.old (taking index) lines.N1 }
    ensures { GoesTo arena.now seat.old seat.new lines.N2 result }
{
    use onward::goes;
    let mut a = registers(arena, 0, 0);
    line_table!(N1 (setup me a found) first_row (arena seat found index))
}

fn n2<const B: u32, T>(
    arena: &ArenaOf<B, T>,
    seat: &mut Seat<T>,
    mut a: ActorOf<B>,
) -> RowOutcome<ActorOf<B>>
    requires stands { CallIsAt arena.now seat.old continues lines.N2 a }
    ensures { StandsAfterN2 arena.now seat.old seat.new result }
{
    let setup = arena.setup();
    line_table!(N2 (setup me a found) row (arena seat found))
}

fn n3<const B: u32, T>(arena: &ArenaOf<B, T>, seat: &mut Seat<T>, mut a: ActorOf<B>) -> ActorOf<B>
    requires stands { CallIsAt arena.now seat.old continues lines.N3 a }
    ensures { GoesTo arena.now seat.old seat.new lines.N4 result }
{
    use onward::goes;
    line_table!(N3 (setup me a found) row (arena seat found))
}

fn n4<const B: u32, T>(
    arena: &ArenaOf<B, T>,
    seat: &mut Seat<T>,
    mut a: ActorOf<B>,
) -> RowOutcome<ActorOf<B>>
    requires stands { CallIsAt arena.now seat.old continues lines.N4 a }
    ensures { Follows arena.now seat.old seat.new continues lines.N4 a.entry result }
{
    let setup = arena.setup();
    line_table!(N4 (setup me a found) row (arena seat found))
}

fn n5<const B: u32, T>(
    arena: &ArenaOf<B, T>,
    seat: &mut Seat<T>,
    mut a: ActorOf<B>,
) -> RowOutcome<ActorOf<B>>
    requires stands { CallIsAt arena.now seat.old continues lines.N5 a }
    ensures { Follows arena.now seat.old seat.new continues lines.N5 a.entry result }
{
    let setup = arena.setup();
    line_table!(N5 (setup me a found) row (arena seat found))
}

// One turn, where `index` turns of this call failed before.
fn take_turn<const B: u32, T>(arena: &ArenaOf<B, T>, seat: &mut Seat<T>, index: u32) -> Turn
    requires { IsBefore arena.now seat.old (taking index) lines.N1 }
    ensures { Turns arena.now seat.old seat.new 0 result }
{
    let a = n1(arena, seat, index);
    match n2(arena, seat, a) {
        RowOutcome::Goes(next, a) => match next {
            Line::N5 => turned(n5(arena, seat, a)),
            _ => {
                let a = n3(arena, seat, a);
                turned(n4(arena, seat, a))
            }
        },
        RowOutcome::Ends(reply) => turned::<B>(RowOutcome::Ends(reply)),
    }
}

// Turns until one succeeds or is refused, or all failed.
#[inline(always)]
fn take_within<const B: u32, T>(
    arena: &ArenaOf<B, T>,
    seat: &mut Seat<T>,
    turns: u32,
) -> Result<Held, Refusal>
    requires ready { IsReady arena.now seat.old }
    requires empty { pocket_of seat.old ≡ None }
    requires turns { 1 ≤ turns }
    ensures { AnswersTake arena.now seat.old seat.new turns result }
{
    for index in 0..turns {
        match take_turn(arena, seat, index) {
            Turn::Took(held) => {
                seat.keep(Some(held), index);
                return Ok(held);
            }
            Turn::Refused(refusal) => {
                seat.keep(None, index);
                return Err(refusal);
            }
            Turn::Failed => {}
        }
    }
    seat.keep(None, turns);
    Err(Refusal::Busy)
}

/// Takes a node: the first free one, or where none is free one that was never used. The seat's pocket is empty before,
/// and holds the node after Ok.
///
/// Refusals: `NoNode` where at one step all nodes were used and none was free, `WornOut(Free)` where at one step Free's
/// count was the greatest one, and `Busy` where each of so many turns failed, 1 or more: each met a changed word. The
/// pocket is then empty. Takes no memory and doesn't wait.
#[inline(always)]
pub fn take<const B: u32, T>(
    arena: &ArenaOf<B, T>,
    seat: &mut Seat<T>,
    turns: u32,
) -> Result<Held, Refusal>
    requires ready { IsReady arena.now seat.old }
    requires empty { pocket_of seat.old ≡ None }
    requires turns { 1 ≤ turns }
    //= atomics/same_seat (ready, same, slots, lines, seen)
    ensures ready { IsReady arena.now seat.new }
    ensures same { KeepsName seat.old seat.new }
    ensures slots { KeepsSlots seat.old seat.new }
    //= atomics/take (pocket, taken): The node that a take answers was free or never used at its step, and is then this
    //=   seat's alone, in no chain, and in the pocket.
    //= atomics/take_refused (pocket, refused): A take is refused only where before its last step all nodes were used
    //=   and none was free, or Free's count was the greatest one; or exactly `turns` turns failed, the last one at that
    //=   step. The pocket is then empty.
    ensures pocket { MatchResult result
        (λ held. pocket_of seat.new ≡ Some held) (λ _. pocket_of seat.new ≡ None) }
    ensures lines { HadNoEffect seat.old seat.new }
    ensures seen { SeesNoMore seat.old seat.new }
    //= atomics/sound
    ensures sound { IsSound (permits_of arena.now) (known_of seat.new) }
    ensures taken { IfOk result (λ held. IsTaken arena.now seat.old seat.new held.node) }
    //= atomics/met_cause
    ensures refused { IfErr result (TakeRefused arena.now seat.old seat.new turns) }
    //= atomics/failed (failed, fewer)
    ensures failed { failed_of seat.new ≡ failed_turns (added seat.old seat.new) }
    ensures fewer { FailsFewer turns result (failed_of seat.new) }
{
    take_within(arena, seat, turns)
}
