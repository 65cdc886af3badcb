//! Pushes a body.
ghost use Rattle.std.specs.Prelude.{◌≡◌, ◌<◌, IsTrue, Some};
ghost use Rattle.line_table.specs.declared.lines.Line.TheVariants as lines;
ghost use Rattle.node_arena.specs.Prologues.{continues};
ghost use Rattle.node_arena.specs.Plans.{may_push};
ghost use Rattle.node_arena.specs.Loads.{IsLoaded};
ghost use Rattle.node_arena.specs.Seats.{IsReady, role_of, pocket_of};
ghost use Rattle.nonblocking.specs.Values.{IsNonBlocking};
ghost use Rattle.node_arena.specs.Machine.{value_of};
ghost use Rattle.nonblocking.specs.Pushes.{pushing, registers_of, CallIsAt, Fills, ReadsTail, Turns};
ghost use Rattle.nonblocking.specs.Worn.{push_worn};
ghost use Rattle.arena_queue.specs.Answers.{PushesWithNode};

use crate::push_lines::{e2, e3, e5, e6, e7, e9, e13, e17};
use crate::push_outcomes::{ActorOf, Turn, registers};
use free_list::{Reply, RowOutcome};
use history::{Body, Refusal};
use line_table::Line;
use node_arena::{ArenaOf, Held, Seat, word_of};

// The value is written into the node, and its next is cleared; the count found there is the mark.
fn fill<const B: u32, T>(
    arena: &ArenaOf<B, T>,
    seat: &mut Seat<T>,
    a: ActorOf<B>,
) -> RowOutcome<ActorOf<B>>
    requires stands { CallIsAt arena.now seat.old (pushing a.val) lines.E2 a }
    ensures { Fills arena.now seat.old seat.new a.entry result }
{
    let a = e2(arena, seat, a);
    e3(arena, seat, a)
}

// Tail is read, what follows its node, and Tail again.
fn read_tail<const B: u32, T>(
    arena: &ArenaOf<B, T>,
    seat: &mut Seat<T>,
    a: ActorOf<B>,
) -> RowOutcome<ActorOf<B>>
    requires stands { CallIsAt arena.now seat.old continues lines.E5 a }
    ensures { ReadsTail arena.now seat.old seat.new a.entry result }
{
    let a = e5(arena, seat, a);
    let a = e6(arena, seat, a);
    e7(arena, seat, a)
}

// One turn, from E5 to its end. At E9 the node is linked behind the last one, and at E17 Tail goes on to it unless another
// seat was there first.
fn push_turn<const B: u32, T>(arena: &ArenaOf<B, T>, seat: &mut Seat<T>, a: ActorOf<B>) -> Turn
    requires stands { CallIsAt arena.now seat.old continues lines.E5 a }
    requires loaded { IsLoaded arena.now (value_of a.val).body seat.old }
    requires role { IsTrue (may_push (role_of seat.old)) }
    ensures { Turns arena.now seat.old seat.new a.entry result }
{
    match read_tail(arena, seat, a) {
        RowOutcome::Goes(Line::E9, a) => match e9(arena, seat, a) {
            RowOutcome::Goes(next, a) => match next {
                Line::E17 => {
                    e17(arena, seat, a);
                    Turn::Pushed
                }
                _ => Turn::Failed,
            },
            RowOutcome::Ends(_) => Turn::Pushed,
        },
        RowOutcome::Goes(Line::E13, a) => {
            e13(arena, seat, a);
            Turn::Failed
        }
        RowOutcome::Ends(Reply::Refused(refusal)) => Turn::Refused(refusal),
        RowOutcome::Goes(..) | RowOutcome::Ends(_) => Turn::Failed,
    }
}

// The push with the node in the pocket, where `spent` turns of this call failed before.
pub(crate) fn push_node<const B: u32, T>(
    arena: &ArenaOf<B, T>,
    seat: &mut Seat<T>,
    held: Held,
    body: Body,
    spent: u32,
    turns: u32,
) -> Result<(), Refusal>
    requires ready { IsReady arena.now seat.old }
    requires non_blocking { IsNonBlocking arena.now }
    requires loaded { IsLoaded arena.now body seat.old }
    requires role { IsTrue (may_push (role_of seat.old)) }
    requires full { pocket_of seat.old ≡ Some held }
    requires turns { spent < turns }
    ensures { PushesWithNode push_worn arena.now seat.old seat.new held.node body spent turns
        result }
{
    let val = word_of(seat.number(), body.number());
    let filled = match fill(arena, seat, registers(arena, held, val)) {
        RowOutcome::Goes(_, a) => Held {
            node: a.node,
            mark: a.mark,
        },
        RowOutcome::Ends(reply) => match reply {
            Reply::Refused(refusal) => {
                seat.keep(None, spent);
                return Err(refusal);
            }
            _ => unreachable!(),
        },
    };
    for index in spent..turns {
        match push_turn(arena, seat, registers(arena, filled, val)) {
            Turn::Pushed => {
                seat.keep(None, index);
                return Ok(());
            }
            Turn::Refused(refusal) => {
                seat.keep(Some(filled), index);
                return Err(refusal);
            }
            Turn::Failed => {}
        }
    }
    seat.keep(Some(filled), turns);
    Err(Refusal::Busy)
}
