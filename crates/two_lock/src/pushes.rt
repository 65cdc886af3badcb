//! Pushes a body.
ghost use Rattle.std.specs.Prelude.{◌≡◌, ◌<◌, IsTrue, Some, OnErr};
ghost use Rattle.line_table.specs.declared.lines.Line.TheVariants as lines;
ghost use Rattle.node_arena.specs.Prologues.{continues};
ghost use Rattle.node_arena.specs.Machine.{value_of};
ghost use Rattle.node_arena.specs.Plans.{may_push};
ghost use Rattle.node_arena.specs.Loads.{IsLoaded};
ghost use Rattle.node_arena.specs.Seats.{IsReady, role_of, pocket_of};
ghost use Rattle.two_lock.specs.Values.{IsTwoLock};
ghost use Rattle.two_lock.specs.Pushes.{CallIsAt, PushesUnderLock};
ghost use Rattle.two_lock.specs.Worn.{push_worn};
ghost use Rattle.arena_queue.specs.Answers.{PushesWithNode};

use crate::push_lines::{a1, a2, a3, a4, a5, a6, a7};
use crate::push_outcomes::{ActorOf, got_lock, registers};
use history::{Body, Refusal};
use line_table::Line;
use node_arena::{ArenaOf, Held, Seat, word_of};

// With the lock: the node is linked behind the last one and Tail goes on to it, unless the queue is shut; the lock is let
// go.
fn push_locked<const B: u32, T>(
    arena: &ArenaOf<B, T>,
    seat: &mut Seat<T>,
    a: ActorOf<B>,
) -> Result<(), Refusal>
    requires stands { CallIsAt arena.now seat.old continues lines.A4 a }
    requires loaded { IsLoaded arena.now (value_of a.val).body seat.old }
    requires role { IsTrue (may_push (role_of seat.old)) }
    ensures { PushesUnderLock arena.now seat.old seat.new a.entry result }
{
    let a = a4(arena, seat, a);
    let (next, a) = a5(arena, seat, a);
    if let Line::A7 = next {
        a7(arena, seat, a);
        return Err(Refusal::Closed);
    }
    let a = a6(arena, seat, a);
    a7(arena, seat, a);
    Ok(())
}

// The push with the node in the pocket, where `spent` turns of this call failed before.
pub(crate) fn push_node<const B: u32, T>(
    arena: &ArenaOf<B, T>,
    seat: &mut Seat<T>,
    held: Held,
    body: Body,
    spent: u32,
    turns: u32,
) -> Result<(), Refusal>
    requires ready { IsReady arena.now seat.old }
    requires two_lock { IsTwoLock arena.now }
    requires loaded { IsLoaded arena.now body seat.old }
    requires role { IsTrue (may_push (role_of seat.old)) }
    requires full { pocket_of seat.old ≡ Some held }
    requires turns { spent < turns }
    ensures puts { PushesWithNode push_worn arena.now seat.old seat.new held.node body spent turns
        result }
    ensures pocket { OnErr result (pocket_of seat.new ≡ Some held) }
{
    let val = word_of(seat.number(), body.number());
    let a = a1(arena, seat, registers(arena, held, val));
    let _ = a2(arena, seat, a);
    for index in spent..turns {
        if got_lock(a3(arena, seat, registers(arena, held, val))) {
            match push_locked(arena, seat, registers(arena, held, val)) {
                Ok(()) => {
                    seat.keep(None, index);
                    return Ok(());
                }
                Err(refusal) => {
                    seat.keep(Some(held), index);
                    return Err(refusal);
                }
            }
        }
    }
    seat.keep(Some(held), turns);
    Err(Refusal::Busy)
}
