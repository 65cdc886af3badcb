//! Shuts the queue.
ghost use Rattle.std.specs.Prelude.{◌≤◌, IsTrue};
ghost use Rattle.line_table.specs.declared.lines.Line.TheVariants as lines;
ghost use Rattle.node_arena.specs.Prologues.{continues};
ghost use Rattle.node_arena.specs.Plans.{may_push};
ghost use Rattle.node_arena.specs.Seats.{IsReady, role_of};
ghost use Rattle.two_lock.specs.Values.{IsTwoLock};
ghost use Rattle.two_lock.specs.Shuts.{CallIsAt, ShutsUnderLock};
ghost use Rattle.two_lock.specs.Worn.{shut_worn};
ghost use Rattle.arena_queue.specs.Answers.{AnswersShut};

use crate::shut_lines::{s6, s7, s8, s9};
use crate::shut_outcomes::{ActorOf, blank, got_lock};
use history::Refusal;
use node_arena::{ArenaOf, Seat};

// With the lock: a closed end is put behind the last node, unless the queue is shut; the lock is let go.
fn shut_locked<const B: u32, T>(
    arena: &ArenaOf<B, T>,
    seat: &mut Seat<T>,
    a: ActorOf<B>,
) -> Result<(), Refusal>
    requires stands { CallIsAt arena.now seat.old continues lines.S7 a }
    requires role { IsTrue (may_push (role_of seat.old)) }
    ensures { ShutsUnderLock arena.now seat.old seat.new result }
{
    let a = s7(arena, seat, a);
    let a = s8(arena, seat, a);
    s9(arena, seat, a)
}

// The shut. What is in the pocket stays there.
pub(crate) fn shut_queue<const B: u32, T>(
    arena: &ArenaOf<B, T>,
    seat: &mut Seat<T>,
    turns: u32,
) -> Result<(), Refusal>
    requires ready { IsReady arena.now seat.old }
    requires two_lock { IsTwoLock arena.now }
    requires role { IsTrue (may_push (role_of seat.old)) }
    requires turns { 1 ≤ turns }
    ensures { AnswersShut shut_worn arena.now seat.old seat.new turns result }
{
    for index in 0..turns {
        if got_lock(s6(arena, seat, blank(arena), index)) {
            return shut_locked(arena, seat, blank(arena));
        }
    }
    Err(Refusal::Busy)
}
