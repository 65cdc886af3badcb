//! Takes the value at the front.
ghost use Rattle.std.specs.Prelude.{◌≡◌, ◌<◌, IsTrue, None};
ghost use Rattle.line_table.specs.declared.lines.Line.TheVariants as lines;
ghost use Rattle.node_arena.specs.Prologues.{continues};
ghost use Rattle.node_arena.specs.Plans.{may_pop};
ghost use Rattle.node_arena.specs.Loads.{IsBare};
ghost use Rattle.node_arena.specs.Seats.{IsReady, IsBefore, role_of, pocket_of};
ghost use Rattle.two_lock.specs.Values.{IsTwoLock};
ghost use Rattle.two_lock.specs.Pops.{CallIsAt, PopsUnderLock};
ghost use Rattle.two_lock.specs.Worn.{pop_worn};
ghost use Rattle.arena_queue.specs.Answers.{PopsWithoutNode};

use crate::pop_lines::{b1, b2, b3, b4, b5, b6};
use crate::pop_outcomes::{ActorOf, blank, got_lock};
use free_list::{Reply, RowOutcome, give_back};
use history::{Refusal, Taken};
use line_table::Line;
use node_arena::{ArenaOf, Held, Seat, value_of};

// With the lock: the value after Head's node is taken where there is one, and the lock is let go.
fn read_front<const B: u32, T>(
    arena: &ArenaOf<B, T>,
    seat: &mut Seat<T>,
    a: ActorOf<B>,
) -> RowOutcome<ActorOf<B>>
    requires stands { CallIsAt arena.now seat.old continues lines.B2 a }
    requires two_lock { IsTwoLock arena.now }
    requires bare { IsBare arena.now seat.old }
    requires role { IsTrue (may_pop (role_of seat.old)) }
    ensures { PopsUnderLock arena.now seat.old seat.new result }
{
    let a = b2(arena, seat, a);
    let (next, a) = b3(arena, seat, a);
    if let Line::B6 = next {
        return b6(arena, seat, a);
    }
    let (next, a) = b4(arena, seat, a);
    if let Line::B6 = next {
        return b6(arena, seat, a);
    }
    let a = b5(arena, seat, a);
    b6(arena, seat, a)
}

// With the lock, where so many turns failed before: a node that comes free stays in the pocket of a seat that keeps its
// nodes, and else is given back with the turns that are left.
fn pop_locked<const B: u32, T>(
    arena: &ArenaOf<B, T>,
    seat: &mut Seat<T>,
    failed: u32,
    turns: u32,
) -> Result<Option<Taken>, Refusal>
    requires before { IsBefore arena.now seat.old continues lines.B2 }
    requires two_lock { IsTwoLock arena.now }
    requires bare { IsBare arena.now seat.old }
    requires role { IsTrue (may_pop (role_of seat.old)) }
    requires turns { failed < turns }
    ensures { PopsWithoutNode pop_worn arena.now seat.old seat.new failed turns result }
{
    match read_front(arena, seat, blank(arena)) {
        RowOutcome::Goes(_, a) => {
            let node = a.node;
            let mark = a.mark;
            let taken = value_of(a.val);
            seat.keep(Some(Held { node, mark }), failed);
            if !seat.keeps_nodes() {
                let _ = give_back(arena, seat, turns - failed);
            }
            Ok(Some(taken))
        }
        RowOutcome::Ends(reply) => {
            seat.keep(None, failed);
            match reply {
                Reply::Refused(refusal) => Err(refusal),
                _ => Ok(None),
            }
        }
    }
}

// The pop with an empty pocket, where `spent` turns of this call failed before.
pub(crate) fn pop_with_empty_pocket<const B: u32, T>(
    arena: &ArenaOf<B, T>,
    seat: &mut Seat<T>,
    spent: u32,
    turns: u32,
) -> Result<Option<Taken>, Refusal>
    requires ready { IsReady arena.now seat.old }
    requires two_lock { IsTwoLock arena.now }
    requires bare { IsBare arena.now seat.old }
    requires role { IsTrue (may_pop (role_of seat.old)) }
    requires empty { pocket_of seat.old ≡ None }
    requires turns { spent < turns }
    ensures { PopsWithoutNode pop_worn arena.now seat.old seat.new spent turns result }
{
    for index in 0..turns - spent {
        if got_lock(b1(arena, seat, blank(arena), index)) {
            return pop_locked(arena, seat, spent + index, turns);
        }
    }
    seat.keep(None, turns);
    Err(Refusal::Busy)
}
