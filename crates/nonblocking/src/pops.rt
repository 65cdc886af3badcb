//! Takes the value at the front.
ghost use Rattle.std.specs.Prelude.{◌≡◌, ◌<◌, IsTrue, None};
ghost use Rattle.line_table.specs.declared.lines.Line.TheVariants as lines;
ghost use Rattle.node_arena.specs.Prologues.{continues};
ghost use Rattle.node_arena.specs.Plans.{may_pop};
ghost use Rattle.node_arena.specs.Loads.{IsBare};
ghost use Rattle.node_arena.specs.Seats.{IsReady, IsBefore, role_of, pocket_of};
ghost use Rattle.nonblocking.specs.Values.{IsNonBlocking};
ghost use Rattle.nonblocking.specs.Pops.{popping, CallIsAt, ReadsFront, Turns, Tries};
ghost use Rattle.nonblocking.specs.Worn.{pop_worn};
ghost use Rattle.arena_queue.specs.Answers.{PopsWithoutNode};

use crate::pop_lines::{d2, d3, d4, d5, d10, d12, d13};
use crate::pop_outcomes::{ActorOf, Turn, blank, turned};
use free_list::{RowOutcome, give_back};
use history::{Refusal, Taken};
use line_table::Line;
use node_arena::{ArenaOf, Seat, value_of};

// The lines D2 to D5, where `index` turns of this pop failed before: Head, Tail, the node after Head's, and Head again.
fn read_front<const B: u32, T>(
    arena: &ArenaOf<B, T>,
    seat: &mut Seat<T>,
    index: u32,
) -> RowOutcome<ActorOf<B>>
    requires before { IsBefore arena.now seat.old (popping index) lines.D2 }
    requires non_blocking { IsNonBlocking arena.now }
    ensures { ReadsFront arena.now seat.old seat.new result }
{
    let a = d2(arena, seat, blank(arena), index);
    let a = d3(arena, seat, a);
    let a = d4(arena, seat, a);
    d5(arena, seat, a)
}

// The lines D12 and D13: the value of the node after Head's, and then Head is moved to that node.
fn move_head<const B: u32, T>(arena: &ArenaOf<B, T>, seat: &mut Seat<T>, a: ActorOf<B>) -> Turn
    requires stands { CallIsAt arena.now seat.old continues lines.D12 a }
    requires non_blocking { IsNonBlocking arena.now }
    requires bare { IsBare arena.now seat.old }
    requires role { IsTrue (may_pop (role_of seat.old)) }
    ensures { Turns arena.now seat.old seat.new result }
{
    let RowOutcome::Goes(_, a) = d12(arena, seat, a) else {
        unreachable!()
    };
    turned(d13(arena, seat, a))
}

// One turn, where `index` turns of this pop failed before.
fn pop_turn<const B: u32, T>(arena: &ArenaOf<B, T>, seat: &mut Seat<T>, index: u32) -> Turn
    requires before { IsBefore arena.now seat.old (popping index) lines.D2 }
    requires non_blocking { IsNonBlocking arena.now }
    requires bare { IsBare arena.now seat.old }
    requires role { IsTrue (may_pop (role_of seat.old)) }
    ensures { Turns arena.now seat.old seat.new result }
{
    match read_front(arena, seat, index) {
        RowOutcome::Goes(next, a) => match next {
            Line::D10 => {
                d10(arena, seat, a);
                Turn::Failed
            }
            Line::D12 => move_head(arena, seat, a),
            _ => Turn::Failed,
        },
        outcome => turned(outcome),
    }
}

// One turn and, where it ends the pop, the answer: a node that comes free stays in the pocket of a seat that keeps its
// nodes, and else is given back with the turns that are left. Before it `index` turns of this pop failed, and `failed` of its call.
fn pop_by_turn<const B: u32, T>(
    arena: &ArenaOf<B, T>,
    seat: &mut Seat<T>,
    index: u32,
    failed: u32,
    turns: u32,
) -> Option<Result<Option<Taken>, Refusal>>
    requires before { IsBefore arena.now seat.old (popping index) lines.D2 }
    requires non_blocking { IsNonBlocking arena.now }
    requires bare { IsBare arena.now seat.old }
    requires role { IsTrue (may_pop (role_of seat.old)) }
    requires turns { failed < turns }
    ensures { Tries arena.now seat.old seat.new failed turns result }
{
    match pop_turn(arena, seat, index) {
        Turn::Took(word, held) => {
            let taken = value_of(word);
            seat.keep(Some(held), failed);
            if !seat.keeps_nodes() {
                let _ = give_back(arena, seat, turns - failed);
            }
            Some(Ok(Some(taken)))
        }
        Turn::Failed => None,
        Turn::Empty => {
            seat.keep(None, failed);
            Some(Ok(None))
        }
        Turn::Refused(refusal) => {
            seat.keep(None, failed);
            Some(Err(refusal))
        }
    }
}

// The pop with an empty pocket, where `spent` turns of this call failed before.
pub(crate) fn pop_with_empty_pocket<const B: u32, T>(
    arena: &ArenaOf<B, T>,
    seat: &mut Seat<T>,
    spent: u32,
    turns: u32,
) -> Result<Option<Taken>, Refusal>
    requires ready { IsReady arena.now seat.old }
    requires non_blocking { IsNonBlocking arena.now }
    requires bare { IsBare arena.now seat.old }
    requires role { IsTrue (may_pop (role_of seat.old)) }
    requires empty { pocket_of seat.old ≡ None }
    requires turns { spent < turns }
    ensures { PopsWithoutNode pop_worn arena.now seat.old seat.new spent turns result }
{
    for index in 0..turns - spent {
        if let Some(answer) = pop_by_turn(arena, seat, index, spent + index, turns) {
            return answer;
        }
    }
    seat.keep(None, turns);
    Err(Refusal::Busy)
}
