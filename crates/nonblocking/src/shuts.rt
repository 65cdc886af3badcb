//! Shuts the queue.
ghost use Rattle.std.specs.Prelude.{◌≤◌, IsTrue};
ghost use Rattle.line_table.specs.declared.lines.Line.TheVariants as lines;
ghost use Rattle.node_arena.specs.Plans.{may_push};
ghost use Rattle.node_arena.specs.Seats.{IsReady, IsBefore, role_of};
ghost use Rattle.nonblocking.specs.Values.{IsNonBlocking};
ghost use Rattle.nonblocking.specs.Shuts.{shutting, HasPocket, ReadsEnd, Turns};
ghost use Rattle.nonblocking.specs.Worn.{shut_worn};
ghost use Rattle.arena_queue.specs.Answers.{AnswersShut};

use crate::shut_lines::{s1, s2, s3, s4, s5};
use crate::shut_outcomes::{ActorOf, Turn, blank, turned};
use free_list::RowOutcome;
use history::Refusal;
use line_table::Line;
use node_arena::{ArenaOf, Seat};

// The lines S1 to S3, where `index` turns of this shut failed before: Tail, what follows its node, and Tail again.
fn read_end<const B: u32, T>(
    arena: &ArenaOf<B, T>,
    seat: &mut Seat<T>,
    index: u32,
) -> RowOutcome<ActorOf<B>>
    requires before { IsBefore arena.now seat.old (shutting index) lines.S1 }
    requires pocket { HasPocket arena.now seat.old (shutting index) }
    ensures { ReadsEnd arena.now seat.old seat.new result }
{
    let a = s1(arena, seat, blank(arena), index);
    let a = s2(arena, seat, a);
    s3(arena, seat, a)
}

// One turn, where `index` turns of this shut failed before. At S4 the closed end is put behind the last node; where Tail lags,
// it goes on at S5.
fn shut_turn<const B: u32, T>(arena: &ArenaOf<B, T>, seat: &mut Seat<T>, index: u32) -> Turn
    requires before { IsBefore arena.now seat.old (shutting index) lines.S1 }
    requires pocket { HasPocket arena.now seat.old (shutting index) }
    requires role { IsTrue (may_push (role_of seat.old)) }
    ensures { Turns arena.now seat.old seat.new result }
{
    match read_end(arena, seat, index) {
        RowOutcome::Goes(next, a) => match next {
            Line::S4 => turned(s4(arena, seat, a)),
            Line::S5 => {
                s5(arena, seat, a);
                Turn::Failed
            }
            _ => Turn::Failed,
        },
        outcome => turned(outcome),
    }
}

// The shut, which leaves the pocket alone.
pub(crate) fn shut_queue<const B: u32, T>(
    arena: &ArenaOf<B, T>,
    seat: &mut Seat<T>,
    turns: u32,
) -> Result<(), Refusal>
    requires ready { IsReady arena.now seat.old }
    requires non_blocking { IsNonBlocking arena.now }
    requires role { IsTrue (may_push (role_of seat.old)) }
    requires turns { 1 ≤ turns }
    ensures { AnswersShut shut_worn arena.now seat.old seat.new turns result }
{
    let pocket = seat.pocket();
    for index in 0..turns {
        match shut_turn(arena, seat, index) {
            Turn::Shut => {
                seat.keep(pocket, index);
                return Ok(());
            }
            Turn::Refused(refusal) => {
                seat.keep(pocket, index);
                return Err(refusal);
            }
            Turn::Failed => {}
        }
    }
    seat.keep(pocket, turns);
    Err(Refusal::Busy)
}
