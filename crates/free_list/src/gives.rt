//! Gives a node back.
ghost use Rattle.std.specs.Prelude.{◌≡◌, ◌≤◌, ◌<◌, None, IsSome, MatchResult, IfErr, OnOk};
ghost use Rattle.history.specs.Seats.{IsSound};
ghost use Rattle.node_arena.specs.Seats.{IsReady, KeepsName, KeepsSlots, permits_of, known_of, pocket_of, failed_of};
ghost use Rattle.node_arena.specs.Turns.{failed_turns};
ghost use Rattle.node_arena.specs.Paths.{HadNoEffect, SeesNoMore, added};
ghost use Rattle.line_table.specs.declared.lines.Line.TheVariants as lines;
ghost use Rattle.node_arena.specs.Prologues.{continues};
ghost use Rattle.free_list.specs.Runs.{CallIsAt, Follows, GoesTo, StartsGive, giving};
ghost use Rattle.free_list.specs.Gives.{StandsAfterF1, GiveTurns, GiveAnswers, IsGivenBack, GiveBackRefused};

use crate::turns::{ActorOf, Gave, given, registers};
use crate::{RowOutcome, access, first_row, frees, frees_aside, goes, onward, row};
use counted_ref::CountedRefOf;
use history::Refusal;
use line_table::{Line, line_table};
use node_arena::{ArenaOf, Held, Seat, raised};

/// `index` turns of this call failed before.
fn f1<const B: u32, T>(
    arena: &ArenaOf<B, T>,
    seat: &mut Seat<T>,
    held: Held,
    index: u32,
) -> RowOutcome<ActorOf<B>>
    requires stands { StartsGive arena.now seat.old (giving index) held }
    ensures { StandsAfterF1 arena.now seat.old seat.new held result }
{
    let setup = arena.setup();
    let mut a = registers(arena, held.node, held.mark);
    line_table!(F1 (setup me a found) first_row (arena seat found index))
}

fn f2<const B: u32, T>(arena: &ArenaOf<B, T>, seat: &mut Seat<T>, a: ActorOf<B>) -> ActorOf<B>
    requires stands { CallIsAt arena.now seat.old continues lines.F2 a }
    ensures goes { GoesTo arena.now seat.old seat.new lines.F3 result }
    ensures same { result ≡ a.entry }
{
    use onward::goes;
    let _ = arena.setup();
    line_table!(F2 (setup me a found) row (arena seat found))
}

fn f3<const B: u32, T>(
    arena: &ArenaOf<B, T>,
    seat: &mut Seat<T>,
    a: ActorOf<B>,
) -> RowOutcome<ActorOf<B>>
    requires stands { CallIsAt arena.now seat.old continues lines.F3 a }
    ensures { Follows arena.now seat.old seat.new continues lines.F3 a.entry result }
{
    let setup = arena.setup();
    line_table!(F3 (setup me a found) row (arena seat found))
}

// One turn, where `index` turns of this call failed before.
fn give_turn<const B: u32, T>(
    arena: &ArenaOf<B, T>,
    seat: &mut Seat<T>,
    held: Held,
    index: u32,
) -> Gave
    requires { StartsGive arena.now seat.old (giving index) held }
    ensures { GiveTurns arena.now seat.old seat.new 0 held result }
{
    match f1(arena, seat, held, index) {
        RowOutcome::Goes(_, a) => {
            let a = f2(arena, seat, a);
            given(f3(arena, seat, a))
        }
        RowOutcome::Ends(_) => Gave::Back,
    }
}

// Turns until one succeeds, or all failed.
fn give_within<const B: u32, T>(
    arena: &ArenaOf<B, T>,
    seat: &mut Seat<T>,
    turns: u32,
) -> Result<(), Refusal>
    requires ready { IsReady arena.now seat.old }
    requires full { IsSome (pocket_of seat.old) }
    requires turns { 1 ≤ turns }
    ensures { GiveAnswers arena.now seat.old seat.new turns result }
{
    let held = seat.pocket().unwrap();
    for index in 0..turns {
        if let Gave::Back = give_turn(arena, seat, held, index) {
            seat.keep(None, index);
            return Ok(());
        }
    }
    seat.keep(Some(held), turns);
    Err(Refusal::Busy)
}

/// Gives back the node in the seat's pocket: it is then free, or set aside for good where Free's count is the greatest
/// one. The pocket is full before, and empty after Ok.
///
/// Refused by `Busy` alone, where each of so many turns failed, 1 or more: each met a changed word. The node is then
/// still in the pocket. Takes no memory and doesn't wait.
pub fn give_back<const B: u32, T>(
    arena: &ArenaOf<B, T>,
    seat: &mut Seat<T>,
    turns: u32,
) -> Result<(), Refusal>
    requires ready { IsReady arena.now seat.old }
    requires full { IsSome (pocket_of seat.old) }
    requires turns { 1 ≤ turns }
    //= atomics/same_seat (ready, same, slots, lines, seen): A take and a give back leave the seat ready for a call, and
    //=   its number, role, whether it keeps its nodes, slots, own entries, notes and what it has seen as they were.
    ensures ready { IsReady arena.now seat.new }
    ensures same { KeepsName seat.old seat.new }
    ensures slots { KeepsSlots seat.old seat.new }
    //= atomics/give_back (pocket, back, refused): After a give back at Ok the node is free, or set aside where Free's
    //=   count is the greatest one, and the pocket is empty; at `Busy`, its only refusal, exactly `turns` turns failed,
    //=   the last one at the last step, and the pocket keeps the node.
    ensures pocket { MatchResult result
        (λ _. pocket_of seat.new ≡ None) (λ _. pocket_of seat.new ≡ pocket_of seat.old) }
    ensures lines { HadNoEffect seat.old seat.new }
    ensures seen { SeesNoMore seat.old seat.new }
    //= atomics/sound
    ensures sound { IsSound (permits_of arena.now) (known_of seat.new) }
    ensures back { OnOk result (IsGivenBack arena.now seat.old seat.new) }
    ensures refused { IfErr result (GiveBackRefused seat.old seat.new turns) }
    //= atomics/failed (failed, fewer)
    ensures failed { failed_of seat.new ≡ failed_turns (added seat.old seat.new) }
    ensures fewer { OnOk result (failed_of seat.new < turns) }
{
    give_within(arena, seat, turns)
}
