//! What a queue of values does with a slot, about the one exchange at which its call has its effect.
ghost use Rattle.std.specs.Prelude.{[], ◌≡◌, true, Some, IfOk, IfErr, OnOk, IfSome, MatchOption};
ghost use Rattle.line_table.specs.declared.lines.Line.TheVariants.{E9, D13};
ghost use Rattle.step_machine.specs.Tables.{exchange_at};
ghost use Rattle.node_arena.specs.Places as places;
ghost use Rattle.node_arena.specs.Prologues.{Prologue};
ghost use Rattle.node_arena.specs.Seats.{IsSeat, IsReady, HasNoSlot, carries_of, plan_of, setup_of};
ghost use Rattle.node_arena.specs.Hands.{HasSlot, HasValue, FailedTries, HasTried, KeepsKnown};
ghost use Rattle.node_arena.specs.Hands.{SeesMoreDeeds, first_slot};
ghost use Rattle.worked_runs.specs.Steps.{MayPush, MayPop, PushedIt, PoppedIt, LostStep};

use line_table::Line;
use node_arena::{ArenaOf, Seat};

/// Gets a slot for a value and puts it there; or the value comes back, where so many tries failed.
pub fn load_slot<const B: u32, T>(
    arena: &ArenaOf<B, T>,
    seat: &mut Seat<T>,
    node: u32,
    turns: u32,
    value: T,
) -> Result<usize, T>
    requires ready { IsReady arena.now seat.old }
    requires carries { carries_of arena.now ≡ true }
    requires none { HasNoSlot seat.old }
    ensures ready { IsReady arena.now seat.new }
    ensures keeps { KeepsKnown seat.old seat.new }
    ensures loaded { IfOk result (λ slot. HasSlot arena.now seat.new slot (Some value)) }
    ensures back { IfErr result (λ back. (back ≡ value) × HasNoSlot seat.new) }
    ensures failed { IfErr result (λ _. FailedTries arena.now seat.old node turns) }
    ensures tried { IfErr result (λ _. HasTried (plan_of arena.now) seat.old seat.new
        (first_slot (setup_of arena.now).size node) turns []) }
{
    let Ok(got) = arena.get_slot(seat, node, turns) else {
        return Err(value);
    };
    arena.put_value(seat, got.slot, value);
    Ok(got.slot)
}

/// The exchange that pushes the slot of a seat, which stands before E9; where it is lost, the value comes back.
pub fn push_at_e9<const B: u32, T>(
    arena: &ArenaOf<B, T>,
    seat: &mut Seat<T>,
    slot: usize,
    word: usize,
    place: usize,
    old: u64,
    new: u64,
) -> Result<(), T>
    ghost prologue: { Prologue }
    requires may { MayPush arena.now seat.old prologue slot (exchange_at word old new) }
    requires has { HasValue arena.now seat.old slot }
    requires lies { place ≡ places.place word }
    ensures seat { IsSeat arena.now seat.new }
    ensures none { HasNoSlot seat.new }
    ensures pushed { OnOk result (PushedIt arena.now seat.old seat.new slot) }
    ensures back { IfErr result (λ back. HasSlot arena.now seat.old slot (Some back)) }
    ensures missed { IfErr result (λ _. SeesMoreDeeds seat.old seat.new) }
    ensures lost { IfErr result
        (λ _. LostStep arena.now seat.old seat.new prologue E9 old) }
{
    match arena.exchange(seat, Line::E9, word, place, old, new) {
        Ok(_) => Ok(()),
        Err(_) => {
            let back = arena.take_value(seat, slot);
            arena.free_slot(seat, slot);
            Err(back)
        }
    }
}

/// The exchange that pops a slot for a seat, which stands before D13 and has read its number; none where it is lost.
pub fn pop_at_d13<const B: u32, T>(
    arena: &ArenaOf<B, T>,
    seat: &mut Seat<T>,
    slot: usize,
    word: usize,
    place: usize,
    old: u64,
    new: u64,
) -> Option<T>
    ghost prologue: { Prologue }
    requires may { MayPop arena.now seat.old prologue slot (exchange_at word old new) }
    requires carries { carries_of arena.now ≡ true }
    requires none { HasNoSlot seat.old }
    requires lies { place ≡ places.place word }
    ensures seat { IsSeat arena.now seat.new }
    ensures none { HasNoSlot seat.new }
    ensures popped { IfSome result (PoppedIt seat.old seat.new) }
    ensures missed { MatchOption result (SeesMoreDeeds seat.old seat.new) (λ _. Unit {0}) }
    ensures lost { MatchOption result
        (LostStep arena.now seat.old seat.new prologue D13 old) (λ _. Unit {0}) }
{
    match arena.exchange(seat, Line::D13, word, place, old, new) {
        Ok(_) => {
            let value = arena.take_value(seat, slot);
            arena.free_slot(seat, slot);
            Some(value)
        }
        Err(_) => None,
    }
}
