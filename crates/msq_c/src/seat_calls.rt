//! A call of the queue by a handle.
ghost use Rattle.msq_c.specs.Seats.{AnswersPush, AnswersPop, AnswersShut, AnswersMeet, MayMeet};

use crate::handles::MsqSeat;
use crate::slots::{Slot, lift};
use crate::troubles::Trouble;
use history::Taken;
use std::alloc::Global;

/// A push by a handle.
pub(crate) fn push(alloc: Global, slot: &mut MsqSeat, body: u64, turns: u32) -> Result<(), Trouble>
    ensures { AnswersPush slot.old slot.new body turns result }
{
    if !slot.is_full() {
        return Err(Trouble::NoHandle);
    }
    let mut own = lift(alloc, slot);
    let answer = own.try_push(body, turns);
    *slot = MsqSeat::of(own);
    answer
}

/// A pop by a handle.
pub(crate) fn pop(alloc: Global, slot: &mut MsqSeat, turns: u32) -> Result<Option<Taken>, Trouble>
    ensures { AnswersPop slot.old slot.new turns result }
{
    if !slot.is_full() {
        return Err(Trouble::NoHandle);
    }
    let mut own = lift(alloc, slot);
    let answer = own.try_pop(turns);
    *slot = MsqSeat::of(own);
    answer
}

/// A shut by a handle.
pub(crate) fn shut(alloc: Global, slot: &mut MsqSeat, turns: u32) -> Result<(), Trouble>
    ensures { AnswersShut slot.old slot.new turns result }
{
    if !slot.is_full() {
        return Err(Trouble::NoHandle);
    }
    let mut own = lift(alloc, slot);
    let answer = own.try_shut(turns);
    *slot = MsqSeat::of(own);
    answer
}

/// Two handles meet.
pub(crate) fn meet(alloc: Global, one: &mut MsqSeat, other: &mut MsqSeat) -> Result<(), Trouble>
    requires { MayMeet one.old other.old }
    ensures { AnswersMeet one.old other.old one.new other.new result }
{
    if !one.is_full() || !other.is_full() {
        return Err(Trouble::NoHandle);
    }
    let mut first = lift(alloc, one);
    let mut second = lift(alloc, other);
    first.meet(&mut second);
    *one = MsqSeat::of(first);
    *other = MsqSeat::of(second);
    Ok(())
}
