//! A call of many values by a handle.
ghost use Rattle.msq_c.specs.Many.{AnswersPushAll, AnswersPopUpTo};

use crate::handles::MsqSeat;
use crate::slots::{Slot, lift};
use crate::troubles::Trouble;
use crate::values::MsqValue;
use std::alloc::Global;

/// A push of many by a handle: how many were pushed.
pub(crate) fn push_all(
    alloc: Global,
    slot: &mut MsqSeat,
    bodies: &[u64],
    turns: u32,
) -> (usize, Result<(), Trouble>)
    ensures { AnswersPushAll slot.old slot.new bodies.now turns result.0 result.1 }
{
    if !slot.is_full() {
        return (0, Err(Trouble::NoHandle));
    }
    let mut own = lift(alloc, slot);
    let answer = own.push_all(bodies, turns);
    *slot = MsqSeat::of(own);
    answer
}

/// A pop of many by a handle: how many were popped.
pub(crate) fn pop_up_to(
    alloc: Global,
    slot: &mut MsqSeat,
    values: &mut [MsqValue],
    turns: u32,
) -> (usize, Result<Option<()>, Trouble>)
    ensures { AnswersPopUpTo slot.old slot.new values.old values.new turns result.0 result.1 }
{
    if !slot.is_full() {
        return (0, Err(Trouble::NoHandle));
    }
    let mut own = lift(alloc, slot);
    let answer = own.pop_up_to(alloc, values, turns);
    *slot = MsqSeat::of(own);
    answer
}
