//! A call of a queue of words by a handle.
ghost use Rattle.msq_c.specs.WordSeats.{AnswersPush, AnswersPop, AnswersShut, AnswersMeet, MayMeet};

use crate::slots::{Slot, lift};
use crate::troubles::Trouble;
use crate::word_blocks::WordsBlock;
use carriers::ItemOf;
use picked::AnyValues;
use std::alloc::Global;

/// A push by a handle.
pub(crate) fn push<T: Send + Drop, H: Slot<WordsBlock<AnyValues<T>>>>(
    alloc: Global,
    slot: &mut H,
    value: T,
    turns: u32,
) -> Result<(), Trouble>
    ensures { AnswersPush H.holds H.own slot.old slot.new value turns result }
{
    if !slot.is_full() {
        return Err(Trouble::NoHandle);
    }
    let mut own = lift(alloc, slot);
    let answer = own.try_push(value, turns);
    *slot = H::of(own);
    answer
}

/// A pop by a handle.
pub(crate) fn pop<T: Send + Drop, H: Slot<WordsBlock<AnyValues<T>>>>(
    alloc: Global,
    slot: &mut H,
    turns: u32,
) -> Result<Option<ItemOf<T>>, Trouble>
    ensures { AnswersPop H.holds H.own slot.old slot.new turns result }
{
    if !slot.is_full() {
        return Err(Trouble::NoHandle);
    }
    let mut own = lift(alloc, slot);
    let answer = own.try_pop(turns);
    *slot = H::of(own);
    answer
}

/// A shut by a handle.
pub(crate) fn shut<T: Send + Drop, H: Slot<WordsBlock<AnyValues<T>>>>(
    alloc: Global,
    slot: &mut H,
    turns: u32,
) -> Result<(), Trouble>
    ensures { AnswersShut H.holds H.own slot.old slot.new turns result }
{
    if !slot.is_full() {
        return Err(Trouble::NoHandle);
    }
    let mut own = lift(alloc, slot);
    let answer = own.try_shut(turns);
    *slot = H::of(own);
    answer
}

/// Two handles meet.
pub(crate) fn meet<T: Send + Drop, H: Slot<WordsBlock<AnyValues<T>>>>(
    alloc: Global,
    one: &mut H,
    other: &mut H,
) -> Result<(), Trouble>
    requires { MayMeet H.holds H.own one.old other.old }
    ensures { AnswersMeet H.holds H.own one.old other.old one.new other.new result }
{
    if !one.is_full() || !other.is_full() {
        return Err(Trouble::NoHandle);
    }
    let mut first = lift(alloc, one);
    let mut second = lift(alloc, other);
    first.meet(&mut second);
    *one = H::of(first);
    *other = H::of(second);
    Ok(())
}
