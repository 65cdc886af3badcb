//! Calls of queues of words that write what they found, told by codes.
ghost use Rattle.std.specs.Prelude.{◌≡◌, false};
ghost use Rattle.msq_c.specs.Codes.{Tells, done_code, pop_code};
ghost use Rattle.msq_c.specs.Looks.{len_code, IsLenWritten};
ghost use Rattle.msq_c.specs.Words.{IsItemWritten};
ghost use Rattle.msq_c.specs.WordSeats.{AnswersPop};
ghost use Rattle.msq_c.specs.WordLooks.{TellsLen, AnswersLook};
ghost use Rattle.msq_c.specs.WordEnds.{AreOfOne};
ghost use Rattle.msq_c.specs.WordRests.{AnswersClose};

use crate::bounds::MsqLen;
use crate::rests::MsqRest;
use crate::slots::{Slot, lift};
use crate::troubles::{EMPTY, UNCOUNTED};
use crate::word_blocks::WordsBlock;
use crate::words::Item;
use crate::{word_calls, word_ends, word_looks, word_rests};
use picked::AnyValues;
use std::alloc::Global;

/// A pop by a handle, whose value is written where there is one.
pub(crate) fn pop<T: Send + Drop, H: Slot<WordsBlock<AnyValues<T>>>, I: Item<T> + Drop>(
    alloc: Global,
    slot: &mut H,
    turns: u32,
    item: &mut I,
) -> u32
    ensures { Tells pop_code result (λ out. AnswersPop H.holds H.own slot.old slot.new turns out
        × IsItemWritten I.told out item.old item.new) }
{
    match word_calls::pop(alloc, slot, turns) {
        Ok(Some(front)) => {
            *item = I::of(front);
            0
        }
        Ok(None) => EMPTY,
        Err(refusal) => refusal.code(),
    }
}

/// A look by a handle at how many values the queue holds, which is written where it can be told.
pub(crate) fn len<T: Send + Drop, H: Slot<WordsBlock<AnyValues<T>>>>(
    alloc: Global,
    slot: &mut H,
    len: &mut MsqLen,
) -> u32
    ensures { Tells len_code result (λ out.
        AnswersLook H.holds H.own TellsLen slot.old slot.new out
        × IsLenWritten out len.old len.new) }
{
    match word_looks::count(alloc, slot) {
        Ok(Some(found)) => {
            *len = found;
            0
        }
        Ok(None) => UNCOUNTED,
        Err(refusal) => refusal.code(),
    }
}

/// The end of the queue of these handles, with what is left written.
pub(crate) fn close<T: Send + Drop, H: Slot<WordsBlock<AnyValues<T>>>, I: Item<T> + Drop>(
    alloc: Global,
    slots: &mut [H],
    items: &mut [I],
    rest: &mut MsqRest,
) -> u32
    requires { AreOfOne H.holds H.own slots.old }
    ensures { Tells done_code result (AnswersClose H.holds H.own I.told
        slots.old slots.new items.old items.new rest.old rest.new) }
{
    match word_ends::close(alloc, slots) {
        Ok((found, _end)) => {
            *rest = word_rests::written(found, items);
            0
        }
        Err(refusal) => refusal.code(),
    }
}

/// Drops the seat of a handle, which is left empty.
pub(crate) fn empty<O: Drop, H: Slot<O>>(alloc: Global, slot: &mut H)
    ensures { H.holds slot.new ≡ false }
{
    if slot.is_full() {
        drop(lift(alloc, slot));
    }
}
