//! The queues for C, of numbers and of words: each handle is a seat with its share of the queue.
#![tactic(auto)]

ghost use Rattle.std.specs.Prelude.{◌≡◌, false};
ghost use Rattle.msq_c.specs.Codes.{Tells, done_code, pop_code};
ghost use Rattle.msq_c.specs.Seats.{AnswersPush, AnswersPop, AnswersShut, AnswersMeet, MayMeet};
ghost use Rattle.msq_c.specs.Seats.{is_full};
ghost use Rattle.msq_c.specs.Looks.{emptiness_code, len_code};
ghost use Rattle.msq_c.specs.Looks.{TellsEmptiness, TellsLen, TellsLeft, AnswersLook};
ghost use Rattle.msq_c.specs.Looks.{IsLenWritten, IsLeftWritten};
ghost use Rattle.msq_c.specs.Made.{AnswersCreate};
ghost use Rattle.msq_c.specs.Values.{IsWritten};
ghost use Rattle.msq_c.specs.Ends.{AreOfOne};
ghost use Rattle.msq_c.specs.Rests.{AnswersClose};

mod bounds;
mod call_exports;
mod call_words;
mod ends;
mod handles;
mod kept_nodes;
mod looks;
mod many;
mod many_calls;
mod many_exports;
mod new_queues;
mod new_shares;
mod new_words_shares;
mod parts;
mod passed;
mod rests;
mod ring_acts;
mod seat_blocks;
mod seat_calls;
mod share_blocks;
mod share_ends;
mod share_handles;
mod slots;
mod troubles;
mod values;
mod word_blocks;
mod word_calls;
mod word_codes;
mod word_ends;
mod word_exports;
mod word_handles;
mod word_looks;
mod word_queues;
mod word_rests;
mod words;
mod words_call_exports;
mod words_share_ends;
mod words_share_handles;
mod words_shares;

use crate::bounds::{MsqLeft, MsqLen};
use crate::handles::MsqSeat;
use crate::looks::{ForLength, ForPushes, ForValues, code_of_emptiness, look};
use crate::rests::MsqRest;
use crate::slots::{Slot, lift};
use crate::troubles::{EMPTY, UNCOUNTED, code};
use crate::values::MsqValue;
use std::alloc::Global;

/// Pushes a body, below 2^48, at the back, in so many turns at most, 1 or more.
#[unsafe(no_mangle)]
pub extern "C" fn msq_try_push(alloc: Global, slot: &mut MsqSeat, body: u64, turns: u32) -> u32
    //= library/push: A push from C tells 0 where the body was pushed, exactly `MSQ_NO_SEAT` where the handle is empty,
    //=   and else its cause: the queue's, with its clauses, or a body or turns out of range, or a seat that may not
    //=   push, with no change. The handle stays full or empty, of the same queue.
    ensures { Tells done_code result (AnswersPush slot.old slot.new body turns) }
{
    code(seat_calls::push(alloc, slot, body, turns))
}

/// Takes the value at the front, in so many turns at most, 1 or more. It is written where there is one, and else `value` stays
/// as it is.
#[unsafe(no_mangle)]
pub extern "C" fn msq_try_pop(
    alloc: Global,
    slot: &mut MsqSeat,
    turns: u32,
    value: &mut MsqValue,
) -> u32
    //= library/pop: A pop from C tells as `msq_try_push` does; a value taken is written, and else nothing is.
    //=   `MSQ_EMPTY` tells that the queue was found empty.
    ensures { Tells pop_code result
        (λ out. AnswersPop slot.old slot.new turns out × IsWritten out value.old value.new) }
{
    match seat_calls::pop(alloc, slot, turns) {
        Ok(Some(taken)) => {
            *value = MsqValue::of(taken);
            0
        }
        Ok(None) => EMPTY,
        Err(refusal) => refusal.code(),
    }
}

/// Shuts the queue, in so many turns at most, 1 or more.
#[unsafe(no_mangle)]
pub extern "C" fn msq_try_shut(alloc: Global, slot: &mut MsqSeat, turns: u32) -> u32
    //= library/shut: A shut from C tells as `msq_try_push` does. A meeting of two handles of one queue tells 0 where they
    //=   met, and else `MSQ_NO_SEAT`, only where one is empty, with no change; each stays full or empty, of the same queue.
    ensures { Tells done_code result (AnswersShut slot.old slot.new turns) }
{
    code(seat_calls::shut(alloc, slot, turns))
}

/// Both seats, of one queue, have seen one history afterwards.
#[unsafe(no_mangle)]
pub extern "C" fn msq_meet(alloc: Global, one: &mut MsqSeat, other: &mut MsqSeat) -> u32
    requires { MayMeet one.old other.old }
    //= library/shut
    ensures { Tells done_code result (AnswersMeet one.old other.old one.new other.new) }
{
    code(seat_calls::meet(alloc, one, other))
}

/// Whether the queue is empty, and shut too, by a code.
#[unsafe(no_mangle)]
pub extern "C" fn msq_emptiness(alloc: Global, slot: &mut MsqSeat) -> u32
    //= library/looks: A look from C at whether the queue is empty tells what `emptiness` of its queue does, by the codes of a
    //=   pop: 0 where it holds a value, `MSQ_EMPTY`, `MSQ_CLOSED` where it is shut too, `MSQ_BUSY` where pops took effect
    //=   meanwhile, or the place at the front of a ring that is shut isn't filled. One at its length writes what `len`
    //=   tells, and is told `MSQ_UNCOUNTED` exactly of a two-lock queue; one at what is left writes what `left` tells, of a
    //=   ring the pushes. Each is refused exactly where the handle is empty, with `MSQ_NO_SEAT` and no change, and else
    //=   keeps it full, of the same queue.
    ensures { Tells emptiness_code result (AnswersLook TellsEmptiness slot.old slot.new) }
{
    code_of_emptiness(look::<ForValues>(alloc, slot))
}

/// Bounds of how many values the queue holds, which are written where they can be told: not of the two-lock queue.
#[unsafe(no_mangle)]
pub extern "C" fn msq_len(alloc: Global, slot: &mut MsqSeat, len: &mut MsqLen) -> u32
    //= library/looks
    ensures { Tells len_code result
        (λ out. AnswersLook TellsLen slot.old slot.new out × IsLenWritten out len.old len.new) }
{
    match look::<ForLength>(alloc, slot) {
        Ok(Some(found)) => {
            *len = found;
            0
        }
        Ok(None) => UNCOUNTED,
        Err(refusal) => refusal.code(),
    }
}

/// How many pushes the queue has left at least until one of its words wears out, and what their counts leave.
#[unsafe(no_mangle)]
pub extern "C" fn msq_left(alloc: Global, slot: &mut MsqSeat, left: &mut MsqLeft) -> u32
    //= library/looks
    ensures { Tells done_code result
        (λ out. AnswersLook TellsLeft slot.old slot.new out × IsLeftWritten out left.old left.new) }
{
    match look::<ForPushes>(alloc, slot) {
        Ok(found) => {
            *left = found;
            0
        }
        Err(refusal) => refusal.code(),
    }
}

/// Makes a queue of a kind, 0 the non-blocking one, 1 the two-lock one and 2 the ring, and fills as many handles as there are
/// roles: 1 pushes, 2 pops, 3 does both.
#[unsafe(no_mangle)]
pub extern "C" fn msq_create(
    alloc: Global,
    kind: u32,
    nodes: u32,
    limit: u64,
    roles: &[u8],
    slots: &mut [MsqSeat],
) -> u32
    //= library/create: A queue made from C tells 0 only where all handles were empty, one for each role, and all
    //=   numbers in range; they are then all the seats, unused and in order, of one queue of the kind, nodes and roles asked
    //=   for, with the limit as greatest count, or that of the split where it is less; a ring has room for so many values, and
    //=   places for as many pushes as the limit says, or all there are. Refused, no handle changed, and the code is just the
    //=   one that include/msq.h has for the case.
    ensures { Tells done_code result
        (AnswersCreate kind nodes limit roles.now slots.old slots.new) }
{
    code(new_queues::create(alloc, kind, nodes, limit, roles, slots))
}

/// Ends the queue of these handles, which are all that have a share of it, and empties them. The values left are written
/// from the front, as many as there is room for.
#[unsafe(no_mangle)]
pub extern "C" fn msq_close(
    alloc: Global,
    slots: &mut [MsqSeat],
    values: &mut [MsqValue],
    rest: &mut MsqRest,
) -> u32
    requires { AreOfOne slots.old }
    //= library/end: A queue ended from C tells 0 where all these handles, now empty, closed it: what is left is what its own
    //=   `close` says of their seats, the values written from the front, as many as have room. Refused, nothing is written:
    //=   at `MSQ_NO_SEAT` a handle is empty, and none changed; at `MSQ_BAD_SIZE` there is none; at `MSQ_IN_USE` and
    //=   `MSQ_MEMORY` all keep their seats; at `MSQ_RACED` all are empty. When which of these three is told, and how many
    //=   seats end a ring, no clause says.
    ensures { Tells done_code result
        (AnswersClose slots.old slots.new values.old values.new rest.old rest.new) }
{
    match ends::close(alloc, slots) {
        Ok((found, _end)) => {
            *rest = MsqRest::written(found, values);
            0
        }
        Err(refusal) => refusal.code(),
    }
}

/// Drops a seat; its handle is empty afterwards. With the last seat of a queue its memory is freed, which no clause says.
#[unsafe(no_mangle)]
pub extern "C" fn msq_drop(alloc: Global, slot: &mut MsqSeat)
    //= library/drop: A handle that is dropped is empty.
    ensures { is_full slot.new ≡ false }
{
    if slot.is_full() {
        drop(lift(alloc, slot));
    }
}
