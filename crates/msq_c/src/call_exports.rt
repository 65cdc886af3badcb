//! The exports of queues whose calls may wait: a call is stepped, and between two steps its caller does what it is told.
ghost use Rattle.std.specs.Prelude.{◌≡◌, false};
ghost use Rattle.msq_c.specs.Codes.{Tells, done_code};
ghost use Rattle.msq_c.specs.Calls.{AnswersBegin, AnswersStep};
ghost use Rattle.msq_c.specs.Calls.{AnswersGiveUp, AnswersLength, AnswersListen};
ghost use Rattle.msq_c.specs.NewShares.{AnswersShares};
ghost use Rattle.msq_c.specs.Passed.{of_numbers};
ghost use Rattle.msq_c.specs.ShareEnds.{AreOfOne, AnswersClose};
ghost use Rattle.msq_c.specs.Shares.{is_full, block_at};

use crate::call_words::{MsqAct, MsqCall};
use crate::looks::ForLength;
use crate::rests::MsqRest;
use crate::seat_blocks::Queue;
use crate::share_handles::MsqShare;
use crate::slots::{Slot, lift};
use crate::troubles::{Trouble, code};
use crate::values::MsqValue;
use crate::{new_shares, share_blocks, share_ends};
use calls::{Bell, give_up};
use carriers::Numbers;
use history::Body;
use std::alloc::Global;

/// Makes a queue of a kind, 0 the non-blocking one, 1 the two-lock one and 2 the ring, with room for exactly so many values, and fills
/// these handles, by each of which one call at a time may be stepped. Each side has one end.
#[unsafe(no_mangle)]
pub extern "C" fn msq_shares_create(
    alloc: Global,
    kind: u32,
    capacity: u32,
    limit: u64,
    slots: &mut [MsqShare],
) -> u32
    //= library/shares_create: A queue whose calls are stepped, made from C, tells 0 only where all handles were empty, there
    //=   is to be room for a value, and all numbers are in their ranges; the handles then have all the seats of one new
    //=   queue of the kind, with just that room. Refused, no handle changed, and the code is `MSQ_IN_USE` exactly where a
    //=   handle was full, else `MSQ_BAD_SIZE` exactly where no such queue is, or `MSQ_MEMORY`.
    ensures { Tells done_code result
        (AnswersShares kind capacity limit slots.old slots.new) }
{
    code(new_shares::create::<Numbers<Queue>, MsqShare>(alloc, kind, capacity, limit, slots))
}

/// Begins a call: task 0 pushes the word, below 2^48, 1 pops, 2 shuts, and 3 and 4 end a sender and a receiver. One that tries never
/// waits, and is made in one piece. Makes its first steps: where it tells by then, nothing is written to `call`. `word` is then what the
/// call has: what a pop popped, what a push didn't push, or 0.
#[unsafe(no_mangle)]
pub extern "C" fn msq_share_begin(
    alloc: Global,
    slot: &mut MsqShare,
    task: u8,
    tries: bool,
    word: &mut u64,
    call: &mut MsqCall,
    act: &mut MsqAct,
) -> u32
    //= library/share_begin: A call begun from C by a handle tells 0 where it is a new one of the task asked for, a push with
    //=   this word, and was stepped as `msq_call_step` does, late from the first if it never waits. The word is then the
    //=   call's, and the call is laid down unless it is told. Refused exactly where the handle is empty, with
    //=   `MSQ_NO_SEAT`, or there is no such task or the word is from 2^48 on, with `MSQ_BAD_SIZE`, and nothing changed.
    ensures { Tells done_code result (AnswersBegin of_numbers is_full block_at
        slot.old slot.new task tries word.old word.new call.old call.new act.old act.new) }
{
    code(share_blocks::begin::<Body, Numbers<Queue>, u64, MsqShare>(
        alloc, slot, task, tries, word, call, act,
    ))
}

/// Makes the next steps of a call, and tells what is to be done before the one after them. `past` is whether its time is.
#[unsafe(no_mangle)]
pub extern "C" fn msq_call_step(
    alloc: Global,
    slot: &mut MsqShare,
    call: &mut MsqCall,
    past: bool,
    act: &mut MsqAct,
) -> u32
    //= library/call_step: A step from C tells 0 where the call that the numbers are was stepped: each of its accesses did
    //=   to the seat and to the call's value what the queue's own calls say, the call then stands where the machine of
    //=   calls that wait says, and what is told is what that machine says is to be done. The word that is slept on, or
    //=   woken, no clause names. Refused exactly where the handle is empty, with `MSQ_NO_SEAT`, or the numbers are no
    //=   call, with `MSQ_BAD_SIZE`, and nothing changed.
    ensures { Tells done_code result (AnswersStep of_numbers is_full block_at
        slot.old slot.new call.old.word call.new.word call.old call.new past act.old act.new) }
{
    let mut word = call.word;
    code(share_blocks::step::<Body, Numbers<Queue>, u64, MsqShare>(
        alloc, slot, &mut word, call, past, act,
    ))
}

/// Gives up a call that nobody is to be woken for: it is then stepped until it tells, which it does without sleeping.
#[unsafe(no_mangle)]
pub extern "C" fn msq_call_give_up(call: &mut MsqCall) -> u32
    //= library/call_give_up: A call given up from C is the one that the machine says, and tells 0; refused `MSQ_BAD_SIZE`
    //=   exactly where the numbers are no call, with no change.
    ensures { Tells done_code result (AnswersGiveUp call.old call.new) }
{
    let Some(mut asked) = call.lift::<Body, u64>(&call.word) else {
        return Trouble::BadSize.code();
    };
    give_up(&mut asked.call);
    *call = MsqCall::of::<Body, u64>(&asked);
    0
}

/// How many values the queue holds, never more than it has room for.
#[unsafe(no_mangle)]
pub extern "C" fn msq_share_len(alloc: Global, slot: &mut MsqShare, len: &mut u64) -> u32
    //= library/share_len: A length told to C is no more than the room of its queue; refused `MSQ_NO_SEAT` exactly where the
    //=   handle is empty, with no change.
    ensures { Tells done_code result
        (AnswersLength is_full block_at slot.old slot.new len.old len.new) }
{
    match share_blocks::len::<Numbers<Queue>, ForLength, MsqShare>(alloc, slot) {
        Ok(found) => {
            *len = found;
            0
        }
        Err(refusal) => refusal.code(),
    }
}

/// One more listens, for good, for values, by the task 1, or for room, by the task 0: `act` has the word of its bell. It doesn't sleep,
/// and who makes a call is told to wake it.
#[unsafe(no_mangle)]
pub extern "C" fn msq_share_listen(
    alloc: Global,
    slot: &mut MsqShare,
    task: u8,
    act: &mut MsqAct,
) -> u32
    //= library/share_listen: A handle that listens from C tells 0, keeps its seat, and is told to let others run, with a
    //=   word; refused `MSQ_BAD_SIZE` exactly at a task that waits for nothing, or `MSQ_NO_SEAT` exactly where the handle
    //=   is empty, with no change. That a listener is counted, and which word that is, no clause says.
    ensures { Tells done_code result
        (AnswersListen is_full block_at slot.old slot.new task act.old act.new) }
{
    match task {
        0 => code(share_blocks::listen::<Numbers<Queue>, MsqShare>(alloc, slot, Bell::Room, act)),
        1 => code(share_blocks::listen::<Numbers<Queue>, MsqShare>(alloc, slot, Bell::Values, act)),
        _ => Trouble::BadSize.code(),
    }
}

/// Ends the queue of these handles, which are all that have a share of it, and empties them. The values left are written
/// from the front, as many as there is room for.
#[unsafe(no_mangle)]
pub extern "C" fn msq_shares_close(
    alloc: Global,
    slots: &mut [MsqShare],
    values: &mut [MsqValue],
    rest: &mut MsqRest,
) -> u32
    requires { AreOfOne is_full block_at slots.old }
    //= library/shares_close: A queue whose calls are stepped, ended from C, tells 0 where all these handles, now empty,
    //=   closed it: what is left is what its own `close` says of their seats, the values written from the front, as many as
    //=   have room. Refused, nothing is written: at `MSQ_NO_SEAT` a handle is empty, and none changed; at `MSQ_BAD_SIZE`
    //=   there is none; at `MSQ_IN_USE`, of a ring with further handles, and `MSQ_MEMORY` all keep their seats; at
    //=   `MSQ_RACED`, where another handle has a share, all are empty. When which of these three is told, no clause says.
    ensures { Tells done_code result
        (AnswersClose slots.old slots.new values.old values.new rest.old rest.new) }
{
    match share_ends::close::<Numbers<Queue>, MsqShare>(alloc, slots) {
        Ok((found, _end)) => {
            *rest = MsqRest::written(found, values);
            0
        }
        Err(refusal) => refusal.code(),
    }
}

/// Drops a share; its handle is empty afterwards. With the last share of a queue its memory is freed.
#[unsafe(no_mangle)]
pub extern "C" fn msq_share_drop(alloc: Global, slot: &mut MsqShare)
    //= library/share_drop: A handle of a queue whose calls are stepped is empty once it is dropped.
    ensures { is_full slot.new ≡ false }
{
    if slot.is_full() {
        drop(lift(alloc, slot));
    }
}
