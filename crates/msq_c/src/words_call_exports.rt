//! The exports of queues of three words whose calls may wait: a call's words lie in its caller's memory from its begin to its end.
ghost use Rattle.std.specs.Prelude.{◌≡◌, false};
ghost use Rattle.msq_c.specs.Codes.{Tells, done_code};
ghost use Rattle.msq_c.specs.NewWordsShares.{AnswersShares};
ghost use Rattle.msq_c.specs.Calls.{AnswersBegin, AnswersStep, AnswersLength, AnswersListen};
ghost use Rattle.msq_c.specs.Passed.{of_words};
ghost use Rattle.msq_c.specs.ShareEnds.{AreOfOne};
ghost use Rattle.msq_c.specs.WordsShareEnds.{AnswersClose};
ghost use Rattle.msq_c.specs.WordsShares.{is_full, block_at};

use crate::call_words::{MsqAct, MsqCall};
use crate::rests::MsqRest;
use crate::slots::{Slot, lift};
use crate::troubles::{Trouble, code};
use crate::word_rests::written;
use crate::words::{MsqItem, MsqWords};
use crate::words_share_handles::MsqWordsShare;
use crate::words_shares::{ForWordCount, WordsQueue};
use crate::{new_shares, share_blocks, share_ends};
use calls::Bell;
use std::alloc::Global;

/// Makes a queue of three words of a kind, 0 the non-blocking one, 1 the two-lock one and 2 the ring, with room for exactly so many
/// values, and fills these handles, by each of which one call at a time may be stepped. Each side has one end.
#[unsafe(no_mangle)]
pub extern "C" fn msq_words_shares_create(
    alloc: Global,
    kind: u32,
    capacity: u32,
    limit: u64,
    slots: &mut [MsqWordsShare],
) -> u32
    //= library/words_shares_create: A queue of three words whose calls are stepped, made from C, tells as
    //=   `msq_shares_create` does; its handles have all the seats of one new queue of values of three words, of the kind, with
    //=   just that room. Refused, no handle changed.
    ensures { Tells done_code result
        (AnswersShares kind capacity limit slots.old slots.new) }
{
    code(new_shares::create::<WordsQueue, MsqWordsShare>(alloc, kind, capacity, limit, slots))
}

/// Begins a call: task 0 pushes the words, 1 pops, 2 shuts, and 3 and 4 end a sender and a receiver. One that tries never waits, and is
/// made in one piece. Makes its first steps: where it tells by then, nothing is written to `call`. What a pop popped by then is written
/// to `words`, and else they stay.
#[unsafe(no_mangle)]
pub extern "C" fn msq_words_share_begin(
    alloc: Global,
    slot: &mut MsqWordsShare,
    task: u8,
    tries: bool,
    words: &mut MsqWords,
    call: &mut MsqCall,
    act: &mut MsqAct,
) -> u32
    //= library/words_share_begin: A call of a queue of three words begun from C tells 0 where it is a new one of the task
    //=   asked for, a push with these words, whatever they are, and was stepped as `msq_words_call_step` does, late from the
    //=   first if it never waits. The words are then the call's if it has any, and else stay; the call is laid down, with 0 as
    //=   its word, unless it is told. Refused exactly where the handle is empty, with `MSQ_NO_SEAT`, or there is no such
    //=   task, with `MSQ_BAD_SIZE`, and nothing changed.
    ensures { Tells done_code result (AnswersBegin of_words is_full block_at
        slot.old slot.new task tries words.old words.new call.old call.new act.old act.new) }
{
    code(share_blocks::begin::<MsqWords, WordsQueue, MsqWords, MsqWordsShare>(
        alloc, slot, task, tries, words, call, act,
    ))
}

/// Makes the next steps of a call with these words, and tells what is to be done before the one after them. `past` is whether its time
/// is. What a pop popped is written to `words`, and else they stay.
#[unsafe(no_mangle)]
pub extern "C" fn msq_words_call_step(
    alloc: Global,
    slot: &mut MsqWordsShare,
    words: &mut MsqWords,
    call: &mut MsqCall,
    past: bool,
    act: &mut MsqAct,
) -> u32
    //= library/words_call_step: A step of a call of a queue of three words from C tells 0 where the call that the numbers are
    //=   was stepped, with these words as its value, as by `msq_call_step`; the words are then the call's if it has any, and
    //=   else stay. Refused exactly where the handle is empty, with `MSQ_NO_SEAT`, or the numbers are no call, with
    //=   `MSQ_BAD_SIZE`, and nothing changed. `msq_call_give_up` gives it up.
    ensures { Tells done_code result (AnswersStep of_words is_full block_at
        slot.old slot.new words.old words.new call.old call.new past act.old act.new) }
{
    code(share_blocks::step::<MsqWords, WordsQueue, MsqWords, MsqWordsShare>(
        alloc, slot, words, call, past, act,
    ))
}

/// How many values the queue holds, never more than it has room for.
#[unsafe(no_mangle)]
pub extern "C" fn msq_words_share_len(alloc: Global, slot: &mut MsqWordsShare, len: &mut u64) -> u32
    //= library/words_share_len: A length of a queue of three words told to C is no more than its room; refused `MSQ_NO_SEAT`
    //=   exactly where the handle is empty, with no change.
    ensures { Tells done_code result
        (AnswersLength is_full block_at slot.old slot.new len.old len.new) }
{
    match share_blocks::len::<WordsQueue, ForWordCount, MsqWordsShare>(alloc, slot) {
        Ok(found) => {
            *len = found;
            0
        }
        Err(refusal) => refusal.code(),
    }
}

/// One more listens, for good, for values, by the task 1, or for room, by the task 0: `act` has the word of its bell. It doesn't sleep,
/// and who makes a call is told to wake it.
#[unsafe(no_mangle)]
pub extern "C" fn msq_words_share_listen(
    alloc: Global,
    slot: &mut MsqWordsShare,
    task: u8,
    act: &mut MsqAct,
) -> u32
    //= library/words_share_listen: A handle of a queue of three words that listens from C tells as `msq_share_listen` does,
    //=   and keeps its seat.
    ensures { Tells done_code result
        (AnswersListen is_full block_at slot.old slot.new task act.old act.new) }
{
    match task {
        0 => code(share_blocks::listen::<WordsQueue, MsqWordsShare>(alloc, slot, Bell::Room, act)),
        1 => code(share_blocks::listen::<WordsQueue, MsqWordsShare>(
            alloc,
            slot,
            Bell::Values,
            act,
        )),
        _ => Trouble::BadSize.code(),
    }
}

/// Ends the queue of these handles, which are all that have a share of it, and empties them. The words left are written from the front,
/// as many as there is room for.
#[unsafe(no_mangle)]
pub extern "C" fn msq_words_shares_close(
    alloc: Global,
    slots: &mut [MsqWordsShare],
    items: &mut [MsqItem],
    rest: &mut MsqRest,
) -> u32
    requires { AreOfOne is_full block_at slots.old }
    //= library/words_shares_close: A queue of three words whose calls are stepped, ended from C, tells as `msq_shares_close`
    //=   does, and writes the words left, from the front, just as they were pushed, as many as have room.
    ensures { Tells done_code result
        (AnswersClose slots.old slots.new items.old items.new rest.old rest.new) }
{
    match share_ends::close::<WordsQueue, MsqWordsShare>(alloc, slots) {
        Ok((found, _end)) => {
            *rest = written(found, items);
            0
        }
        Err(refusal) => refusal.code(),
    }
}

/// Drops a share; its handle is empty afterwards. With the last share of a queue its memory is freed; what words were left mean is the
/// caller's, who pops them first.
#[unsafe(no_mangle)]
pub extern "C" fn msq_words_share_drop(alloc: Global, slot: &mut MsqWordsShare)
    //= library/words_share_drop: A handle of a queue of three words whose calls are stepped is empty once it is dropped.
    ensures { is_full slot.new ≡ false }
{
    if slot.is_full() {
        drop(lift(alloc, slot));
    }
}
