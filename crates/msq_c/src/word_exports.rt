//! The exports of queues of words: a value is three words, which come out just as they went in.
ghost use Rattle.std.specs.Prelude.{◌≡◌, false};
ghost use Rattle.msq_c.specs.Codes.{Tells, done_code, pop_code};
ghost use Rattle.msq_c.specs.Looks.{emptiness_code, len_code, IsLenWritten};
ghost use Rattle.msq_c.specs.Three.{is_full, block_at};
ghost use Rattle.msq_c.specs.Words.{item_of, IsItemWritten};
ghost use Rattle.msq_c.specs.WordSeats.{AnswersPush, AnswersPop, AnswersShut, AnswersMeet, MayMeet};
ghost use Rattle.msq_c.specs.WordLooks.{TellsEmptiness, TellsLen, AnswersLook};
ghost use Rattle.msq_c.specs.WordMade.{AnswersCreate};
ghost use Rattle.msq_c.specs.WordEnds.{AreOfOne};
ghost use Rattle.msq_c.specs.WordRests.{AnswersClose};

use crate::bounds::MsqLen;
use crate::looks::code_of_emptiness;
use crate::rests::MsqRest;
use crate::troubles::code;
use crate::word_handles::MsqWordsSeat;
use crate::words::{MsqItem, MsqWords};
use crate::{word_calls, word_codes, word_looks, word_queues};
use std::alloc::Global;

/// Makes a queue of words of a kind, 0 the non-blocking one and 1 the two-lock one, and fills as many handles as there are
/// roles: 1 pushes, 2 pops, 3 does both.
#[unsafe(no_mangle)]
pub extern "C" fn msq_words_create(
    alloc: Global,
    kind: u32,
    nodes: u32,
    limit: u64,
    roles: &[u8],
    slots: &mut [MsqWordsSeat],
) -> u32
    //= library/words_create: A queue of words made from C tells as `msq_create` does of the non-blocking and the two-lock
    //=   kind, and of no other; its handles are then all the seats, unused and in order, of one queue of values of three words,
    //=   of that kind. Refused, no handle changed.
    ensures { Tells done_code result
        (AnswersCreate is_full block_at kind nodes limit roles.now slots.old slots.new) }
{
    code(word_queues::create(alloc, kind, nodes, limit, roles, slots))
}

/// Pushes three words at the back, in so many turns at most, 1 or more.
#[unsafe(no_mangle)]
pub extern "C" fn msq_words_push(
    alloc: Global,
    slot: &mut MsqWordsSeat,
    words: &MsqWords,
    turns: u32,
) -> u32
    //= library/words_push: A push of words from C tells 0 where these very words were pushed, whatever they are, exactly
    //=   `MSQ_NO_SEAT` where the handle is empty, and else its cause: the queue's, with its clauses, or no turns, or a seat
    //=   that may not push, with no change. The handle stays full or empty, of the same queue.
    ensures { Tells done_code result
        (AnswersPush is_full block_at slot.old slot.new words.now turns) }
{
    code(word_calls::push(alloc, slot, *words, turns))
}

/// Takes the words at the front, in so many turns at most, 1 or more. They are written where there are some, and else `item`
/// stays as it is.
#[unsafe(no_mangle)]
pub extern "C" fn msq_words_pop(
    alloc: Global,
    slot: &mut MsqWordsSeat,
    turns: u32,
    item: &mut MsqItem,
) -> u32
    //= library/words_pop: A pop of words from C tells as `msq_words_push` does. The words written are the very words of the
    //=   push that stood at the front, with the number of its seat; at `MSQ_EMPTY`, or refused, nothing is written.
    ensures { Tells pop_code result
        (λ out. AnswersPop is_full block_at slot.old slot.new turns out
        × IsItemWritten item_of out item.old item.new) }
{
    word_codes::pop(alloc, slot, turns, item)
}

/// Shuts the queue, in so many turns at most, 1 or more.
#[unsafe(no_mangle)]
pub extern "C" fn msq_words_shut(alloc: Global, slot: &mut MsqWordsSeat, turns: u32) -> u32
    //= library/words_shut: A shut, and a meeting, of seats of a queue of words tell as those of a queue of numbers.
    ensures { Tells done_code result (AnswersShut is_full block_at slot.old slot.new turns) }
{
    code(word_calls::shut(alloc, slot, turns))
}

/// Both seats, of one queue, have seen one history afterwards.
#[unsafe(no_mangle)]
pub extern "C" fn msq_words_meet(
    alloc: Global,
    one: &mut MsqWordsSeat,
    other: &mut MsqWordsSeat,
) -> u32
    requires { MayMeet is_full block_at one.old other.old }
    //= library/words_shut
    ensures { Tells done_code result
        (AnswersMeet is_full block_at one.old other.old one.new other.new) }
{
    code(word_calls::meet(alloc, one, other))
}

/// Whether the queue is empty, and shut too, by a code.
#[unsafe(no_mangle)]
pub extern "C" fn msq_words_emptiness(alloc: Global, slot: &mut MsqWordsSeat) -> u32
    //= library/words_looks: A look from C at whether a queue of words is empty, and one at its length, tell what those of its
    //=   queue do, as the looks at a queue of numbers; `MSQ_UNCOUNTED` exactly of a two-lock queue. Each is refused exactly
    //=   where the handle is empty, with no change, and else keeps it full, of the same queue.
    ensures { Tells emptiness_code result
        (AnswersLook is_full block_at TellsEmptiness slot.old slot.new) }
{
    code_of_emptiness(word_looks::emptiness(alloc, slot))
}

/// Bounds of how many values the queue holds, which are written where they can be told: not of the two-lock queue.
#[unsafe(no_mangle)]
pub extern "C" fn msq_words_len(alloc: Global, slot: &mut MsqWordsSeat, len: &mut MsqLen) -> u32
    //= library/words_looks
    ensures { Tells len_code result
        (λ out. AnswersLook is_full block_at TellsLen slot.old slot.new out
        × IsLenWritten out len.old len.new) }
{
    word_codes::len(alloc, slot, len)
}

/// Ends the queue of these handles, which are all that have a share of it, and empties them. The words left are written from
/// the front, as many as there is room for.
#[unsafe(no_mangle)]
pub extern "C" fn msq_words_close(
    alloc: Global,
    slots: &mut [MsqWordsSeat],
    items: &mut [MsqItem],
    rest: &mut MsqRest,
) -> u32
    requires { AreOfOne is_full block_at slots.old }
    //= library/words_end: A queue of words ended from C tells as `msq_close` does, and writes the words left, from the
    //=   front, just as they were pushed, as many as have room.
    ensures { Tells done_code result
        (AnswersClose is_full block_at item_of
        slots.old slots.new items.old items.new rest.old rest.new) }
{
    word_codes::close(alloc, slots, items, rest)
}

/// Drops a seat; its handle is empty afterwards. With the last seat of a queue its memory is freed, which no clause says;
/// what words were left mean is the caller's, who pops them first.
#[unsafe(no_mangle)]
pub extern "C" fn msq_words_drop(alloc: Global, slot: &mut MsqWordsSeat)
    //= library/words_drop: A handle of a queue of words that is dropped is empty.
    ensures { is_full slot.new ≡ false }
{
    word_codes::empty(alloc, slot)
}
