//! The exports of calls of many values, and of whether a seat keeps its nodes.
ghost use Rattle.msq_c.specs.Codes.{Tells, done_code, pop_code};
ghost use Rattle.msq_c.specs.Keeps.{AnswersKeep};
ghost use Rattle.msq_c.specs.Many.{AnswersPushAll, AnswersPopUpTo};

use crate::handles::MsqSeat;
use crate::kept_nodes::keep_nodes;
use crate::many_calls::{pop_up_to, push_all};
use crate::troubles::{EMPTY, code};
use crate::values::MsqValue;
use std::alloc::Global;

/// Pushes these bodies, each below 2^48, in their order, until one is refused, each in so many turns at most, 1 or more: how many
/// were pushed is written.
#[unsafe(no_mangle)]
pub extern "C" fn msq_push_all(
    alloc: Global,
    slot: &mut MsqSeat,
    bodies: &[u64],
    turns: u32,
    pushed: &mut usize,
) -> u32
    //= library/many: A push of many from C pushes the first of its bodies, in their order, as many as it writes: all of them at 0,
    //=   and else the next one is refused, by the code, with the cause and the change of `msq_try_push`. A pop of many writes
    //=   the values that it popped, in their order, and how many: as many as there is room for at 0, and else the next pop
    //=   finds the queue empty or is refused, as `msq_try_pop` is. At `MSQ_NO_SEAT` both write 0, and nothing changes.
    ensures { Tells done_code result
        (AnswersPushAll slot.old slot.new bodies.now turns pushed.new) }
{
    let (count, answer) = push_all(alloc, slot, bodies, turns);
    *pushed = count;
    code(answer)
}

/// Pops values, as many as there is room for, until the queue is found empty or a pop is refused, each in so many turns at most, 1
/// or more. They are written from the front, and so is how many there are.
#[unsafe(no_mangle)]
pub extern "C" fn msq_pop_up_to(
    alloc: Global,
    slot: &mut MsqSeat,
    turns: u32,
    values: &mut [MsqValue],
    popped: &mut usize,
) -> u32
    //= library/many
    ensures { Tells pop_code result
        (AnswersPopUpTo slot.old slot.new values.old values.new turns popped.new) }
{
    let (count, answer) = pop_up_to(alloc, slot, values, turns);
    *popped = count;
    match answer {
        Ok(Some(())) => 0,
        Ok(None) => EMPTY,
        Err(refusal) => refusal.code(),
    }
}

/// Tells a seat whether to keep the nodes that its pops free, for its pushes.
#[unsafe(no_mangle)]
pub extern "C" fn msq_keep_nodes(alloc: Global, slot: &mut MsqSeat, keeps: bool) -> u32
    //= library/keep_nodes: A seat told from C to keep its nodes does exactly where it may push and pop, one told not to
    //=   doesn't, and nothing else of it changes, nor anything of a ring's. It is refused exactly where the handle is empty,
    //=   with `MSQ_NO_SEAT` and no change.
    ensures { Tells done_code result (AnswersKeep slot.old slot.new keeps) }
{
    code(keep_nodes(alloc, slot, keeps))
}
