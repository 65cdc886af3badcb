//! Operations applied to a queue, one by one.
ghost use Rattle.std.specs.Prelude.{◌≡◌, ℕ, OnOk, IfOk, IfErr};
ghost use Rattle.history.specs.History as rule;
ghost use Rattle.history.specs.Queue as object;
ghost use Rattle.history.specs.declared.operations.Op.TheVariants.{Enq};
ghost use Rattle.history.specs.Tables.{queue_of};

use crate::operations::{Op, Reply, Stamped, Taken};
use crate::refusals::Refusal;
use std::collections::VecDeque;

/// A queue that operations are applied to.
#[derive(Drop)]
pub(crate) struct Replayed {
    pub(crate) values: VecDeque<Taken>,
    pub(crate) shut: bool,
}

// Applies an operation to the queue. The result is whether the queue gives the reply that the
// operation was told.
pub(crate) fn agrees_with_queue(queue: &mut Replayed, operation: &Stamped) -> Result<bool, Refusal>
    ensures told { IfOk result (λ told.
        told ≡ rule.agrees_with_queue (queue_of queue.old) operation.now operation.now.reply) }
    ensures after { OnOk result (queue_of queue.new
        ≡ (rule.answer (queue_of queue.old) operation.now operation.now.reply).after) }
    ensures only_memory { IfErr result (λ refusal. refusal ≡ Refusal.Memory) }
{
    if let Some(Reply::Refused(refusal)) = operation.reply {
        return Ok(leaves(refusal) || is_closed(refusal) && refuses(queue, operation.op));
    }
    let given = given(queue, operation.actor, operation.op)?;
    match operation.reply {
        None => Ok(true),
        Some(told) => Ok(same_reply(told, given)),
    }
}

// Whether the queue refuses a call since it is shut.
fn refuses(queue: &Replayed, op: Op) -> bool
    ensures { (actor : ℕ) → result ≡ rule.refuses
        (object.response actor op (queue_of queue.now)).reply }
{
    match op {
        Op::Deq => queue.shut && queue.values.is_empty(),
        _ => queue.shut,
    }
}

// What the queue gives an actor's call.
fn given(queue: &mut Replayed, actor: u16, op: Op) -> Result<Reply, Refusal>
    ensures reply { IfOk result (λ reply.
        reply ≡ (object.response actor op (queue_of queue.old)).reply) }
    ensures after { OnOk result (queue_of queue.new
        ≡ (object.response actor op (queue_of queue.old)).after) }
    ensures only_memory { IfErr result (λ refusal. refusal ≡ Refusal.Memory) }
{
    match op {
        Op::Enq(body) => push(queue, Taken { from: actor, body }),
        Op::Deq => match queue.values.pop_front() {
            Some(front) => Ok(Reply::Value(front)),
            None if queue.shut => Ok(Reply::Refused(Refusal::Closed)),
            None => Ok(Reply::Empty),
        },
        Op::Shut => {
            if queue.shut {
                return Ok(Reply::Refused(Refusal::Closed));
            }
            queue.shut = true;
            Ok(Reply::Done)
        }
    }
}

// What the queue gives a push of this value.
fn push(queue: &mut Replayed, value: Taken) -> Result<Reply, Refusal>
    ensures reply { IfOk result (λ reply.
        reply ≡ (object.response value.from (Enq value.body) (queue_of queue.old)).reply) }
    ensures after { OnOk result (queue_of queue.new
        ≡ (object.response value.from (Enq value.body) (queue_of queue.old)).after) }
    ensures only_memory { IfErr result (λ refusal. refusal ≡ Refusal.Memory) }
{
    if queue.shut {
        return Ok(Reply::Refused(Refusal::Closed));
    }
    match queue.values.push_back(value) {
        Ok(()) => Ok(Reply::Done),
        Err(_) => Err(Refusal::Memory),
    }
}

// Whether this refusal is that the queue is shut.
fn is_closed(refusal: Refusal) -> bool
    ensures { result ≡ rule.is_closed refusal }
{
    match refusal {
        Refusal::Closed => true,
        _ => false,
    }
}

// Whether a queue may answer this refusal, and stays as it is.
fn leaves(refusal: Refusal) -> bool
    ensures { result ≡ rule.leaves refusal }
{
    match refusal {
        Refusal::NoNode | Refusal::WornOut(_) | Refusal::Busy => true,
        _ => false,
    }
}

fn same_reply(told: Reply, given: Reply) -> bool
    ensures { result ≡ rule.same_reply told given }
{
    match (told, given) {
        (Reply::Done, Reply::Done) | (Reply::Empty, Reply::Empty) => true,
        (Reply::Value(told), Reply::Value(given)) => {
            told.from == given.from && told.body.number() == given.body.number()
        }
        _ => false,
    }
}
