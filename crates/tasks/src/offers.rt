//! The submitter's part: it pushes tasks into a queue of values, runs those that it can't push, and shuts the queue.
ghost use Rattle.std.specs.Prelude.{◌≡◌, ◌<◌, length, IfOk, IfErr, OnOk, OnErr};
ghost use Rattle.history.specs.Seats.{MayPush};
ghost use Rattle.history.specs.Answers.{EndsPush};
ghost use Rattle.carriers.specs.Answers.{PushedOf, EndsByTryOf};
ghost use Rattle.shared_queue.specs.Queues.{queue_of};
ghost use Rattle.tasks.specs.Gathers.{slots_in};
ghost use Rattle.tasks.specs.Offers.{RanHere, OffersNext, HasOffered, HasLed};

use crate::answers::Outcome;
use crate::gathers::Gather;
use crate::runs::{Numbered, Task};
use crate::stops::{Stop, Unshut, shut_or_stop};
use carriers::{Carrier, Unpushed};
use history::Refusal;
use shared_queue::SharedQueue;
use std::sync::Wait;

/// What the submitter brings back: its seat, what became of the tasks that it ran itself, why it last ran one, and why the
/// queue couldn't be shut.
#[derive(Drop)]
pub struct Led<S, T, A> {
    pub seat: S,
    pub gather: Gather<T, A>,
    pub refused: Option<Refusal>,
    pub unshut: Option<Refusal>,
}

/// Pushes a task; where it can't be pushed, runs it here, and tells why. The seat may push.
///
/// Refusals: `NoNode`, `WornOut`, and `Closed` where the queue is shut; the task was run then. Takes what memory the task
/// takes, and waits.
pub fn offer<R: Wait, T: Task, C: Carrier<Item = Numbered<T>>>(
    rt: &R,
    queue: &C,
    seat: &mut C::Seat,
    task: Numbered<T>,
    gather: &mut Gather<T, Result<T::Output, T::Error>>,
) -> Result<(), Refusal>
    requires seat { C.is_seat queue.now seat.old }
    requires role { MayPush (C.permits queue.now) (C.known seat.old).number }
    requires within { task.number < length (slots_in gather.old) }
    ensures seat { C.is_seat queue.now seat.new }
    ensures number { (C.known seat.new).number ≡ (C.known seat.old).number }
    //= tasks/offered (pushed, kept, ran, refusal, caused): A task that is offered is pushed; or it is run where it is
    //=   offered, since its push was refused with cause, and its result stands under its number.
    ensures pushed { OnOk result (PushedOf (C.known seat.old) task (C.known seat.new)) }
    ensures kept { OnOk result (slots_in gather.new ≡ slots_in gather.old) }
    ensures ran { OnErr result (RanHere T.answers task (C.known seat.old) (C.known seat.new)
        (slots_in gather.old) (slots_in gather.new)) }
    ensures refusal { IfErr result EndsPush }
    ensures caused { IfErr result (EndsByTryOf C.is_seat C.known C.push_cause queue.now
        seat.old seat.new 8) }
{
    match queue.push(rt, seat, task) {
        Ok(()) => Ok(()),
        Err(Unpushed { refusal, value }) => {
            let done = value.run();
            gather.put(done.number, Outcome::Answered(done.answer));
            Err(refusal)
        }
    }
}

// Offers a task; where it is run here, `refused` tells why.
fn offer_next<R: Wait, T: Task, C: Carrier<Item = Numbered<T>>>(
    rt: &R,
    queue: &C,
    seat: &mut C::Seat,
    task: Numbered<T>,
    gather: &mut Gather<T, Result<T::Output, T::Error>>,
    refused: &mut Option<Refusal>,
)
    requires seat { C.is_seat queue.now seat.old }
    requires role { MayPush (C.permits queue.now) (C.known seat.old).number }
    requires within { task.number < length (slots_in gather.old) }
    ensures seat { C.is_seat queue.now seat.new }
    ensures number { (C.known seat.new).number ≡ (C.known seat.old).number }
    ensures next { OffersNext T.answers task refused.old refused.new
        (C.known seat.old) (C.known seat.new) (slots_in gather.old) (slots_in gather.new) }
{
    if let Err(refusal) = offer(rt, queue, seat, task, gather) {
        *refused = Some(refusal);
    }
}

/// Offers each of these tasks, in order, under its number from 0 on; why one was last run here, if one was. The seat may
/// push.
///
/// Takes what memory the tasks take that are run here, and waits.
pub fn offer_all<R: Wait, T: Task, C: Carrier<Item = Numbered<T>>>(
    rt: &R,
    queue: &C,
    seat: &mut C::Seat,
    tasks: Vec<T>,
    gather: &mut Gather<T, Result<T::Output, T::Error>>,
) -> Option<Refusal>
    requires seat { C.is_seat queue.now seat.old }
    requires role { MayPush (C.permits queue.now) (C.known seat.old).number }
    requires slots { length (slots_in gather.old) ≡ length tasks.items }
    ensures seat { C.is_seat queue.now seat.new }
    ensures number { (C.known seat.new).number ≡ (C.known seat.old).number }
    //= tasks/offered_all: Of tasks that are offered each is pushed under its own number, or its own result stands there;
    //=   where no push was refused, each is pushed.
    ensures offered { HasOffered T.answers tasks.items (length tasks.items) result
        (C.known seat.old) (C.known seat.new) (slots_in gather.old) (slots_in gather.new) }
{
    let mut refused = None;
    let mut number = 0;
    for task in tasks {
        offer_next(
            rt,
            queue,
            seat,
            Numbered { number, task },
            gather,
            &mut refused,
        );
        number += 1;
    }
    refused
}

/// Offers each of these tasks, and then shuts the queue; where it can't be shut, tells the workers to stop. The seat may
/// push.
///
/// Takes what memory the tasks take that are run here, and waits.
pub fn lead<R: Wait, T: Task, C: Carrier<Item = Numbered<T>>>(
    rt: &R,
    queue: &SharedQueue<C>,
    mut seat: C::Seat,
    tasks: Vec<T>,
    mut gather: Gather<T, Result<T::Output, T::Error>>,
    stop: &Stop<Unshut>,
) -> Led<C::Seat, T, Result<T::Output, T::Error>>
    requires seat { C.is_seat (queue_of queue.now) seat }
    requires role { MayPush (C.permits (queue_of queue.now)) (C.known seat).number }
    requires slots { length (slots_in gather) ≡ length tasks.items }
    //= tasks/led: The submitter offers each task, and then shuts the queue, or finds it shut; or it tells why it couldn't,
    //=   with the cause of a shut of 8 turns.
    ensures { HasLed C.is_seat C.known C.shut_cause T.answers (queue_of queue.now) tasks.items
        seat (slots_in gather) result }
{
    let refused = offer_all(rt, queue, &mut seat, tasks, &mut gather);
    let unshut = shut_or_stop(rt, queue, &mut seat, stop);
    Led {
        seat,
        gather,
        refused,
        unshut,
    }
}
