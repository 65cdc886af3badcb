//! A worker's turns: it takes tasks from a queue of values, and runs them.
ghost use Rattle.std.specs.Prelude.{◌≡◌, IfOk, IfErr, OnOk, OnErr};
ghost use Rattle.history.specs.Seats.{MayPop};
ghost use Rattle.shared_queue.specs.Queues.{queue_of};
ghost use Rattle.shared_queue.specs.Answers.{ReceivedOf};
ghost use Rattle.tasks.specs.Turns.{RunsOne, EndsTurn, IsBack};

use crate::answers::Done;
use crate::rooms::{NoRoom, make_room};
use crate::runs::{Numbered, Task};
use crate::stops::Stop;
use carriers::{Carrier, ItemOf};
use history::Refusal;
use shared_queue::{InTime, SharedQueue};
use std::alloc::Global;
use std::sync::Wait;

/// How a worker ended.
#[derive(Debug, PartialEq, Eq, Drop)]
pub enum End {
    /// It found the queue shut and empty.
    Finished,
    /// It found the queue empty, after it was told that no task comes any more.
    Stopped,
    /// A call of a queue was refused.
    Refused(Refusal),
    /// Memory was refused for one more answer.
    Short(NoRoom),
}

/// What a worker brings back: its seat, or seats, what it did, and how it ended.
#[derive(Drop)]
pub struct Worked<S, D> {
    pub seat: S,
    pub done: D,
    pub end: End,
}

/// Takes the next value, and sleeps while there is none; how the worker ends where none comes.
pub(crate) fn take<R: Wait, C: Carrier, W>(
    rt: &R,
    queue: &SharedQueue<C>,
    seat: &mut C::Seat,
    stop: &Stop<W>,
) -> Result<ItemOf<C::Item>, End>
    requires seat { C.is_seat (queue_of queue.now) seat.old }
    requires role { MayPop (C.permits (queue_of queue.now)) (C.known seat.old).number }
    ensures seat { C.is_seat (queue_of queue.now) seat.new }
    ensures number { (C.known seat.new).number ≡ (C.known seat.old).number }
    ensures taken { IfOk result (λ front. ReceivedOf (C.known seat.old) front (C.known seat.new)) }
    ensures none { IfErr result (λ end. (C.known seat.new).mine ≡ (C.known seat.old).mine) }
    ensures ends { IfErr result
        (EndsTurn C.is_seat C.known C.pop_cause (queue_of queue.now) seat.old seat.new) }
{
    match queue.recv_until(rt, seat, stop) {
        Ok(InTime::Done(front)) => Ok(front),
        Ok(InTime::Late(_)) => Err(End::Stopped),
        Err(Refusal::Closed) => Err(End::Finished),
        Err(refusal) => Err(End::Refused(refusal)),
    }
}

/// Takes the task at the front and runs it: its answer is put at the end of `done`. It sleeps while there is none. The seat
/// may pop.
///
/// Else it tells how the worker ends, and `done` is as before: `Short` where it can't grow, before anything is taken;
/// `Finished` where the queue is shut and empty; `Stopped` where it was empty once more, after the worker was told to stop;
/// `Refused` where a word is worn out. Takes memory for an answer and what the task takes, and waits.
pub fn run_next<R: Wait, T: Task, C: Carrier<Item = Numbered<T>>, W>(
    rt: &R,
    queue: &SharedQueue<C>,
    seat: &mut C::Seat,
    stop: &Stop<W>,
    done: &mut Vec<Done<Result<T::Output, T::Error>>>,
) -> Result<(), End>
    requires seat { C.is_seat (queue_of queue.now) seat.old }
    requires role { MayPop (C.permits (queue_of queue.now)) (C.known seat.old).number }
    ensures seat { C.is_seat (queue_of queue.now) seat.new }
    ensures number { (C.known seat.new).number ≡ (C.known seat.old).number }
    //= tasks/turn: A worker's turn popped one task, and put exactly its result at the end. Before that its seat did nothing
    //=   to the queue.
    ensures ran { OnOk result
        (RunsOne T.answers (C.known seat.old) (C.known seat.new) done.old.items done.new.items) }
    //= tasks/refused_turn (none, same, ends): A turn that ends its worker popped nothing, and leaves the results. It found
    //=   the queue shut and empty, or empty, since its worker was told to stop; or its pop was refused, by a word that is
    //=   worn out; each with the cause of a try of 8 turns. Or memory was refused for the result, and its seat is as before.
    ensures none { IfErr result (λ end. (C.known seat.new).mine ≡ (C.known seat.old).mine) }
    ensures same { OnErr result (done.new.items ≡ done.old.items) }
    ensures ends { IfErr result
        (EndsTurn C.is_seat C.known C.pop_cause (queue_of queue.now) seat.old seat.new) }
{
    if let Err(short) = make_room(done) {
        return Err(End::Short(short));
    }
    match take(rt, queue, seat, stop) {
        Ok(front) => {
            done.push_reserved(front.value.run());
            Ok(())
        }
        Err(end) => Err(end),
    }
}

/// Runs tasks until the queue is found shut and empty, a turn is refused, or no task comes any more: what was done. It sleeps
/// while there is no task. The seat may pop.
///
/// Takes memory for each answer, and waits.
pub fn work<R: Wait, T: Task, C: Carrier<Item = Numbered<T>>, W>(
    rt: &R,
    alloc: Global,
    queue: &SharedQueue<C>,
    mut seat: C::Seat,
    stop: &Stop<W>,
) -> Worked<C::Seat, Vec<Done<Result<T::Output, T::Error>>>>
    requires seat { C.is_seat (queue_of queue.now) seat }
    requires role { MayPop (C.permits (queue_of queue.now)) (C.known seat).number }
    //= tasks/worked: A worker brings its seat back, and the result of each task that it popped, in this order and under its
    //=   own number. It ends as its last turn did, with that one's cause: `Finished` where it found the queue shut and empty,
    //=   `Stopped` where it found it empty, `Refused` by a word that is worn out, `Short` of memory alone.
    ensures { IsBack C.is_seat C.known C.pop_cause T.answers (queue_of queue.now) seat result }
{
    let mut done = Vec::new(alloc);
    for _ in rt.forever() {
        match run_next(rt, queue, &mut seat, stop, &mut done) {
            Ok(()) => {}
            Err(end) => return Worked { seat, done, end },
        }
    }
    unreachable!()
}
