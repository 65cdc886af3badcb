//! What a worker does: it takes tasks from one queue, and sends their results through another one.
ghost use Rattle.std.specs.Prelude.{◌≡◌, IfErr};
ghost use Rattle.history.specs.Seats.{MayPush};
ghost use Rattle.shared_queue.specs.Queues.{queue_of};
ghost use Rattle.tasks.specs.Tasks.{IsDoneOf};
ghost use Rattle.tasks.specs.Workers.{Sends, EndsSending, ServesOne, EndsServing, IsPost, IsServed, EndsByLast};

use crate::answers::Done;
use crate::posts::Post;
use crate::runs::{Numbered, Task};
use crate::stops::{AnyReason, Stop};
use crate::turns::{End, Worked, take};
use carriers::{Carrier, Unpushed};
use history::Refusal;
use shared_queue::{InTime, SharedQueue};
use std::sync::Wait;

/// What a worker brings back: its seats, and a result that it couldn't send.
pub(crate) type Served<S, U, A> = Worked<Post<S, U>, Option<Done<A>>>;

/// A result that couldn't be sent, and how its worker ends for that.
#[derive(Drop)]
pub(crate) struct Unsendable<A> {
    pub(crate) done: Done<A>,
    pub(crate) end: End,
}

// Sends a result, and sleeps while there is no room for it. Where it can't be sent it comes back, and all are told to stop: who
// hands out the tasks waits for no result then.
fn send<R: Wait, A, D: Carrier<Item = Done<A>>>(
    rt: &R,
    queue: &SharedQueue<D>,
    seat: &mut D::Seat,
    done: Done<A>,
    stop: &Stop<AnyReason>,
) -> Result<(), Unsendable<A>>
    requires seat { D.is_seat (queue_of queue.now) seat.old }
    requires role { MayPush (D.permits (queue_of queue.now)) (D.known seat.old).number }
    ensures seat { D.is_seat (queue_of queue.now) seat.new }
    ensures number { (D.known seat.new).number ≡ (D.known seat.old).number }
    ensures sent { Sends (D.known seat.old) (D.known seat.new) done result }
    ensures ends { IfErr result (λ u. EndsSending D.is_seat D.known D.push_cause
        (queue_of queue.now) seat.old seat.new u.end) }
{
    match queue.send_until(rt, seat, done, stop) {
        Ok(InTime::Done(())) => Ok(()),
        Ok(InTime::Late(unsent)) => Err(Unsendable {
            done: unsent.value,
            end: End::Stopped,
        }),
        Err(Unpushed { refusal, value }) => {
            stop.tell();
            queue.wake_all();
            Err(Unsendable {
                done: value,
                end: End::Refused(refusal),
            })
        }
    }
}

// Takes a task, runs it and sends its result; what couldn't be sent, and how the worker ends, where it is to end.
fn serve_one<
    R: Wait,
    T: Task,
    C: Carrier<Item = Numbered<T>>,
    D: Carrier<Item = Done<Result<T::Output, T::Error>>>,
>(
    rt: &R,
    tasks: &SharedQueue<C>,
    results: &SharedQueue<D>,
    post: &mut Post<C::Seat, D::Seat>,
    stop: &Stop<AnyReason>,
) -> Result<(), (Option<Done<Result<T::Output, T::Error>>>, End)>
    requires { IsPost C.is_seat C.permits C.known D.is_seat D.permits D.known
        (queue_of tasks.now) (queue_of results.now) post.old }
    ensures post { IsPost C.is_seat C.permits C.known D.is_seat D.permits D.known
        (queue_of tasks.now) (queue_of results.now) post.new }
    ensures taker { (C.known post.new.taker).number ≡ (C.known post.old.taker).number }
    ensures giver { (D.known post.new.giver).number ≡ (D.known post.old.giver).number }
    ensures served { ServesOne C.known D.known T.answers post.old post.new result }
    ensures ended { IfErr result (λ e. EndsServing C.is_seat C.known C.pop_cause D.is_seat D.known
        D.push_cause (queue_of tasks.now) (queue_of results.now) post.old post.new e.0 e.1) }
{
    let front = match take(rt, tasks, &mut post.taker, stop) {
        Ok(front) => front,
        Err(end) => return Err((None, end)),
    };
    match send(rt, results, &mut post.giver, front.value.run(), stop) {
        Ok(()) => Ok(()),
        Err(unsendable) => Err((Some(unsendable.done), unsendable.end)),
    }
}

/// Runs tasks and sends the result of each, until no task comes any more, or a call is refused. It sleeps while there is no task,
/// and while there is no room for a result.
pub(crate) fn serve<
    R: Wait,
    T: Task,
    C: Carrier<Item = Numbered<T>>,
    D: Carrier<Item = Done<Result<T::Output, T::Error>>>,
>(
    rt: &R,
    tasks: &SharedQueue<C>,
    results: &SharedQueue<D>,
    mut post: Post<C::Seat, D::Seat>,
    stop: &Stop<AnyReason>,
) -> Served<C::Seat, D::Seat, Result<T::Output, T::Error>>
    requires { IsPost C.is_seat C.permits C.known D.is_seat D.permits D.known
        (queue_of tasks.now) (queue_of results.now) post }
    //= tasks/served (served, ended): A worker of a fed pool popped tasks, and pushed the result of each, in this order and
    //=   under its own number; but the last one, where that was refused, it brings back. It ends by that, with its cause, or
    //=   as its last pop did, with that one's cause.
    ensures served { IsServed C.is_seat C.permits C.known D.is_seat D.permits D.known T.answers
        (queue_of tasks.now) (queue_of results.now) post result }
    ensures ended { EndsByLast C.is_seat C.permits C.known D.is_seat D.permits D.known
        C.pop_cause D.push_cause (queue_of tasks.now) (queue_of results.now) result }
{
    for _ in rt.forever() {
        match serve_one(rt, tasks, results, &mut post, stop) {
            Ok(()) => {}
            Err((unsent, end)) => {
                return Worked {
                    seat: post,
                    done: unsent,
                    end,
                };
            }
        }
    }
    unreachable!()
}
