//! What is done in the caller's thread: tasks are handed out, and results told.
ghost use Rattle.std.specs.Prelude.{◌≡◌, ◌⊎◌, ◌<◌, IsTrue, IfOk, None};
ghost use Rattle.shared_queue.specs.Queues.{queue_of};
ghost use Rattle.tasks.specs.Leaders.{IsLeading, GoesOn, HasEnded};

use crate::answers::Done;
use crate::feeds::Feed;
use crate::runs::{Numbered, Task};
use crate::stops::{AnyReason, Stop, shut_or_stop};
use crate::turns::{End, take};
use carriers::{Carrier, Unpushed};
use history::Refusal;
use shared_queue::SharedQueue;
use std::sync::Wait;

/// Who hands out the tasks: its seats of both queues, the feed, how many tasks were given, and of how many tasks that were
/// handed out the result wasn't told yet.
#[derive(Drop)]
pub(crate) struct Leader<S, U, F> {
    pub(crate) tasks: S,
    pub(crate) results: U,
    pub(crate) feed: F,
    pub(crate) given: usize,
    pub(crate) awaited: usize,
}

/// What who handed out the tasks brings back: why it ended before all was told, and why the queue of tasks couldn't be shut.
#[derive(Drop)]
pub(crate) struct Led<S, U, F> {
    pub(crate) leader: Leader<S, U, F>,
    pub(crate) refused: Option<Refusal>,
    pub(crate) unshut: Option<Refusal>,
}

// Tells a result that has come; false where none has.
fn take_result<
    R: Wait,
    T: Task,
    F: Feed<T>,
    C: Carrier<Item = Numbered<T>>,
    D: Carrier<Item = Done<Result<T::Output, T::Error>>>,
>(
    rt: &R,
    tasks: &SharedQueue<C>,
    results: &SharedQueue<D>,
    leader: &mut Leader<C::Seat, D::Seat, F>,
) -> Result<bool, Refusal>
    requires { IsLeading C.is_seat C.permits C.known D.is_seat D.permits D.known T.answers F.stands
        (queue_of tasks.now) (queue_of results.now) leader.old }
    ensures leading { GoesOn C.is_seat C.permits C.known D.is_seat D.permits D.known T.answers
        F.stands (queue_of tasks.now) (queue_of results.now) leader.old leader.new }
    ensures kept { F.kept leader.new.feed ≡ F.kept leader.old.feed }
{
    let Some(awaited) = leader.awaited.checked_sub(1) else {
        return Ok(false);
    };
    match results.pop(rt, &mut leader.results)? {
        Some(front) => {
            leader.awaited = awaited;
            leader.feed.tell(front.value);
            Ok(true)
        }
        None => Ok(false),
    }
}

// Hands out the next task; false where there is none now. One that can't be pushed is run here. Refused by `BadSize` where there
// is no number for a further one.
fn hand_out<
    R: Wait,
    T: Task,
    F: Feed<T>,
    C: Carrier<Item = Numbered<T>>,
    D: Carrier<Item = Done<Result<T::Output, T::Error>>>,
>(
    rt: &R,
    tasks: &SharedQueue<C>,
    results: &SharedQueue<D>,
    leader: &mut Leader<C::Seat, D::Seat, F>,
) -> Result<bool, Refusal>
    requires { IsLeading C.is_seat C.permits C.known D.is_seat D.permits D.known T.answers F.stands
        (queue_of tasks.now) (queue_of results.now) leader.old }
    ensures leading { GoesOn C.is_seat C.permits C.known D.is_seat D.permits D.known T.answers
        F.stands (queue_of tasks.now) (queue_of results.now) leader.old leader.new }
    ensures kept { F.kept leader.new.feed ≡ F.kept leader.old.feed }
    ensures idle { IfOk result (λ given. IsTrue given ⊎ F.idle leader.new.feed) }
{
    let number = leader.given;
    let Some(given) = number.checked_add(1) else {
        return Err(Refusal::BadSize);
    };
    let Some(task) = leader.feed.next() else {
        return Ok(false);
    };
    leader.given = given;
    match tasks.push(rt, &mut leader.tasks, Numbered { number, task }) {
        Ok(()) => leader.awaited += 1,
        Err(Unpushed { refusal: _, value }) => leader.feed.tell(value.run()),
    }
    Ok(true)
}

// Runs a task here that no worker took yet; false where there is none.
fn help<
    R: Wait,
    T: Task,
    F: Feed<T>,
    C: Carrier<Item = Numbered<T>>,
    D: Carrier<Item = Done<Result<T::Output, T::Error>>>,
>(
    rt: &R,
    tasks: &SharedQueue<C>,
    results: &SharedQueue<D>,
    leader: &mut Leader<C::Seat, D::Seat, F>,
) -> Result<bool, Refusal>
    requires leading { IsLeading C.is_seat C.permits C.known D.is_seat D.permits D.known T.answers
        F.stands (queue_of tasks.now) (queue_of results.now) leader.old }
    requires awaited { 0 < leader.old.awaited }
    ensures leading { GoesOn C.is_seat C.permits C.known D.is_seat D.permits D.known T.answers
        F.stands (queue_of tasks.now) (queue_of results.now) leader.old leader.new }
    ensures kept { F.kept leader.new.feed ≡ F.kept leader.old.feed }
    ensures same { IfOk result (λ ran. IsTrue ran ⊎ (leader.new.awaited ≡ leader.old.awaited)) }
{
    match tasks.pop(rt, &mut leader.tasks)? {
        Some(front) => {
            leader.awaited -= 1;
            leader.feed.tell(front.value.run());
            Ok(true)
        }
        None => Ok(false),
    }
}

// Why no result was taken: `Closed` where workers were told to stop, as by one that couldn't send its result.
fn untaken(end: End) -> Refusal {
    match end {
        End::Refused(refusal) => refusal,
        _ => Refusal::Closed,
    }
}

// Tells the next result, and sleeps until it comes, or until workers are told to stop.
fn wait_for<
    R: Wait,
    T: Task,
    F: Feed<T>,
    C: Carrier<Item = Numbered<T>>,
    D: Carrier<Item = Done<Result<T::Output, T::Error>>>,
>(
    rt: &R,
    tasks: &SharedQueue<C>,
    results: &SharedQueue<D>,
    leader: &mut Leader<C::Seat, D::Seat, F>,
    stop: &Stop<AnyReason>,
) -> Result<(), Refusal>
    requires leading { IsLeading C.is_seat C.permits C.known D.is_seat D.permits D.known T.answers
        F.stands (queue_of tasks.now) (queue_of results.now) leader.old }
    requires awaited { 0 < leader.old.awaited }
    ensures leading { GoesOn C.is_seat C.permits C.known D.is_seat D.permits D.known T.answers
        F.stands (queue_of tasks.now) (queue_of results.now) leader.old leader.new }
    ensures kept { F.kept leader.new.feed ≡ F.kept leader.old.feed }
{
    match take(rt, results, &mut leader.results, stop) {
        Ok(front) => {
            leader.awaited -= 1;
            leader.feed.tell(front.value);
            Ok(())
        }
        Err(end) => Err(untaken(end)),
    }
}

// Tells a result, hands out a task, runs one, or sleeps until a result comes; false where all is told and no task is given.
fn turn<
    R: Wait,
    T: Task,
    F: Feed<T>,
    C: Carrier<Item = Numbered<T>>,
    D: Carrier<Item = Done<Result<T::Output, T::Error>>>,
>(
    rt: &R,
    tasks: &SharedQueue<C>,
    results: &SharedQueue<D>,
    leader: &mut Leader<C::Seat, D::Seat, F>,
    stop: &Stop<AnyReason>,
) -> Result<bool, Refusal>
    requires { IsLeading C.is_seat C.permits C.known D.is_seat D.permits D.known T.answers F.stands
        (queue_of tasks.now) (queue_of results.now) leader.old }
    ensures leading { GoesOn C.is_seat C.permits C.known D.is_seat D.permits D.known T.answers
        F.stands (queue_of tasks.now) (queue_of results.now) leader.old leader.new }
    ensures kept { F.kept leader.new.feed ≡ F.kept leader.old.feed }
    ensures ended { IfOk result (λ more. IsTrue more ⊎ (leader.new.awaited ≡ 0)) }
    ensures idle { IfOk result (λ more. IsTrue more ⊎ F.idle leader.new.feed) }
{
    if take_result(rt, tasks, results, leader)? || hand_out(rt, tasks, results, leader)? {
        return Ok(true);
    }
    if leader.awaited == 0 {
        return Ok(false);
    }
    if !help(rt, tasks, results, leader)? {
        wait_for(rt, tasks, results, leader, stop)?;
    }
    Ok(true)
}

// Goes on until all is told and no task is given; why it ended before.
fn lead_on<
    R: Wait,
    T: Task,
    F: Feed<T>,
    C: Carrier<Item = Numbered<T>>,
    D: Carrier<Item = Done<Result<T::Output, T::Error>>>,
>(
    rt: &R,
    tasks: &SharedQueue<C>,
    results: &SharedQueue<D>,
    leader: &mut Leader<C::Seat, D::Seat, F>,
    stop: &Stop<AnyReason>,
) -> Option<Refusal>
    requires { IsLeading C.is_seat C.permits C.known D.is_seat D.permits D.known T.answers F.stands
        (queue_of tasks.now) (queue_of results.now) leader.old }
    ensures leading { GoesOn C.is_seat C.permits C.known D.is_seat D.permits D.known T.answers
        F.stands (queue_of tasks.now) (queue_of results.now) leader.old leader.new }
    ensures kept { F.kept leader.new.feed ≡ F.kept leader.old.feed }
    ensures ended { result ≡ None → leader.new.awaited ≡ 0 }
    ensures idle { result ≡ None → F.idle leader.new.feed }
{
    for _ in rt.forever() {
        match turn(rt, tasks, results, leader, stop) {
            Ok(true) => {}
            Ok(false) => return None,
            Err(refusal) => return Some(refusal),
        }
    }
    unreachable!()
}

/// Hands out tasks and tells results until all is told and no task is given, and then shuts the queue of tasks. Where a call is
/// refused before, or the queue can't be shut, workers are told to stop.
pub(crate) fn lead<
    R: Wait,
    T: Task,
    F: Feed<T>,
    C: Carrier<Item = Numbered<T>>,
    D: Carrier<Item = Done<Result<T::Output, T::Error>>>,
>(
    rt: &R,
    tasks: &SharedQueue<C>,
    results: &SharedQueue<D>,
    mut leader: Leader<C::Seat, D::Seat, F>,
    stop: &Stop<AnyReason>,
) -> Led<C::Seat, D::Seat, F>
    requires { IsLeading C.is_seat C.permits C.known D.is_seat D.permits D.known T.answers F.stands
        (queue_of tasks.now) (queue_of results.now) leader }
    //= tasks/led_on (ended, kept, idle): Who hands out the tasks pushes each that it is given under its own number, or runs
    //=   it, and tells each result that comes, until the feed is idle and all is told, or it is refused; then it shuts the
    //=   queue of tasks, finds it shut, or tells why not. What the feed keeps is as before.
    ensures ended { HasEnded C.is_seat C.permits C.known D.is_seat D.permits D.known T.answers F.stands
        (queue_of tasks.now) (queue_of results.now) leader result }
    ensures kept { F.kept result.leader.feed ≡ F.kept leader.feed }
    ensures idle { result.refused ≡ None → F.idle result.leader.feed }
{
    let refused = lead_on(rt, tasks, results, &mut leader, stop);
    if refused.is_some() {
        stop.tell();
        results.wake_all();
    }
    let unshut = shut_or_stop(rt, tasks, &mut leader.tasks, stop);
    Led {
        leader,
        refused,
        unshut,
    }
}
