//! The submitter: it pushes the numbers of the jobs, and then shuts the queue.
ghost use Rattle.std.specs.Prelude.{◌≡◌, OnOk, OnErr, IfErr};
ghost use Rattle.history.specs.Seats.{MayPush};
ghost use Rattle.shared_queue.specs.Queues.{numbers_in};
ghost use Rattle.dispatcher.specs.Workers.{IsGiver, HasPushedOne};
ghost use Rattle.dispatcher.specs.Submissions.{EndsPushOne, HasOffered, EndsShutBy, WasUnshut, HasGiven, refusal_of};

use crate::signals::{AllEnded, Excuse, NoneLeft, Signals};
use carriers::{Carrier, Numbers};
use history::{Body, Fifo, Refusal};
use shared_queue::{InTime, SharedQueue};
use std::sync::Wait;

/// Why a number wasn't pushed.
#[derive(Clone, Copy, Debug, PartialEq, Eq)]
pub enum Unpushed {
    /// No worker was left.
    NoneLeft(NoneLeft),
    /// It is no body's number, by `BadSize`; or its push was refused, by `WornOut` or `Closed`.
    Refused(Refusal),
}

impl Unpushed {
    /// The refusal: `Lost` where no worker was left. Takes no memory.
    pub fn refusal(&self) -> Refusal
        //= jobs/unpushed: Why a number wasn't pushed is told as a refusal too: `Lost` where no worker was left.
        ensures { result ≡ refusal_of self.now }
    {
        match self {
            Unpushed::NoneLeft(_) => Refusal::Lost,
            Unpushed::Refused(refusal) => *refusal,
        }
    }
}

/// What the submitter brings back: its seat, why it pushed no more numbers, if it didn't push all, and why the queue couldn't
/// be shut, if it couldn't.
#[derive(Drop)]
pub struct Given<S> {
    pub seat: S,
    pub refused: Option<Unpushed>,
    pub unshut: Option<Refusal>,
}

// Pushes one number while a worker runs, and sleeps while no node is free.
fn push_one<R: Wait, Q: Fifo, X: Excuse>(
    rt: &R,
    queue: &SharedQueue<Numbers<Q>>,
    seat: &mut Q::Seat,
    number: u64,
    workers: usize,
    signals: &Signals<X>,
) -> Result<(), Unpushed>
    requires { IsGiver Q.is_seat Q.permits Q.known (numbers_in queue.now) seat.old }
    ensures giver { IsGiver Q.is_seat Q.permits Q.known (numbers_in queue.now) seat.new }
    ensures number { (Q.known seat.new).number ≡ (Q.known seat.old).number }
    ensures pushed { OnOk result (HasPushedOne (Q.known seat.old) number (Q.known seat.new)) }
    ensures kept { OnErr result ((Q.known seat.new).mine ≡ (Q.known seat.old).mine) }
    ensures refusal { IfErr result (EndsPushOne Q.is_seat Q.known Q.push_cause
        (numbers_in queue.now) workers number seat.old seat.new) }
{
    let Some(body) = Body::new(number) else {
        return Err(Unpushed::Refused(Refusal::BadSize));
    };
    for _ in rt.forever() {
        if let Some(none) = signals.none_left(workers) {
            return Err(Unpushed::NoneLeft(none));
        }
        match queue.send_until(rt, seat, body, &AllEnded::new(signals, workers)) {
            Ok(InTime::Done(())) => return Ok(()),
            Ok(InTime::Late(_unsent)) => {}
            Err(unpushed) => return Err(Unpushed::Refused(unpushed.refusal)),
        }
    }
    unreachable!()
}

// Pushes 1 and so on to the number of jobs. Ends at the first number that isn't pushed, and tells why.
fn push_all<R: Wait, Q: Fifo, X: Excuse>(
    rt: &R,
    queue: &SharedQueue<Numbers<Q>>,
    seat: &mut Q::Seat,
    jobs: usize,
    workers: usize,
    signals: &Signals<X>,
) -> Option<Unpushed>
    requires { IsGiver Q.is_seat Q.permits Q.known (numbers_in queue.now) seat.old }
    ensures giver { IsGiver Q.is_seat Q.permits Q.known (numbers_in queue.now) seat.new }
    ensures number { (Q.known seat.new).number ≡ (Q.known seat.old).number }
    ensures offered { HasOffered Q.is_seat Q.known Q.push_cause (numbers_in queue.now) jobs workers
        seat.old result seat.new }
{
    for count in 0..jobs as u64 {
        if let Err(reason) = push_one(rt, queue, seat, count + 1, workers, signals) {
            return Some(reason);
        }
    }
    None
}

// Shuts the queue; where it can't be shut, tells why.
fn shut<R: Wait, Q: Fifo>(
    rt: &R,
    queue: &SharedQueue<Numbers<Q>>,
    seat: &mut Q::Seat,
) -> Option<Refusal>
    requires seat { Q.is_seat (numbers_in queue.now) seat.old }
    requires role { MayPush (Q.permits (numbers_in queue.now)) (Q.known seat.old).number }
    ensures seat { Q.is_seat (numbers_in queue.now) seat.new }
    ensures number { (Q.known seat.new).number ≡ (Q.known seat.old).number }
    ensures shut { EndsShutBy Q.is_seat Q.known Q.shut_cause (numbers_in queue.now)
        seat.old seat.new result }
{
    match queue.shut(rt, seat) {
        Ok(()) | Err(Refusal::Closed) => None,
        Err(refusal) => Some(refusal),
    }
}

/// Pushes 1 and so on to the number of jobs, up to the first that isn't pushed, and then shuts the queue, where it isn't shut
/// yet; or tells the workers that it can't be.
pub(crate) fn submit<R: Wait, Q: Fifo, X: Excuse>(
    rt: &R,
    queue: &SharedQueue<Numbers<Q>>,
    mut seat: Q::Seat,
    jobs: usize,
    workers: usize,
    signals: &Signals<X>,
) -> Given<Q::Seat>
    requires giver { IsGiver Q.is_seat Q.permits Q.known (numbers_in queue.now) seat }
    requires excuse { WasUnshut Q.is_seat Q.known Q.shut_cause (numbers_in queue.now) → X.cause }
    ensures { HasGiven Q.is_seat Q.known Q.push_cause Q.shut_cause (numbers_in queue.now) jobs workers
        seat result }
{
    let refused = push_all(rt, queue, &mut seat, jobs, workers, signals);
    let unshut = shut(rt, queue, &mut seat);
    if let Some(_) = unshut {
        signals.give_up();
        queue.wake_all();
    }
    Given {
        seat,
        refused,
        unshut,
    }
}
