//! That workers are told to stop.
ghost use Rattle.std.specs.Prelude.{◌≡◌, true, IfSome};
ghost use Rattle.history.specs.Seats.{MayPush};
ghost use Rattle.carriers.specs.Answers.{EndsByTryOf};
ghost use Rattle.shared_queue.specs.Queues.{queue_of};
ghost use Rattle.tasks.specs.Offers.{EndsShutBy};

use carriers::Carrier;
use history::Refusal;
use shared_queue::{Deadline, SharedQueue};
use std::marker::PhantomData;
use std::snapshot::Snapshot;
use std::sync::Wait;
use std::sync::atomic::{AtomicBool, Ordering};
use std::time::Duration;

/// That no task comes any more, though the queue isn't shut. Who tells it then calls `wake_all` of the queue.
///
/// `W` is why it may be told: `Unshut`, or `AnyReason`.
#[derive(Drop)]
pub struct Stop<W> {
    told: AtomicBool,
    why: PhantomData<W>,
}

/// A `Stop` that is told only where the queue can't be shut.
pub struct Unshut;

/// A `Stop` that is told for whatever reason.
pub struct AnyReason;

impl<W> Stop<W> {
    /// Tasks may come. Takes no memory.
    pub const fn new() -> Stop<W> {
        Stop {
            told: AtomicBool::new(false),
            why: PhantomData,
        }
    }

    /// No task comes any more, since a shut by this seat, which was so before, was refused so. Takes no memory and doesn't
    /// wait.
    pub fn tell_unshut<C: Carrier>(
        &self,
        queue: &C,
        before: &Snapshot<C::Seat>,
        seat: &C::Seat,
        refusal: &Refusal,
    )
        requires { EndsByTryOf C.is_seat C.known C.shut_cause queue.now before.now.value seat.now 8
            refusal.now }
    {
        self.set();
    }

    /// Whether no task comes any more. Takes no memory and doesn't wait.
    pub fn is_told(&self) -> bool {
        self.told.load(Ordering::SeqCst)
    }

    fn set(&self) {
        self.told.store(true, Ordering::SeqCst);
    }
}

impl Stop<AnyReason> {
    /// No task comes any more. Takes no memory and doesn't wait.
    pub fn tell(&self) {
        self.set();
    }
}

/// A worker waits for a task until then.
impl<W> Deadline for Stop<W> {
    ghost comes = { λ stop. true };

    fn is_past(&self) -> bool {
        self.is_told()
    }

    fn left(&self) -> Option<Duration> {
        None
    }
}

/// Shuts the queue, which wakes the workers that sleep; where it can't be shut, tells them to stop, and tells why.
pub(crate) fn shut_or_stop<R: Wait, C: Carrier, W>(
    rt: &R,
    queue: &SharedQueue<C>,
    seat: &mut C::Seat,
    stop: &Stop<W>,
) -> Option<Refusal>
    requires seat { C.is_seat (queue_of queue.now) seat.old }
    requires role { MayPush (C.permits (queue_of queue.now)) (C.known seat.old).number }
    ensures seat { C.is_seat (queue_of queue.now) seat.new }
    ensures number { (C.known seat.new).number ≡ (C.known seat.old).number }
    ensures shut { EndsShutBy (C.known seat.old) (C.known seat.new) result }
    ensures caused { IfSome result (EndsByTryOf C.is_seat C.known C.shut_cause (queue_of queue.now)
        seat.old seat.new 8) }
{
    let before = Snapshot::of(seat);
    match queue.shut(rt, seat) {
        Ok(()) | Err(Refusal::Closed) => None,
        Err(refusal) => {
            stop.tell_unshut(queue, &before, seat, &refusal);
            queue.wake_all();
            Some(refusal)
        }
    }
}
