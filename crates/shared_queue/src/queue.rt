//! The queue, and its calls that don't sleep.
ghost use Rattle.std.specs.Prelude.{◌≡◌};
ghost use Rattle.shared_queue.specs.Queues.{queue_of};

use crate::bells::Bells;
use crate::steps::refused;
use calls::{Seen, Task};
use carriers::{Carrier, ItemOf, Unpushed};
use history::Refusal;
use std::sync::atomic::AtomicBool;

/// A queue of values, any `Carrier`, whose calls sleep where it is empty, or full. It is a `Carrier` itself, whose calls are
/// those of the queue and wake who sleeps: a push wakes one that waits for a value, a pop one that waits for a node, a shut
/// all.
#[derive(Drop)]
pub struct SharedQueue<C> {
    pub(crate) queue: C,
    pub(crate) is_shut: AtomicBool,
    pub(crate) bells: Bells,
}

impl<C> SharedQueue<C> {
    /// This queue, with calls that sleep. Takes no memory and doesn't wait.
    ///
    /// ```rust
    /// let roles = [Role::Giver, Role::Taker];
    /// let (queue, seats) = MsValueQueue::<String>::new(alloc, 1024, MOST_COUNT, &roles)?;
    /// let queue = SharedQueue::new(queue);
    /// ```
    pub fn new(queue: C) -> SharedQueue<C>
        //= carriers/blocking: A queue of values whose calls sleep is made of a queue and gives it back; as a `Carrier` it has
        //=   that queue's seats, what each may do, what each knows, and its causes.
        ensures { queue_of result ≡ queue }
    {
        SharedQueue {
            queue,
            is_shut: AtomicBool::new(false),
            bells: Bells::new(),
        }
    }

    /// Wakes all whose calls sleep, so that each looks again, also whether its deadline has come. Takes no memory and doesn't
    /// wait.
    ///
    /// ```rust
    /// stop.store(true, Ordering::SeqCst);
    /// queue.wake_all();
    /// ```
    pub fn wake_all(&self) {
        self.bells.tried(Task::Shut, Seen::Got);
    }

    /// The queue alone, to be closed by its seats. Takes no memory and doesn't wait.
    ///
    /// ```rust
    /// let (rest, _end) = queue.into_inner().close(alloc, seats)?;
    /// ```
    pub fn into_inner(self) -> C
        //= carriers/blocking
        ensures { result ≡ queue_of self }
    {
        let SharedQueue {
            queue,
            is_shut: _,
            bells: _,
        } = self;
        queue
    }
}

//= carriers/blocking
impl<C: Carrier> Carrier for SharedQueue<C> {
    ghost use Rattle.shared_queue.specs.Queues.{queue_of};

    type Item = C::Item;

    type Seat = C::Seat;

    ghost is_seat = { λ q s. C.is_seat (queue_of q) s };

    ghost permits = { λ q. C.permits (queue_of q) };

    ghost known = { λ s. C.known s };

    ghost push_cause = { λ q s s' turns refusal. C.push_cause (queue_of q) s s' turns refusal };

    ghost pop_cause = { λ q s s' turns refusal. C.pop_cause (queue_of q) s s' turns refusal };

    ghost shut_cause = { λ q s s' turns refusal. C.shut_cause (queue_of q) s s' turns refusal };

    ghost sound = { λ q s h. C.sound (queue_of q) s h };

    ghost closed_alike = { λ q. C.closed_alike (queue_of q) };

    ghost seat_prop = { λ q s. C.seat_prop (queue_of q) s };

    fn try_push(
        &self,
        seat: &mut C::Seat,
        value: C::Item,
        turns: u32,
    ) -> Result<(), Unpushed<C::Item>> {
        match self.queue.try_push(seat, value, turns) {
            Ok(()) => {
                self.bells.tried(Task::Push, Seen::Got);
                Ok(())
            }
            Err(unpushed) => {
                self.bells.tried(Task::Push, refused(&unpushed.refusal));
                Err(unpushed)
            }
        }
    }

    // (A list's pop gives a node back also where it takes no value, and where it takes one maybe two: so it rings for one more.)
    fn try_pop(&self, seat: &mut C::Seat, turns: u32) -> Result<Option<ItemOf<C::Item>>, Refusal> {
        let answer = self.queue.try_pop(seat, turns);
        self.bells.tried(Task::Pop, seen_by(&answer));
        self.bells.tried(Task::Pop, Seen::Got);
        answer
    }

    fn try_shut(&self, seat: &mut C::Seat, turns: u32) -> Result<(), Refusal> {
        let answer = self.queue.try_shut(seat, turns);
        self.bells.tell_of_shut(&self.is_shut, &answer);
        answer
    }

    fn meet(&self, one: &mut C::Seat, other: &mut C::Seat) {
        self.queue.meet(one, other);
    }

    fn may_push(&self, seat: &C::Seat) -> bool {
        self.queue.may_push(seat)
    }

    fn may_pop(&self, seat: &C::Seat) -> bool {
        self.queue.may_pop(seat)
    }
}

// What a look for a value sees whose try answers this.
fn seen_by<T>(answer: &Result<Option<ItemOf<T>>, Refusal>) -> Seen {
    match answer {
        Ok(Some(_)) => Seen::Got,
        Ok(None) => Seen::Nothing,
        Err(refusal) => refused(refusal),
    }
}
