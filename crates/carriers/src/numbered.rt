//! Every queue of numbers as a queue of values.
ghost use Rattle.std.specs.Prelude.{◌≡◌};
ghost use Rattle.carriers.specs.Numbers.{fifo_of};
ghost use Rattle.carriers.specs.DeedsOfNumbers.{item_taken};

use crate::items::{ItemOf, Unpushed};
use crate::queues::Carrier;
use history::{Body, Fifo, Refusal, Taken};

/// A queue of numbers, as a queue of values that are bodies: its history of entries is one of deeds.
///
/// The seats are those of the queue of numbers.
#[derive(Drop)]
pub struct Numbers<Q> {
    queue: Q,
}

impl<Q> Numbers<Q> {
    /// This queue, as one of values. Takes no memory and doesn't wait.
    pub fn new(queue: Q) -> Numbers<Q>
        //= carriers/numbers: Every queue of numbers is a queue of values that are bodies, with the same seats and causes of
        //=   refusals; what a seat knows is the same, with each entry as a deed. It is the queue given, and is handed back.
        ensures { fifo_of result ≡ queue }
    {
        Numbers { queue }
    }

    /// The queue of numbers. Takes no memory and doesn't wait.
    pub fn queue(&self) -> &Q
        //= carriers/numbers
        ensures { result.now ≡ fifo_of self.now }
    {
        &self.queue
    }

    /// The queue of numbers, as one again. Takes no memory and doesn't wait.
    pub fn into_queue(self) -> Q
        //= carriers/numbers
        ensures { result ≡ fifo_of self }
    {
        let Numbers { queue } = self;
        queue
    }
}

// A value that was taken from a queue of numbers.
fn item(taken: Taken) -> ItemOf<Body>
    ensures { result ≡ item_taken taken }
{
    ItemOf {
        from: taken.from,
        value: taken.body,
    }
}

//= carriers/numbers
impl<Q: Fifo> Carrier for Numbers<Q> {
    ghost use Rattle.carriers.specs.DeedsOfNumbers.{known_by_deeds};
    ghost use Rattle.carriers.specs.Sound.{sound-deeds};

    type Item = Body;

    type Seat = Q::Seat;

    ghost is_seat = { λ q s. Q.is_seat (fifo_of q) s };

    ghost permits = { λ q. Q.permits (fifo_of q) };

    ghost known = { λ s. known_by_deeds (Q.known s) };

    ghost push_cause = { λ q s s' turns refusal. Q.push_cause (fifo_of q) s s' turns refusal };

    ghost pop_cause = { λ q s s' turns refusal. Q.pop_cause (fifo_of q) s s' turns refusal };

    ghost shut_cause = { λ q s s' turns refusal. Q.shut_cause (fifo_of q) s s' turns refusal };

    ghost sound = { λ q s h. sound-deeds (Q.permits (fifo_of q)) (Q.known s) (Q.sound (fifo_of q) s h) };

    ghost closed_alike = { λ q. Q.closed_alike (fifo_of q) };

    ghost seat_prop = { λ q s. Q.seat_prop (fifo_of q) s };

    #[inline(always)]
    fn try_push(&self, seat: &mut Q::Seat, value: Body, turns: u32) -> Result<(), Unpushed<Body>> {
        match self.queue.try_push(seat, value, turns) {
            Ok(()) => Ok(()),
            Err(refusal) => Err(Unpushed { refusal, value }),
        }
    }

    #[inline(always)]
    fn try_pop(&self, seat: &mut Q::Seat, turns: u32) -> Result<Option<ItemOf<Body>>, Refusal> {
        match self.queue.try_pop(seat, turns) {
            Ok(Some(taken)) => Ok(Some(item(taken))),
            Ok(None) => Ok(None),
            Err(refusal) => Err(refusal),
        }
    }

    fn try_shut(&self, seat: &mut Q::Seat, turns: u32) -> Result<(), Refusal> {
        self.queue.try_shut(seat, turns)
    }

    fn meet(&self, one: &mut Q::Seat, other: &mut Q::Seat) {
        self.queue.meet(one, other);
    }

    fn may_push(&self, seat: &Q::Seat) -> bool {
        self.queue.may_push(seat)
    }

    fn may_pop(&self, seat: &Q::Seat) -> bool {
        self.queue.may_pop(seat)
    }
}
