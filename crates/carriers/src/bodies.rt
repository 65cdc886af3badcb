//! Every queue of values that are bodies as a queue of numbers.
ghost use Rattle.std.specs.Prelude.{◌≡◌};
ghost use Rattle.carriers.specs.Bodies.{carrier_of};

use crate::queues::Carrier;
use history::{Body, Fifo, Refusal, Taken};

/// A queue of values that are bodies, as a queue of numbers.
#[derive(Drop)]
pub struct Bodies<C> {
    carrier: C,
}

impl<C> Bodies<C> {
    /// This queue, as one of numbers. Takes no memory and doesn't wait.
    pub fn new(carrier: C) -> Bodies<C>
        //= carriers/bodies: Every queue of values that are bodies is a queue of numbers, with the same seats and causes of
        //=   refusals; what a seat knows is the same, with each deed as an entry. It is the queue given.
        ensures { carrier_of result ≡ carrier }
    {
        Bodies { carrier }
    }
}

//= carriers/bodies
impl<C: Carrier<Item = Body>> Fifo for Bodies<C> {
    ghost use Rattle.carriers.specs.ToEntries.{known_of_deeds, sound-entries};

    type Seat = C::Seat;

    ghost is_seat = { λ q s. C.is_seat (carrier_of q) s };

    ghost permits = { λ q. C.permits (carrier_of q) };

    ghost known = { λ s. known_of_deeds (C.known s) };

    ghost push_cause = { λ q s s' turns refusal. C.push_cause (carrier_of q) s s' turns refusal };

    ghost pop_cause = { λ q s s' turns refusal. C.pop_cause (carrier_of q) s s' turns refusal };

    ghost shut_cause = { λ q s s' turns refusal. C.shut_cause (carrier_of q) s s' turns refusal };

    ghost sound = { λ q s h. sound-entries (C.permits (carrier_of q)) (C.known s) (C.sound (carrier_of q) s h) };

    ghost closed_alike = { λ q. C.closed_alike (carrier_of q) };

    ghost seat_prop = { λ q s. C.seat_prop (carrier_of q) s };

    #[inline(always)]
    fn try_push(&self, seat: &mut C::Seat, body: Body, turns: u32) -> Result<(), Refusal> {
        match self.carrier.try_push(seat, body, turns) {
            Ok(()) => Ok(()),
            Err(unpushed) => Err(unpushed.refusal),
        }
    }

    #[inline(always)]
    fn try_pop(&self, seat: &mut C::Seat, turns: u32) -> Result<Option<Taken>, Refusal> {
        match self.carrier.try_pop(seat, turns) {
            Ok(Some(item)) => Ok(Some(item.into_taken())),
            Ok(None) => Ok(None),
            Err(refusal) => Err(refusal),
        }
    }

    fn try_shut(&self, seat: &mut C::Seat, turns: u32) -> Result<(), Refusal> {
        match self.carrier.try_shut(seat, turns) {
            Ok(()) => Ok(()),
            Err(refusal) => Err(refusal),
        }
    }

    fn meet(&self, one: &mut C::Seat, other: &mut C::Seat) {
        self.carrier.meet(one, other);
    }

    fn may_push(&self, seat: &C::Seat) -> bool {
        self.carrier.may_push(seat)
    }

    fn may_pop(&self, seat: &C::Seat) -> bool {
        self.carrier.may_pop(seat)
    }
}
