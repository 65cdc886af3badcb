//! A queue that goes by a plan: each call is first put to the plan, which may refuse it, and else handed on.
ghost use Rattle.std.specs.Prelude.{IfOk, IfErr, IsTrue};

use history::{Body, Close, Fifo, Refusal, Rest, Taken, WornWord};
use std::alloc::Global;

/// What becomes of the calls of a queue. A plan may take its time, as by turning until another call was made.
pub trait Plan {
    /// What a push of so many turns is refused, before it is handed on; none where it is to be handed on.
    fn push_refusal(&self, turns: u32) -> Option<Refusal>;

    /// What a pop of so many turns is refused, before it is handed on; none where it is to be handed on.
    fn pop_refusal(&self, turns: u32) -> Option<Refusal>;

    /// What a shut of so many turns is refused, before it is handed on: `WornOut(Tail)` or `Busy`. It is handed on where this is
    /// none, or something else, which refuses no shut.
    fn shut_refusal(&self, _turns: u32) -> Option<Refusal> {
        None
    }

    /// A pop that was handed on found the queue empty.
    fn finds_empty(&self);

    /// A pop that was handed on was refused so.
    fn finds_trouble(&self, _why: Refusal) {}
}

/// A queue that goes by a plan.
#[derive(Drop)]
pub struct Planned<Q: Drop, P: Drop> {
    queue: Q,
    plan: P,
}

impl<Q: Fifo + Drop, P: Plan + Drop> Planned<Q, P> {
    ghost use Rattle.std.specs.Prelude.{◌≡◌};
    ghost use Rattle.mock_queues.specs.Plans.{queue_of};

    /// This queue, by this plan. Takes no memory.
    pub fn new(queue: Q, plan: P) -> Planned<Q, P>
        ensures { queue_of result ≡ queue }
    {
        Planned { queue, plan }
    }
}

impl<Q: Fifo + Drop, P: Plan + Drop> Fifo for Planned<Q, P> {
    ghost use Rattle.std.specs.Prelude.{◌≡◌, map};
    ghost use Rattle.std.specs.List.{All};
    ghost use Rattle.history.specs.Ends.{Closes};
    ghost use Rattle.mock_queues.specs.Plans.{queue_of};

    type Seat = Q::Seat;

    ghost is_seat = { λ q s. Q.is_seat (queue_of q) s };

    ghost permits = { λ q. Q.permits (queue_of q) };

    ghost known = { λ s. Q.known s };

    ghost push_cause = { λ _ _ _ _ _. Unit {0} };

    ghost pop_cause = { λ _ _ _ _ _. Unit {0} };

    ghost shut_cause = { λ _ _ _ _ _. Unit {0} };

    ghost sound = { λ q s h. Q.sound (queue_of q) s h };

    ghost closed_alike = { λ _ _ _ _ cause. cause };

    ghost seat_prop = { λ q s. Q.seat_prop (queue_of q) s };

    fn try_push(&self, seat: &mut Q::Seat, body: Body, turns: u32) -> Result<(), Refusal> {
        match self.plan.push_refusal(turns) {
            Some(Refusal::NoNode) => Err(Refusal::NoNode),
            Some(Refusal::WornOut(word)) => Err(Refusal::WornOut(word)),
            Some(Refusal::Busy) => Err(Refusal::Busy),
            _ => self.queue.try_push(seat, body, turns),
        }
    }

    fn try_pop(&self, seat: &mut Q::Seat, turns: u32) -> Result<Option<Taken>, Refusal> {
        match self.plan.pop_refusal(turns) {
            Some(Refusal::WornOut(word)) => return Err(Refusal::WornOut(word)),
            Some(Refusal::Busy) => return Err(Refusal::Busy),
            _ => {}
        }
        match self.queue.try_pop(seat, turns) {
            Ok(Some(taken)) => Ok(Some(taken)),
            Ok(None) => {
                self.plan.finds_empty();
                Ok(None)
            }
            Err(refusal) => {
                self.plan.finds_trouble(refusal);
                Err(refusal)
            }
        }
    }

    fn try_shut(&self, seat: &mut Q::Seat, turns: u32) -> Result<(), Refusal> {
        match self.plan.shut_refusal(turns) {
            Some(Refusal::WornOut(WornWord::Tail)) => Err(Refusal::WornOut(WornWord::Tail)),
            Some(Refusal::Busy) => Err(Refusal::Busy),
            _ => self.queue.try_shut(seat, turns),
        }
    }

    fn meet(&self, one: &mut Q::Seat, other: &mut Q::Seat) {
        self.queue.meet(one, other);
    }

    fn may_push(&self, seat: &Q::Seat) -> bool {
        self.queue.may_push(seat)
    }

    fn may_pop(&self, seat: &Q::Seat) -> bool {
        self.queue.may_pop(seat)
    }
}

impl<Q: Close + Drop, P: Plan + Drop> Close for Planned<Q, P> {
    ghost use Rattle.std.specs.Prelude.{map};
    ghost use Rattle.std.specs.List.{All};
    ghost use Rattle.history.specs.Ends.{Closes};
    ghost use Rattle.mock_queues.specs.Plans.{queue_of};

    type End = Q::End;

    ghost ends = { λ q. Q.ends (queue_of q) };

    ghost asks = { λ q. Q.asks (queue_of q) };

    ghost has_room = { λ q. Q.has_room (queue_of q) };

    fn room(&self, alloc: Global) -> Result<Vec<Taken>, Refusal> {
        self.queue.room(alloc)
    }

    fn close_with(self, room: Vec<Taken>, seats: Vec<Q::Seat>) -> (Rest, Q::End)
        requires room { Q.has_room self.queue room }
        requires seats { All (Q.is_seat self.queue) seats.items }
        requires asked { Q.asks self.queue (map Q.known seats.items) }
        ensures rest { Closes (Q.permits self.queue) (map Q.known seats.items) result.0 }
        ensures ends { Q.ends self.queue result.1 result.0 }
    {
        self.queue.close_with(room, seats)
    }
}
