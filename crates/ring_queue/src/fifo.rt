//! A ring as a queue with seats.
ghost use Rattle.std.specs.Prelude.{◌≡◌, ◌≤◌, ◌↔◌, IsTrue, OnOk, IfOk, IfErr};
ghost use Rattle.history.specs.Seats.{MayPush, MayPop};
ghost use Rattle.history.specs.Answers.{Pushed, PopAnswers, DidShut, Meets, StopsPush, StopsPop, StopsShut};
ghost use Rattle.history.specs.Answers.{PushRefused, PopRefused};
ghost use Rattle.ring_queue.specs.Causes.{PushCaused, PopCaused, ShutCaused};
ghost use Rattle.ring_queue.specs.Seats.{known_of};

use crate::queue::RingQueue;
use crate::roles::Role;
use crate::seats::Seat;
use history::{Body, Fifo, Refusal, Taken};

impl Fifo for RingQueue {
    ghost use Rattle.ring_queue.specs.Queues.{IsNumberSeat, permits_in, push_causes, pop_causes, shut_causes};
    ghost use Rattle.ring_queue.specs.Seats.{known_of};
    ghost use Rattle.ring_queue.specs.OneProof.{IsNumberSeat-prop};

    type Seat = Seat;

    ghost is_seat = { IsNumberSeat };

    ghost permits = { permits_in };

    ghost known = { known_of };

    //= ring/causes (push_cause, pop_cause, shut_cause): A push or a shut is refused `Closed` only where what its seat has seen
    //=   by the end of the call leaves the ring shut, a pop only where that leaves it empty too. A shut is refused so alone. A
    //=   push has cause for `NoNode` where that leaves the ring full, for `WornOut` where it leaves no place up to the limit,
    //=   and for `Busy` where Tail, as its seat read it, rose by more than `turns` since the seat's last look. A pop is `Busy`
    //=   where Head rose by `turns` so, or where, after no less than its seat had seen before, a place from its head on had
    //=   been claimed, and at some step wasn't filled.
    ghost push_cause = { push_causes };

    ghost pop_cause = { pop_causes };

    ghost shut_cause = { shut_causes };

    ghost sound = { λ q s h. h.ready.sits.sound };

    ghost closed_alike = { λ _ _ _ _ cause. cause };

    ghost seat_prop = { IsNumberSeat-prop };

    /// Refusals: `NoNode` where at one step the queue held as many values as make it full, `WornOut` where at one step no place
    /// up to the limit was left, `Busy` where in each of so many turns others pushed meanwhile, and `Closed` where at one
    /// step the queue was shut. Takes no memory and doesn't wait.
    fn try_push(&self, seat: &mut Seat, body: Body, turns: u32) -> Result<(), Refusal> {
        self.push_in(seat, body, turns)
    }

    /// Refusals: `Busy` where each of so many turns failed, and `Closed` where at one step the queue was shut and empty.
    /// Takes no memory and doesn't wait.
    fn try_pop(&self, seat: &mut Seat, turns: u32) -> Result<Option<Taken>, Refusal> {
        self.pop_in(seat, turns)
    }

    /// One step. Refusals: `Closed` where the queue was shut before. Takes no memory and doesn't wait.
    fn try_shut(&self, seat: &mut Seat, turns: u32) -> Result<(), Refusal> {
        let _ = turns;
        self.set_shut(seat)
    }

    fn meet(&self, one: &mut Seat, other: &mut Seat) {
        self.meet_seats(one, other);
    }

    fn may_push(&self, seat: &Seat) -> bool {
        let _ = self;
        match seat.role {
            Role::Giver | Role::Both => true,
            Role::Taker => false,
        }
    }

    fn may_pop(&self, seat: &Seat) -> bool {
        let _ = self;
        match seat.role {
            Role::Taker | Role::Both => true,
            Role::Giver => false,
        }
    }
}
