//! What shuts a channel's queue where one of its sides ends.
ghost use Rattle.std.specs.Prelude.{◌≡◌, IfErr, OnOk};
ghost use Rattle.history.specs.Answers.{StopsShut};
ghost use Rattle.carriers.specs.Answers.{DidShutOf, PushRefusedOf, EndsByTryOf};
ghost use Rattle.shared_queue.specs.Queues.{queue_of};
ghost use Rattle.shared_queue.specs.Seats.{IsGiver};
ghost use Rattle.shared_queue.specs.Tries.{TriedInVain};

use crate::TURNS;
use crate::queue::SharedQueue;
use carriers::Carrier;
use crossbeam_utils::Backoff;
use history::Refusal;
use std::alloc::Global;
use std::sync::Arc;

/// How often the last handle of a side tries to shut the queue, at most. Between two tries other threads run: as one that has a
/// lock, and that the system put aside.
const TRIES: u32 = 65_536;

/// Who shuts a queue, once, since that takes it. (A trait's: the `drop` of a side calls it, and the borrow checker covers no call
/// there that rests on `Seat: Send`, but of a trait's methods.)
pub(crate) trait Shuts {
    type Seat;

    /// Shuts the queue: what the last try answers, and the seat as it is then.
    fn shut(self) -> (Result<(), Refusal>, Self::Seat);
}

/// A seat that shuts its queue, with a share of that. It isn't `Drop`, and a shut takes it: so whoever has it shuts the queue,
/// and once, or leaves it as it is.
pub(crate) struct Closer<C: Carrier + Drop> {
    queue: Arc<SharedQueue<C>, Global>,
    pub(crate) seat: C::Seat,
    ghost sits: { ∥ IsGiver C.is_seat C.permits C.known (queue_of queue.value) seat ∥₁ },
}

impl<C: Carrier + Drop> Closer<C> {
    ghost use Rattle.shared_queue.specs.Closers.{closer_seat};

    pub(crate) fn new(queue: Arc<SharedQueue<C>, Global>, seat: C::Seat) -> Closer<C>
        requires { IsGiver C.is_seat C.permits C.known (queue_of queue.value) seat }
        ensures { closer_seat result ≡ seat }
    {
        Closer { queue, seat }
    }

    // Leaves the queue as it is: the seat, which did nothing.
    pub(crate) fn leave(self) -> C::Seat
        ensures { result ≡ closer_seat self }
    {
        let Closer { queue: _, seat } = self;
        seat
    }
}

impl<C: Carrier + Drop> Shuts for Closer<C> {
    ghost use Rattle.shared_queue.specs.Closers.{closer_queue, closer_seat};

    type Seat = C::Seat;

    fn shut(self) -> (Result<(), Refusal>, C::Seat)
        //= carriers/channel_ended (shut, refused, refusal, caused, busy): A side's closer has shut its queue by one deed, or
        //=   is refused, with the cause of a try of 8 turns; `Busy` only after 65,536 such tries, one after another, each of
        //=   which had that cause. That the drop of the last sender, or receiver, calls it, no clause says.
        ensures shut { OnOk result.0
            (DidShutOf (C.known (closer_seat self)) (C.known result.1)) }
        ensures refused { IfErr result.0
            (λ refusal. PushRefusedOf (C.known (closer_seat self)) refusal (C.known result.1)) }
        ensures refusal { IfErr result.0 StopsShut }
        ensures caused { IfErr result.0 (EndsByTryOf C.is_seat C.known C.shut_cause
            (closer_queue self) (closer_seat self) result.1 8) }
        ensures busy { IfErr result.0 (λ refusal. refusal ≡ Refusal.Busy
            → TriedInVain C.is_seat C.known C.shut_cause (closer_queue self) 65536 8
            (closer_seat self) result.1) }
    {
        let Closer { queue, mut seat } = self;
        let backoff = Backoff::new();
        for _ in 1..TRIES {
            match queue.try_shut(&mut seat, TURNS) {
                Err(Refusal::Busy) => backoff.snooze(),
                answer => return (answer, seat),
            }
        }
        let answer = queue.try_shut(&mut seat, TURNS);
        (answer, seat)
    }
}
