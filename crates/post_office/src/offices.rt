//! The office, over a queue that is there.
ghost use Rattle.std.specs.Prelude.{◌≡◌, map, IfErr, IfOk, OnOk};
ghost use Rattle.history.specs.Answers.{EndsShut};
ghost use Rattle.carriers.specs.Answers.{DidShutOf, PushRefusedOf, EndsByTryOf};
ghost use Rattle.shared_queue.specs.Queues.{queue_of};
ghost use Rattle.shared_queue.specs.Seats.{IsGiver};
ghost use Rattle.shared_queue.specs.Handles.{sender_seat, receiver_seat};
ghost use Rattle.post_office.specs.Desks.{AreDesks};

use carriers::Carrier;
use history::Refusal;
use shared_queue::{Receiver, Sender, SharedQueue, receivers, senders};
use std::alloc::Global;
use std::sync::{Arc, Wait};

/// The seats of a queue that an office takes: one for each sender and each receiver, one by which the office shuts the queue,
/// and one by which each side does as its last handle is dropped.
#[derive(Drop)]
pub struct Desks<S> {
    pub senders: Vec<S>,
    pub receivers: Vec<S>,
    pub office: S,
    pub last_sender: S,
    pub last_receiver: S,
}

/// An office: a share of a queue of letters, whose calls sleep, and a seat of it that shuts. Its type says that this seat is
/// the queue's, in no call, and that it may push.
#[derive(Drop)]
pub struct PostOffice<C: Carrier + Drop> {
    pub(crate) queue: Arc<SharedQueue<C>, Global>,
    pub(crate) seat: C::Seat,
    ghost sits: { ∥ IsGiver C.is_seat C.permits C.known (queue_of queue.value) seat ∥₁ },
}

impl<C: Carrier + Drop> PostOffice<C> {
    ghost use Rattle.post_office.specs.Offices.{office_queue, office_seat, AreOf};

    /// An office over this queue, with a sender and a receiver for each of these seats, in their order.
    ///
    /// Refused by `Memory` alone; queue and seats are then given up. Takes memory for the shares and the lists, and doesn't wait.
    pub fn new(
        alloc: Global,
        queue: C,
        desks: Desks<C::Seat>,
    ) -> Result<(PostOffice<C>, Vec<Sender<C>>, Vec<Receiver<C>>), Refusal>
        requires { AreDesks C.is_seat C.permits C.known queue desks }
        //= offices/new (queue, senders, receivers, only_memory): A new office, its senders and its receivers are of the queue
        //=   given, one for each seat, in their order. Or Memory.
        ensures queue { IfOk result (λ r. AreOf queue r.0 r.1.items r.2.items) }
        ensures senders { IfOk result (λ r. map sender_seat r.1.items ≡ desks.senders.items) }
        ensures receivers { IfOk result
            (λ r. map receiver_seat r.2.items ≡ desks.receivers.items) }
        ensures only_memory { IfErr result (λ refusal. refusal ≡ Refusal.Memory) }
    {
        let Desks {
            senders: givers,
            receivers: takers,
            office,
            last_sender,
            last_receiver,
        } = desks;
        let Ok(queue) = Arc::new(alloc, SharedQueue::new(queue)) else {
            return Err(Refusal::Memory);
        };
        let givers = senders(alloc, &queue, last_sender, givers)?;
        let takers = receivers(alloc, &queue, last_receiver, takers)?;
        let office = PostOffice {
            queue,
            seat: office,
        };
        Ok((office, givers, takers))
    }

    /// Shuts the office, and wakes all who sleep: no letter is accepted any more, those accepted are still received, and then
    /// each receiver is told the end.
    ///
    /// Refusals: `WornOut`, and `Closed` where it was shut before. Takes no memory, and waits.
    ///
    /// ```rust
    /// office.shut(rt)?;
    /// ```
    pub fn shut<R: Wait>(&mut self, rt: &R) -> Result<(), Refusal>
        //= offices/shut (queue, number, shut, refused, refusal, caused): A shut of an office has the clauses of the queue's own
        //=   over what the office's seat knows, asks for nothing, and keeps its queue.
        ensures queue { office_queue self.new ≡ office_queue self.old }
        ensures number { (C.known (office_seat self.new)).number
            ≡ (C.known (office_seat self.old)).number }
        ensures shut { OnOk result
            (DidShutOf (C.known (office_seat self.old)) (C.known (office_seat self.new))) }
        ensures refused { IfErr result
            (λ refusal. PushRefusedOf (C.known (office_seat self.old)) refusal
            (C.known (office_seat self.new))) }
        ensures refusal { IfErr result EndsShut }
        ensures caused { IfErr result (EndsByTryOf C.is_seat C.known C.shut_cause
            (office_queue self.old) (office_seat self.old) (office_seat self.new) 8) }
    {
        self.queue.shut(rt, &mut self.seat)
    }
}
