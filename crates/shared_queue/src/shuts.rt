//! Whether the queue was shut, which a push isn't told that gets no node, and who is told of a shut.
ghost use Rattle.std.specs.Prelude.{◌≡◌, IfErr, IfOk, IsSome};
ghost use Rattle.history.specs.Seats.{MayPush};
ghost use Rattle.carriers.specs.Answers.{PushRefusedOf, SeesMoreOf, EndsByTryOf};
ghost use Rattle.shared_queue.specs.Queues.{queue_of};
ghost use Rattle.shared_queue.specs.Tellings.{IfShut};
ghost use Rattle.shared_queue.specs.Unshuts.{seat_unshut};

use crate::bells::Bells;
use crate::queue::SharedQueue;
use calls::{Seen, Task};
use carriers::Carrier;
use history::Refusal;
use std::hint;
use std::snapshot::Snapshot;
use std::sync::Wait;
use std::sync::atomic::AtomicBool;
use std::sync::atomic::Ordering::SeqCst;

/// That no shut was known of, and what a seat was then. Only a look for one makes it.
#[derive(Drop)]
pub(crate) struct Unshut<S> {
    pub(crate) at: Snapshot<S>,
}

/// That the queue was marked as shut, and all were woken whose calls slept. Only its end makes it.
#[derive(Drop)]
pub(crate) struct Marked {}

impl<C: Carrier> SharedQueue<C> {
    // Looks for a shut, as the seat then is: `Closed` where there was one, by a shut that is refused so.
    pub(crate) fn look_for_shut<R: Wait>(
        &self,
        rt: &R,
        seat: &mut C::Seat,
    ) -> Result<Unshut<C::Seat>, Refusal>
        requires seat { C.is_seat (queue_of self.now) seat.old }
        requires role { MayPush (C.permits (queue_of self.now)) (C.known seat.old).number }
        ensures seat { C.is_seat (queue_of self.now) seat.new }
        ensures number { (C.known seat.new).number ≡ (C.known seat.old).number }
        ensures now { IfOk result (λ unshut. seat_unshut unshut ≡ seat.new) }
        ensures more { IfOk result (λ unshut. SeesMoreOf (C.known seat.old) (C.known seat.new)) }
        ensures refused { IfErr result
            (λ refusal. PushRefusedOf (C.known seat.old) refusal (C.known seat.new)) }
        ensures closed { IfErr result (λ refusal. refusal ≡ Refusal.Closed) }
        ensures caused { IfErr result (EndsByTryOf C.is_seat C.known C.push_cause (queue_of self.now)
            seat.old seat.new 8) }
    {
        if self.is_shut.load(SeqCst) {
            match self.queue.shut(rt, seat) {
                Err(Refusal::Closed) => return Err(Refusal::Closed),
                // Tail is worn out behind the shut.
                Err(_) => {}
                // Never, since it is shut; no clause tells.
                Ok(()) => wait_for_good(rt),
            }
        }
        Ok(Unshut {
            at: Snapshot::of(seat),
        })
    }
}

impl Bells {
    // Marks a queue as shut, and rings both bells for all.
    fn end(&self, mark: &AtomicBool) -> Marked {
        mark.store(true, SeqCst);
        self.tried(Task::Shut, Seen::Got);
        Marked {}
    }

    /// Marks the queue, and wakes all whose calls sleep, where this answer to a shut leaves it shut.
    pub(crate) fn tell_of_shut(
        &self,
        mark: &AtomicBool,
        answer: &Result<(), Refusal>,
    ) -> Option<Marked>
        ensures { IfShut answer.now (IsSome result) }
    {
        match answer {
            Ok(()) | Err(Refusal::Closed) => Some(self.end(mark)),
            _ => None,
        }
    }
}

// Never returns.
fn wait_for_good<R: Wait>(rt: &R)
    ensures { ⊥ }
{
    for _ in rt.forever() {
        hint::spin_loop();
    }
    unreachable!()
}
