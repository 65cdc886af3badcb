//! A seat with its share of a queue whose calls are stepped.
ghost use Rattle.std.specs.Prelude.{◌≡◌};
ghost use Rattle.shared_queue.specs.Seats.{IsBoth};
ghost use Rattle.shared_queue.specs.Stepped.{stepped_queue};

use crate::at_once::Tried;
use crate::stepped::{Asked, SteppedQueue};
use calls::{Act, access, advance};
use carriers::Carrier;
use owned::Look;
use std::alloc::Global;
use std::sync::Arc;

/// How many accesses a step makes at most. Each call comes to something to do before that.
const ACCESSES: u32 = 16;

/// A seat that pushes and pops, with a share of its queue. Its type says that the seat is one of this queue's, in no call, and may do
/// both. The queue lives as long as one of its shares.
#[repr(C)]
#[derive(Drop)]
pub struct Share<C: Carrier + Drop> {
    queue: Arc<SteppedQueue<C>, Global>,
    seat: C::Seat,
    ghost sits: { ∥ IsBoth C.is_seat C.permits C.known (stepped_queue queue.value) seat ∥₁ },
}

impl<C: Carrier + Drop> Share<C> {
    ghost use Rattle.shared_queue.specs.Sharing.{stepped_at, share_queue, share_seat};

    // This seat, with this share of its queue.
    pub(crate) fn new(queue: Arc<SteppedQueue<C>, Global>, seat: C::Seat) -> Share<C>
        requires { IsBoth C.is_seat C.permits C.known (stepped_queue queue.value) seat }
        ensures queue { stepped_at result ≡ queue.value }
        ensures seat { share_seat result ≡ seat }
    {
        Share { queue, seat }
    }

    /// The queue.
    pub fn queue(&self) -> &SteppedQueue<C>
        ensures { result.now ≡ stepped_at self.now }
    {
        &self.queue
    }

    /// The share of the queue and the seat, apart: who gets the seats of all shares may end the queue by them, as
    /// `SteppedQueue::into_inner` gives it. Takes no memory and doesn't wait.
    ///
    /// ```rust
    /// let (queue, seat) = share.into_parts();
    /// if let Ok(queue) = Arc::try_unwrap(queue) {
    ///     let queue = queue.into_inner();
    /// }
    /// ```
    pub fn into_parts(self) -> (Arc<SteppedQueue<C>, Global>, C::Seat)
        //= calls/share_parts (queue, seat, sits): A share comes apart into a share of its queue and its seat, as they were;
        //=   the seat is that queue's, in no call, and may push and pop.
        ensures queue { result.0.value ≡ stepped_at self }
        ensures seat { result.1 ≡ share_seat self }
        ensures sits { IsBoth C.is_seat C.permits C.known (share_queue self) result.1 }
    {
        let Share { queue, seat } = self;
        (queue, seat)
    }

    /// Looks at the queue within, as `L` does by a seat of it.
    pub fn look<L: Look<C>>(&mut self) -> L::Told
        //= calls/share_looks (queue, number, told): A look by a share tells what that look at the queue tells the seat
        //=   itself, and keeps its queue.
        ensures queue { stepped_at self.new ≡ stepped_at self.old }
        ensures number { (C.known (share_seat self.new)).number
            ≡ (C.known (share_seat self.old)).number }
        ensures told { L.tells (share_queue self.old) (share_seat self.old) result
            (share_seat self.new) }
    {
        L::look(self.queue.queue(), &mut self.seat)
    }
}

impl<T: Drop, C: Carrier<Item = T> + Drop> Share<C> {
    ghost use Rattle.calls.specs.declared.calls.Task.TheVariants.{Push, Pop};
    ghost use Rattle.shared_queue.specs.Sharing.{stepped_at, share_seat};
    ghost use Rattle.shared_queue.specs.Steps.{Steps};
    ghost use Rattle.shared_queue.specs.TriedCalls.{ComesTo};

    /// Steps a call until there is something to do before its next step. `past` is whether its time is.
    pub fn step(&mut self, asked: &mut Asked<T>, past: bool) -> Act
        //= calls/share_step (queue, number, steps): Each access of a step did to the seat, and to the call's value, what the
        //=   queue's own calls say, and the call then stands where the machine puts it, until there is something to do. A pop
        //=   is told of an end only where it found the queue empty, or a word is worn out. The share keeps its queue.
        ensures queue { stepped_at self.new ≡ stepped_at self.old }
        ensures number { (C.known (share_seat self.new)).number
            ≡ (C.known (share_seat self.old)).number }
        ensures steps { Steps past asked.old (C.known (share_seat self.old)) result asked.new
            (C.known (share_seat self.new)) }
    {
        for _ in 0..ACCESSES {
            let due = access(&asked.call);
            let seen = self.queue.make(&mut self.seat, asked, due);
            match advance(&mut asked.call, seen, past) {
                Act::GoOn => {}
                act => return act,
            }
        }
        Act::Yield
    }

    /// Pushes the value that is given, as a call that never waits does: in one piece. A value that is pushed is taken from where it
    /// lies, and else it stays there. No call is kept; `Tried::call` makes the one that goes on. Takes no memory and doesn't wait.
    ///
    /// ```rust
    /// match share.try_push(&mut text) {
    ///     Tried::Told(code) => told(code),
    ///     Tried::Wakes(bell) => wake_one(share.queue().rings(bell)),
    ///     rest => finish(&mut share, rest.call(Task::Push), &mut text),
    /// }
    /// ```
    pub fn try_push(&mut self, value: &mut Option<T>) -> Tried
        //= calls/share_tries (queue, number, comes): A call in one piece came to what accesses of the machine's call lead to,
        //=   one after another, with its value where it was given: its answer; one to wake, behind which it is done; or a
        //=   point from where it is stepped on.
        ensures queue { stepped_at self.new ≡ stepped_at self.old }
        ensures number { (C.known (share_seat self.new)).number
            ≡ (C.known (share_seat self.old)).number }
        ensures comes { ComesTo Push value.old (C.known (share_seat self.old)) result value.new
            (C.known (share_seat self.new)) }
    {
        self.queue.try_push(&mut self.seat, value)
    }

    /// Pops a value, as a call that never waits does: in one piece. What is popped lies where it was asked for, and else what lay
    /// there stays. No call is kept; `Tried::call` makes the one that goes on. Takes no memory and doesn't wait.
    ///
    /// ```rust
    /// let mut text = None;
    /// if let Tried::Told(Code::Done) = share.try_pop(&mut text) {
    ///     return text;
    /// }
    /// ```
    pub fn try_pop(&mut self, value: &mut Option<T>) -> Tried
        //= calls/share_tries (queue, number, comes)
        ensures queue { stepped_at self.new ≡ stepped_at self.old }
        ensures number { (C.known (share_seat self.new)).number
            ≡ (C.known (share_seat self.old)).number }
        ensures comes { ComesTo Pop value.old (C.known (share_seat self.old)) result value.new
            (C.known (share_seat self.new)) }
    {
        self.queue.try_pop(&mut self.seat, value)
    }
}
