//! A seat with its share, and the calls of its queue.
ghost use Rattle.std.specs.Prelude.{◌≡◌, ◌<◌, ◌≤◌, ◌↔◌, IsTrue, IfOk, IfErr, OnOk};
ghost use Rattle.history.specs.Seats.{MayPush, MayPop};
ghost use Rattle.history.specs.Answers.{StopsPush, StopsPop, StopsShut};
ghost use Rattle.carriers.specs.Answers.{PushedOf, PopAnswersOf, DidShutOf, PushRefusedOf, PopRefusedOf, MeetsOf};

use carriers::{Carrier, ItemOf, Unpushed};
use history::Refusal;
use std::alloc::Global;
use std::sync::Arc;

/// A seat of a queue of values, with a share of that queue. The queue lives as long as one of its shares, so such a seat needs no
/// borrow, and goes to any thread by itself. The share lies first in memory. Its type says that the seat is one of this
/// queue's, in no call, so that a lock, a channel or a message keeps this.
#[repr(C)]
#[derive(Drop)]
pub struct OwnedSeat<C: Carrier + Drop> {
    pub(crate) queue: Arc<C, Global>,
    pub(crate) seat: C::Seat,
    ghost sits: { ∥ C.is_seat queue.value seat ∥₁ },
}

impl<C: Carrier + Drop> OwnedSeat<C> {
    ghost use Rattle.owned.specs.Owned.{queue_of, seat_of};

    /// This seat, with this share of its queue. Takes no memory and doesn't wait.
    pub fn new(queue: Arc<C, Global>, seat: C::Seat) -> OwnedSeat<C>
        requires { C.is_seat queue.value seat }
        ensures queue { queue_of result ≡ queue.value }
        ensures seat { seat_of result ≡ seat }
    {
        OwnedSeat { queue, seat }
    }

    /// Pushes a value at the back, in so many turns at most, 1 or more. The seat may push.
    ///
    /// Refusals: as those of the queue's `try_push`, and the value comes back. Takes no memory and doesn't wait.
    pub fn try_push(&mut self, value: C::Item, turns: u32) -> Result<(), Unpushed<C::Item>>
        requires role { MayPush (C.permits (queue_of self.old))
            (C.known (seat_of self.old)).number }
        requires turns { 1 ≤ turns }
        //= library/owned (queue, number, pushed, back, refused, refusal, caused): A call by a seat with its share has the
        //=   clauses of `Carrier`'s own over what the seat knows, and keeps its queue. That the seat is the queue's is no
        //=   condition, but a fact of its type. What `ArenaQueue` says beyond these, of failed turns, pockets and kept
        //=   nodes, it doesn't.
        ensures queue { queue_of self.new ≡ queue_of self.old }
        ensures number { (C.known (seat_of self.new)).number ≡ (C.known (seat_of self.old)).number }
        ensures pushed { OnOk result
            (PushedOf (C.known (seat_of self.old)) value (C.known (seat_of self.new))) }
        ensures back { IfErr result (λ unpushed. unpushed.value ≡ value) }
        ensures refused { IfErr result
            (λ unpushed. PushRefusedOf (C.known (seat_of self.old)) unpushed.refusal
            (C.known (seat_of self.new))) }
        ensures refusal { IfErr result (λ unpushed. StopsPush unpushed.refusal) }
        ensures caused { IfErr result (λ unpushed. C.push_cause (queue_of self.old)
            (seat_of self.old) (seat_of self.new) turns unpushed.refusal) }
    {
        self.queue.try_push(&mut self.seat, value, turns)
    }

    /// Takes the value at the front, in so many turns at most, 1 or more; none where the queue was empty. The seat may
    /// pop.
    ///
    /// Refusals: as those of the queue's `try_pop`. Takes no memory and doesn't wait.
    pub fn try_pop(&mut self, turns: u32) -> Result<Option<ItemOf<C::Item>>, Refusal>
        requires role { MayPop (C.permits (queue_of self.old)) (C.known (seat_of self.old)).number }
        requires turns { 1 ≤ turns }
        //= library/owned (queue, number, answer, refused, refusal, caused)
        ensures queue { queue_of self.new ≡ queue_of self.old }
        ensures number { (C.known (seat_of self.new)).number ≡ (C.known (seat_of self.old)).number }
        ensures answer { IfOk result
            (λ front. PopAnswersOf (C.known (seat_of self.old)) front (C.known (seat_of self.new))) }
        ensures refused { IfErr result
            (λ refusal. PopRefusedOf (C.known (seat_of self.old)) refusal
            (C.known (seat_of self.new))) }
        ensures refusal { IfErr result StopsPop }
        ensures caused { IfErr result
            (C.pop_cause (queue_of self.old) (seat_of self.old) (seat_of self.new) turns) }
    {
        self.queue.try_pop(&mut self.seat, turns)
    }

    /// Shuts the queue, in so many turns at most, 1 or more: no push stands after it, and what is in the queue stays to
    /// be popped. The seat may push.
    ///
    /// Refusals: as those of the queue's `try_shut`. Takes no memory and doesn't wait.
    pub fn try_shut(&mut self, turns: u32) -> Result<(), Refusal>
        requires role { MayPush (C.permits (queue_of self.old))
            (C.known (seat_of self.old)).number }
        requires turns { 1 ≤ turns }
        //= library/owned (queue, number, shut, refused, refusal, caused)
        ensures queue { queue_of self.new ≡ queue_of self.old }
        ensures number { (C.known (seat_of self.new)).number ≡ (C.known (seat_of self.old)).number }
        ensures shut { OnOk result
            (DidShutOf (C.known (seat_of self.old)) (C.known (seat_of self.new))) }
        ensures refused { IfErr result
            (λ refusal. PushRefusedOf (C.known (seat_of self.old)) refusal
            (C.known (seat_of self.new))) }
        ensures refusal { IfErr result StopsShut }
        ensures caused { IfErr result
            (C.shut_cause (queue_of self.old) (seat_of self.old) (seat_of self.new) turns) }
    {
        self.queue.try_shut(&mut self.seat, turns)
    }

    /// Afterwards both seats, which are of one queue, have seen one history, which begins with what each had seen. Takes
    /// no memory and doesn't wait.
    pub fn meet(&mut self, other: &mut OwnedSeat<C>)
        requires { queue_of other.old ≡ queue_of self.old }
        //= library/owned (queue, other_queue, meets)
        ensures queue { queue_of self.new ≡ queue_of self.old }
        ensures other_queue { queue_of other.new ≡ queue_of other.old }
        ensures meets { MeetsOf (C.known (seat_of self.old)) (C.known (seat_of other.old))
            (C.known (seat_of self.new)) (C.known (seat_of other.new)) }
    {
        self.queue.meet(&mut self.seat, &mut other.seat)
    }

    /// Whether the seat may push. Takes no memory and doesn't wait.
    pub fn may_push(&self) -> bool
        //= library/owned
        ensures { IsTrue result ↔
            MayPush (C.permits (queue_of self.now)) (C.known (seat_of self.now)).number }
    {
        self.queue.may_push(&self.seat)
    }

    /// Whether the seat may pop. Takes no memory and doesn't wait.
    pub fn may_pop(&self) -> bool
        //= library/owned
        ensures { IsTrue result ↔
            MayPop (C.permits (queue_of self.now)) (C.known (seat_of self.now)).number }
    {
        self.queue.may_pop(&self.seat)
    }

    /// How many shares of the queue there are at one moment. Takes no memory and doesn't wait.
    pub fn shares(&self) -> usize
        ensures { 0 < result }
    {
        Arc::strong_count(&self.queue)
    }
}
