//! A seat that was leased, and the calls of its queue.
ghost use Rattle.std.specs.Prelude.{◌≡◌, ◌<◌, ◌≤◌, [], ◌∷◌, None, IsTrue, IfOk, IfErr, IfSome, OnOk};
ghost use Rattle.history.specs.Answers.{StopsPush, StopsPop, StopsShut, EndsPush, EndsPop, EndsShut};
ghost use Rattle.carriers.specs.Answers.{PushedOf, PopAnswersOf, DidShutOf};
ghost use Rattle.carriers.specs.Answers.{PushRefusedOf, PopRefusedOf, MeetsOf, EndsByTryOf};
ghost use Rattle.seat_pool.specs.Parts as parts;
ghost use Rattle.seat_pool.specs.Places.{Belongs};

use crate::parts::Part;
use crate::places::{Give, Home, Token};
use crate::pools::Store;
use carriers::{Carrier, ItemOf, Unpushed};
use history::Refusal;
use std::alloc::Global;
use std::snapshot::Snapshot;
use std::sync::{Arc, Wait};

/// A seat out of its place, with the token that keeps the place.
#[derive(Drop)]
pub struct Held<C: Carrier + Drop> {
    pub(crate) home: Snapshot<Home<C>>,
    pub(crate) token: Token<C>,
    pub(crate) seat: C::Seat,
    pub(crate) place: usize,
    pub(crate) part: Part,
    ghost taken: { token.me ≡ (home.value, (place, None) ∷ []) },
    ghost belongs: { ∥ Belongs C.is_seat C.permits C.known home.value place part seat ∥₁ },
}

/// A seat that this lease alone has. A drop gives it back to its pool, with what it has seen, and another thread may lease it.
pub struct Lease<C: Carrier + Drop> {
    pub(crate) pool: Arc<Store<C>, Global>,
    pub(crate) held: Held<C>,
    ghost home: { held.home.value ≡ pool.value.home },
    ghost here: { held.place < pool.value.table.shared.table_id.words },
    ghost table: { held.token.table_id ≡ pool.value.table.shared.table_id },
}

impl<C: Carrier + Drop> Held<C> {
    pub(crate) fn into_seat(self) -> C::Seat
        ensures { result ≡ self.seat }
    {
        let Held {
            home: _,
            token: _,
            seat,
            place: _,
            part: _,
        } = self;
        seat
    }
}

impl<C: Carrier + Drop> Lease<C> {
    ghost use Rattle.seat_pool.specs.Leases.{pool_of, part_of, queue_of, seat_of, IsAble, IsSameLease};

    /// Pushes a value at the back, in so many turns at most, 1 or more. The seat may push.
    ///
    /// Refusals: as those of the queue's `try_push`; the value comes back. Takes no memory and doesn't wait.
    #[inline(always)]
    pub fn try_push(&mut self, value: C::Item, turns: u32) -> Result<(), Unpushed<C::Item>>
        requires part { IsTrue (parts.pushes (part_of self.old)) }
        requires turns { 1 ≤ turns }
        //= leases/calls (same, number, pushed, back, refused, refusal, caused): A call by a lease has the clauses of `Carrier`'s own
        //=   over what the seat knows, and stays the lease of this seat.
        ensures same { IsSameLease self.old self.new }
        ensures number { (C.known (seat_of self.new)).number ≡ (C.known (seat_of self.old)).number }
        ensures pushed { OnOk result
            (PushedOf (C.known (seat_of self.old)) value (C.known (seat_of self.new))) }
        ensures back { IfErr result (λ unpushed. unpushed.value ≡ value) }
        ensures refused { IfErr result
            (λ unpushed. PushRefusedOf (C.known (seat_of self.old)) unpushed.refusal
            (C.known (seat_of self.new))) }
        ensures refusal { IfErr result (λ unpushed. StopsPush unpushed.refusal) }
        ensures caused { IfErr result (λ unpushed. C.push_cause (queue_of self.old)
            (seat_of self.old) (seat_of self.new) turns unpushed.refusal) }
    {
        self.pool
            .home
            .queue
            .try_push(&mut self.held.seat, value, turns)
    }

    /// Takes the value at the front, in so many turns at most, 1 or more; none where the queue was empty. The seat may
    /// pop.
    ///
    /// Refusals: as those of the queue's `try_pop`. Takes no memory and doesn't wait.
    #[inline(always)]
    pub fn try_pop(&mut self, turns: u32) -> Result<Option<ItemOf<C::Item>>, Refusal>
        requires part { IsTrue (parts.pops (part_of self.old)) }
        requires turns { 1 ≤ turns }
        //= leases/calls (same, number, answer, refused, refusal, caused)
        ensures same { IsSameLease self.old self.new }
        ensures number { (C.known (seat_of self.new)).number ≡ (C.known (seat_of self.old)).number }
        ensures answer { IfOk result
            (λ front. PopAnswersOf (C.known (seat_of self.old)) front (C.known (seat_of self.new))) }
        ensures refused { IfErr result
            (λ refusal. PopRefusedOf (C.known (seat_of self.old)) refusal
            (C.known (seat_of self.new))) }
        ensures refusal { IfErr result StopsPop }
        ensures caused { IfErr result
            (C.pop_cause (queue_of self.old) (seat_of self.old) (seat_of self.new) turns) }
    {
        self.pool.home.queue.try_pop(&mut self.held.seat, turns)
    }

    /// Shuts the queue, in so many turns at most, 1 or more: no push stands after it, and what is in the queue stays to
    /// be popped. The seat may push.
    ///
    /// Refusals: as those of the queue's `try_shut`. Takes no memory and doesn't wait.
    pub fn try_shut(&mut self, turns: u32) -> Result<(), Refusal>
        requires part { IsTrue (parts.pushes (part_of self.old)) }
        requires turns { 1 ≤ turns }
        //= leases/calls (same, number, shut, refused, refusal, caused)
        ensures same { IsSameLease self.old self.new }
        ensures number { (C.known (seat_of self.new)).number ≡ (C.known (seat_of self.old)).number }
        ensures shut { OnOk result
            (DidShutOf (C.known (seat_of self.old)) (C.known (seat_of self.new))) }
        ensures refused { IfErr result
            (λ refusal. PushRefusedOf (C.known (seat_of self.old)) refusal
            (C.known (seat_of self.new))) }
        ensures refusal { IfErr result StopsShut }
        ensures caused { IfErr result
            (C.shut_cause (queue_of self.old) (seat_of self.old) (seat_of self.new) turns) }
    {
        self.pool.home.queue.try_shut(&mut self.held.seat, turns)
    }

    /// Pushes a value at the back, by tries of 8 turns each, and tries again while others are in the way. The seat may push.
    ///
    /// Refusals: as those of the queue's `push`; the value comes back. Takes no memory, and waits.
    pub fn push<R: Wait>(&mut self, rt: &R, value: C::Item) -> Result<(), Unpushed<C::Item>>
        requires part { IsTrue (parts.pushes (part_of self.old)) }
        //= leases/calls (same, number, pushed, back, refused, refusal, caused)
        ensures same { IsSameLease self.old self.new }
        ensures number { (C.known (seat_of self.new)).number ≡ (C.known (seat_of self.old)).number }
        ensures pushed { OnOk result
            (PushedOf (C.known (seat_of self.old)) value (C.known (seat_of self.new))) }
        ensures back { IfErr result (λ unpushed. unpushed.value ≡ value) }
        ensures refused { IfErr result
            (λ unpushed. PushRefusedOf (C.known (seat_of self.old)) unpushed.refusal
            (C.known (seat_of self.new))) }
        ensures refusal { IfErr result (λ unpushed. EndsPush unpushed.refusal) }
        ensures caused { IfErr result (λ unpushed. EndsByTryOf C.is_seat C.known C.push_cause
            (queue_of self.old) (seat_of self.old) (seat_of self.new) 8 unpushed.refusal) }
    {
        self.pool.home.queue.push(rt, &mut self.held.seat, value)
    }

    /// Takes the value at the front, by tries of 8 turns each, and tries again while others are in the way; none where the
    /// queue was empty. The seat may pop.
    ///
    /// Refusals: as those of the queue's `pop`. Takes no memory, and waits.
    pub fn pop<R: Wait>(&mut self, rt: &R) -> Result<Option<ItemOf<C::Item>>, Refusal>
        requires part { IsTrue (parts.pops (part_of self.old)) }
        //= leases/calls (same, number, answer, refused, refusal, caused)
        ensures same { IsSameLease self.old self.new }
        ensures number { (C.known (seat_of self.new)).number ≡ (C.known (seat_of self.old)).number }
        ensures answer { IfOk result
            (λ front. PopAnswersOf (C.known (seat_of self.old)) front (C.known (seat_of self.new))) }
        ensures refused { IfErr result
            (λ refusal. PopRefusedOf (C.known (seat_of self.old)) refusal
            (C.known (seat_of self.new))) }
        ensures refusal { IfErr result EndsPop }
        ensures caused { IfErr result (EndsByTryOf C.is_seat C.known C.pop_cause (queue_of self.old)
            (seat_of self.old) (seat_of self.new) 8) }
    {
        self.pool.home.queue.pop(rt, &mut self.held.seat)
    }

    /// Shuts the queue, by tries of 8 turns each, and tries again while others are in the way: no push stands after it, and
    /// what is in the queue stays to be popped. The seat may push.
    ///
    /// Refusals: as those of the queue's `shut`. Takes no memory, and waits.
    pub fn shut<R: Wait>(&mut self, rt: &R) -> Result<(), Refusal>
        requires part { IsTrue (parts.pushes (part_of self.old)) }
        //= leases/calls (same, number, shut, refused, refusal, caused)
        ensures same { IsSameLease self.old self.new }
        ensures number { (C.known (seat_of self.new)).number ≡ (C.known (seat_of self.old)).number }
        ensures shut { OnOk result
            (DidShutOf (C.known (seat_of self.old)) (C.known (seat_of self.new))) }
        ensures refused { IfErr result
            (λ refusal. PushRefusedOf (C.known (seat_of self.old)) refusal
            (C.known (seat_of self.new))) }
        ensures refusal { IfErr result EndsShut }
        ensures caused { IfErr result (EndsByTryOf C.is_seat C.known C.shut_cause (queue_of self.old)
            (seat_of self.old) (seat_of self.new) 8) }
    {
        self.pool.home.queue.shut(rt, &mut self.held.seat)
    }

    /// Afterwards the seats of both leases, which are of one pool, have seen one history, which begins with what each had
    /// seen. Takes no memory and doesn't wait.
    pub fn meet(&mut self, other: &mut Lease<C>)
        requires { pool_of other.old ≡ pool_of self.old }
        //= leases/meet (same, other_same, meets): Two leases of one pool that met have seen one history, as two seats of its
        //=   queue; each stays the lease of its seat.
        ensures same { IsSameLease self.old self.new }
        ensures other_same { IsSameLease other.old other.new }
        ensures meets { MeetsOf (C.known (seat_of self.old)) (C.known (seat_of other.old))
            (C.known (seat_of self.new)) (C.known (seat_of other.new)) }
    {
        let queue = &self.pool.home.queue;
        queue.meet(&mut self.held.seat, &mut other.held.seat);
    }

    /// One more lease of this pool, by a seat that may do the same. None where each such seat was found leased.
    ///
    /// Takes no memory and doesn't wait.
    pub fn try_clone(&self) -> Option<Lease<C>>
        //= leases/lease (pool, part, able): A lease is of the pool that gave it, and its seat has the part asked for, so it may push,
        //=   and may pop, just as that part says. That nobody else has the seat is a fact of its type; when there is none to give, no
        //=   clause says.
        ensures pool { IfSome result (λ lease. pool_of lease ≡ pool_of self.now) }
        ensures part { IfSome result (λ lease. part_of lease ≡ part_of self.now) }
        ensures able { IfSome result (IsAble C.permits C.known) }
    {
        let Ok(pool) = Arc::try_clone(&self.pool) else {
            return None;
        };
        let held = pool.find(self.held.part)?;
        Some(Lease { pool, held })
    }

    /// What the seat may do. Takes no memory and doesn't wait.
    pub fn part(&self) -> Part
        ensures { result ≡ part_of self.now }
    {
        self.held.part
    }
}

impl<C: Carrier + Drop> Drop for Lease<C> {
    fn drop(self) {
        let Self { pool, held } = self;
        let Held {
            home: _,
            mut token,
            seat,
            place,
            part,
        } = held;
        let shared = &pool.table.shared;
        drop(shared.exchange(&mut token, place, Some(seat)));
        shared.store::<Give>(&mut token, place, part.number());
    }
}
