//! A seat of a queue of any kind, with its share, and its calls with plain numbers.
ghost use Rattle.std.specs.Prelude.{◌≡◌, IfOk, IfErr, OnOk, MatchBool};
ghost use Rattle.history.specs.Answers.{Pushed, PopAnswers, DidShut, Meets};
ghost use Rattle.msq_c.specs.Queues.{IsEnough};
ghost use Rattle.msq_c.specs.Ends.{HasRest, HasAnyRoom, IsRoomless};

use crate::troubles::Trouble;
use carriers::Numbers;
use history::{Body, Refusal, Taken};
use node_arena::Seat;
use owned::{Act, Look, OwnedSeat};
use picked::{EitherQueue, EitherRoom, EitherSeat, PickedQueue};
use ring_queue::{RingQueue, Seat as RingSeat};
use std::alloc::Global;

/// A queue of any kind: of nodes, or a ring.
pub type Queue = EitherQueue<PickedQueue, RingQueue>;

/// A seat of one.
pub type QueueSeat = EitherSeat<Seat, RingSeat>;

/// Memory for what is left of a queue as it is ended, and for its seats as those of its kind.
pub(crate) type RestRoom = EitherRoom<Vec<Taken>, Seat, Vec<Taken>, RingSeat>;

/// Memory for the end of a queue: for what is left and its seats as those of its kind, and for its seats without their shares.
#[derive(Drop)]
pub struct EndRoom {
    pub(crate) rest: RestRoom,
    pub(crate) seats: Vec<QueueSeat>,
}

// Whether so many seats are enough for an end of the queue.
fn are_enough(queue: &Queue, count: usize) -> bool
    ensures { MatchBool result (IsEnough queue.now count) (¬ IsEnough queue.now count) }
{
    match queue {
        EitherQueue::First(_) => true,
        EitherQueue::Second(ring) => count == ring.seat_count(),
    }
}

/// Room for what is left at an end of a queue by so many seats, where they are enough.
pub(crate) fn rest_room(alloc: Global, queue: &Queue, count: usize) -> Result<RestRoom, Trouble>
    ensures room { IfOk result (HasRest queue.now count) }
    ensures refused { IfErr result IsRoomless }
{
    if !are_enough(queue, count) {
        return Err(Trouble::InUse);
    }
    match queue.room(alloc, count) {
        Ok(rest) => Ok(rest),
        Err(refusal) => Err(Trouble::Refused(refusal)),
    }
}

/// Room for the end of a queue by so many seats, where they are enough.
fn room_for_end(alloc: Global, queue: &Queue, count: usize) -> Result<EndRoom, Trouble>
    ensures room { IfOk result (HasAnyRoom queue.now count) }
    ensures refused { IfErr result IsRoomless }
{
    let rest = rest_room(alloc, queue, count)?;
    match Vec::with_capacity(alloc, count) {
        Ok(seats) => Ok(EndRoom { rest, seats }),
        Err(_) => Err(Trouble::Refused(Refusal::Memory)),
    }
}

/// How many words keep two seats apart whose blocks lie next to each other: each call writes its seat, and no two may be on
/// one line of the cache, or on two that are fetched together.
pub(crate) const APART: usize = 16;

/// A seat of a queue of any kind, with its share of the queue, which lies first: include/msq.h compares these. A seat of a ring
/// has room for what it pops at one step, so that no pop takes memory.
#[repr(C)]
#[derive(Drop)]
pub struct SeatBlock {
    pub(crate) owned: OwnedSeat<Numbers<Queue>>,
    pub(crate) room: Vec<Taken>,
    apart: [u64; APART],
}

impl SeatBlock {
    ghost use Rattle.msq_c.specs.Blocks.{numbers_in, queue_in, seat_in, known_in, owned_in};
    ghost use Rattle.msq_c.specs.Blocks.{RefusesPush, RefusesPop, RefusesShut};
    ghost use Rattle.msq_c.specs.Queues.{IsRing};

    pub(crate) fn new(owned: OwnedSeat<Numbers<Queue>>, room: Vec<Taken>) -> SeatBlock
        ensures { owned_in result ≡ owned }
    {
        SeatBlock {
            owned,
            room,
            apart: [0; APART],
        }
    }

    pub(crate) fn into_owned(self) -> OwnedSeat<Numbers<Queue>>
        ensures { result ≡ owned_in self }
    {
        let SeatBlock {
            owned,
            room: _,
            apart: _,
        } = self;
        owned
    }

    /// Whether the queue is a ring.
    pub(crate) fn is_ring(&self) -> bool
        ensures { MatchBool result (IsRing (queue_in self.now)) (¬ IsRing (queue_in self.now)) }
    {
        match self.owned.queue().queue() {
            EitherQueue::First(_) => false,
            EitherQueue::Second(_) => true,
        }
    }

    pub(crate) fn try_push(&mut self, number: u64, turns: u32) -> Result<(), Trouble>
        ensures queue { queue_in self.new ≡ queue_in self.old }
        ensures pushed { OnOk result (Pushed (known_in self.old) number (known_in self.new)) }
        ensures refused { IfErr result (RefusesPush self.old self.new number turns) }
    {
        let Some(body) = Body::new(number) else {
            return Err(Trouble::BadSize);
        };
        if turns == 0 {
            return Err(Trouble::BadSize);
        }
        if !self.owned.may_push() {
            return Err(Trouble::NoRole);
        }
        match self.owned.try_push(body, turns) {
            Ok(()) => Ok(()),
            Err(unpushed) => Err(Trouble::Refused(unpushed.refusal)),
        }
    }

    pub(crate) fn try_pop(&mut self, turns: u32) -> Result<Option<Taken>, Trouble>
        ensures queue { queue_in self.new ≡ queue_in self.old }
        ensures answer { IfOk result
            (λ taken. PopAnswers (known_in self.old) taken (known_in self.new)) }
        ensures refused { IfErr result (RefusesPop self.old self.new turns) }
    {
        if turns == 0 {
            return Err(Trouble::BadSize);
        }
        if !self.owned.may_pop() {
            return Err(Trouble::NoRole);
        }
        match self.owned.try_pop(turns) {
            Ok(Some(front)) => Ok(Some(front.into_taken())),
            Ok(None) => Ok(None),
            Err(refusal) => Err(Trouble::Refused(refusal)),
        }
    }

    pub(crate) fn try_shut(&mut self, turns: u32) -> Result<(), Trouble>
        ensures queue { queue_in self.new ≡ queue_in self.old }
        ensures shut { OnOk result (DidShut (known_in self.old) (known_in self.new)) }
        ensures refused { IfErr result (RefusesShut self.old self.new turns) }
    {
        if turns == 0 {
            return Err(Trouble::BadSize);
        }
        if !self.owned.may_push() {
            return Err(Trouble::NoRole);
        }
        match self.owned.try_shut(turns) {
            Ok(()) => Ok(()),
            Err(refusal) => Err(Trouble::Refused(refusal)),
        }
    }

    pub(crate) fn meet(&mut self, other: &mut SeatBlock)
        requires { queue_in other.old ≡ queue_in self.old }
        ensures queue { queue_in self.new ≡ queue_in self.old }
        ensures other_queue { queue_in other.new ≡ queue_in other.old }
        ensures meets { Meets (known_in self.old) (known_in other.old)
            (known_in self.new) (known_in other.new) }
    {
        self.owned.meet(&mut other.owned)
    }

    pub(crate) fn look<L: Look<Numbers<Queue>>>(&mut self) -> L::Told
        ensures queue { queue_in self.new ≡ queue_in self.old }
        ensures told { L.tells (numbers_in self.old) (seat_in self.old) result (seat_in self.new) }
    {
        self.owned.look::<L>()
    }

    pub(crate) fn act<A: Act<Numbers<Queue>>>(&mut self, act: A) -> A::Told
        requires { A.asks act (numbers_in self.old) (seat_in self.old) }
        ensures queue { queue_in self.new ≡ queue_in self.old }
        ensures told { A.tells act (numbers_in self.old) (seat_in self.old) result (seat_in self.new) }
    {
        self.owned.act(act)
    }

    /// Room for the end of the queue by so many seats, where there are no further shares of it, and they are enough.
    pub(crate) fn room(&self, alloc: Global, count: usize) -> Result<EndRoom, Trouble>
        ensures room { IfOk result (HasAnyRoom (queue_in self.now) count) }
        ensures refused { IfErr result IsRoomless }
    {
        if self.owned.shares() != count {
            return Err(Trouble::InUse);
        }
        room_for_end(alloc, self.owned.queue().queue(), count)
    }
}
