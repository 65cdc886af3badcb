//! A queue with no room: each push and each shut is refused, and each pop finds it empty, until its notes can't be counted.
ghost use Rattle.std.specs.Prelude.{◌≡◌, IfOk, IfErr, IsTrue};

use crate::planned::Plan;
use carriers::{Bodies, Carrier, ItemOf, Unpushed};
use history::{Body, Refusal, WornWord};
use std::marker::PhantomData;

/// A queue with no room for values of this type, which may be any. Others are in the way of a push where its plan says so; no
/// other call is put to the plan.
#[derive(Drop)]
pub struct FullQueue<T, P: Drop> {
    plan: P,
    of: PhantomData<T>,
}

/// The one seat of a queue with no room. It may push and pop.
#[derive(Drop)]
pub struct FullSeat {
    empties: u64,
}

/// The plan of a queue that is in nobody's way.
#[derive(Drop)]
pub struct NeverBusy;

impl Plan for NeverBusy {
    fn push_refusal(&self, _turns: u32) -> Option<Refusal> {
        None
    }

    fn pop_refusal(&self, _turns: u32) -> Option<Refusal> {
        None
    }

    fn finds_empty(&self) {}
}

impl<T, P: Plan + Drop> FullQueue<T, P> {
    ghost use Rattle.mock_queues.specs.Full.{IsFullSeat};

    /// A queue with no room, whose pushes go by this plan, with its seat. Takes no memory.
    pub fn new(plan: P) -> (FullQueue<T, P>, FullSeat)
        ensures { IsFullSeat result.0 result.1 }
    {
        (
            FullQueue {
                plan,
                of: PhantomData,
            },
            FullSeat { empties: 0 },
        )
    }
}

/// A queue of numbers with no room, with its seat. Takes no memory.
pub fn full_of_numbers() -> (Bodies<FullQueue<Body, NeverBusy>>, FullSeat) {
    let (queue, seat) = FullQueue::new(NeverBusy);
    (Bodies::new(queue), seat)
}

impl<T, P: Plan + Drop> Carrier for FullQueue<T, P> {
    ghost use Rattle.std.specs.Coded.{Unit-prop};
    ghost use Rattle.history.specs.declared.refusals.Refusal.TheVariants.{WornOut, Busy};
    ghost use Rattle.history.specs.declared.refusals.WornWord.TheVariants.{Tail};
    ghost use Rattle.mock_queues.specs.Full.{one_permit, IsFullSeat, IsFullOrBusy, knows_empties, empties_are_sound, closed_never};

    type Item = T;

    type Seat = FullSeat;

    ghost is_seat = { IsFullSeat };

    ghost permits = { λ _. one_permit };

    ghost known = { knows_empties };

    ghost push_cause = { λ _ _ _ _ refusal. IsFullOrBusy refusal };

    ghost pop_cause = { λ _ _ _ _ refusal. refusal ≡ Busy };

    ghost shut_cause = { λ _ _ _ _ refusal. refusal ≡ WornOut Tail };

    ghost sound = { λ _ seat _. empties_are_sound seat };

    ghost closed_alike = { λ _ _ _ _. closed_never };

    ghost seat_prop = { λ _ _. Unit-prop };

    fn try_push(&self, _seat: &mut FullSeat, value: T, turns: u32) -> Result<(), Unpushed<T>> {
        let refusal = match self.plan.push_refusal(turns) {
            Some(Refusal::Busy) => Refusal::Busy,
            _ => Refusal::NoNode,
        };
        Err(Unpushed { refusal, value })
    }

    fn try_pop(&self, seat: &mut FullSeat, _turns: u32) -> Result<Option<ItemOf<T>>, Refusal> {
        if seat.empties == u64::MAX {
            return Err(Refusal::Busy);
        }
        seat.empties += 1;
        Ok(None)
    }

    fn try_shut(&self, _seat: &mut FullSeat, _turns: u32) -> Result<(), Refusal> {
        Err(Refusal::WornOut(WornWord::Tail))
    }

    fn meet(&self, _one: &mut FullSeat, _other: &mut FullSeat) {}

    fn may_push(&self, _seat: &FullSeat) -> bool {
        true
    }

    fn may_pop(&self, _seat: &FullSeat) -> bool {
        true
    }
}
