//! The slots of a ring that carries values: the number that a push puts into it is that of the slot in which its value lies.
ghost use Rattle.std.specs.Prelude.{[], ◌≡◌, ◌+◌, ◌*◌, ◌<◌, true, false, Some, None, IfOk, IfErr};
ghost use Rattle.ring_queue.specs.Plans.{words_of};
ghost use Rattle.ring_queue.specs.Seats.{IsReady, HasNoSlot};
ghost use Rattle.ring_queue.specs.Queues.{IsRingSeat};
ghost use Rattle.ring_queue.specs.Hands.{HasSlot, HasValue, KeepsKnown, IsMissed, AllTaken, FailedTries, HasTried, TriedSome, GotAt, hitting};

use crate::places::SLOTS;
use crate::queue::RingQueue;
use crate::seats::Seat;
use history::Refusal;
use std::marker::Brand;

/// A slot that was got, and how many tries at other ones failed before.
#[derive(Clone, Copy, Debug, PartialEq, Eq)]
pub struct Got {
    pub slot: usize,
    pub failed: u32,
}

impl<T> RingQueue<T> {
    // Where the flag of a slot lies in the table.
    fn flag(&self, slot: usize) -> usize
        requires { slot < self.now.plan.slots }
        ensures { result ≡ words_of self.now.plan + slot }
    {
        SLOTS + 2 * self.plan.slots as usize + slot
    }

    // Gets a slot whose flag is down, by one compare-exchange of it.
    fn try_slot(&self, seat: &mut Seat<T>, slot: usize) -> bool
        requires ready { IsReady self.now.plan self.now.table.shared.table_id seat.old }
        requires carries { self.now.plan.carries ≡ true }
        requires none { HasNoSlot seat.old }
        requires slot { slot < self.now.plan.slots }
        ensures ready { IsReady self.now.plan self.now.table.shared.table_id seat.new }
        ensures keeps { KeepsKnown seat.old seat.new }
        ensures got { result ≡ true →
            HasSlot self.now.plan seat.new slot None × GotAt seat.old seat.new slot }
        ensures missed { result ≡ false → IsMissed self.now.plan seat.old seat.new slot }
    {
        let flag = self.flag(slot);
        self.table
            .shared
            .compare_exchange::<Brand>(&mut seat.token, flag, 0, 1)
            == 0
    }

    // Gets a slot from this one on, in so many tries.
    fn find_slot(&self, seat: &mut Seat<T>, first: usize, turns: u32) -> Result<Got, Refusal>
        requires ready { IsReady self.now.plan self.now.table.shared.table_id seat.old }
        requires carries { self.now.plan.carries ≡ true }
        requires none { HasNoSlot seat.old }
        requires first { first < self.now.plan.slots }
        ensures ready { IsReady self.now.plan self.now.table.shared.table_id seat.new }
        ensures keeps { KeepsKnown seat.old seat.new }
        ensures got { IfOk result (λ got. HasSlot self.now.plan seat.new got.slot None) }
        ensures refused { IfErr result (λ refusal. (refusal ≡ Refusal.Busy) × HasNoSlot seat.new) }
        ensures few { IfOk result (λ got. got.failed < turns) }
        ensures failed { IfOk result (λ got. AllTaken self.now.plan seat.old.token.me.0 first got.failed) }
        ensures busy { IfErr result (λ _. AllTaken self.now.plan seat.old.token.me.0 first turns) }
        ensures hit { IfOk result (λ got.
            HasTried self.now.plan seat.old seat.new first got.failed (hitting got.slot)) }
        ensures missed { IfErr result (λ _. HasTried self.now.plan seat.old seat.new first turns []) }
    {
        let mut slot = first;
        for failed in 0..turns {
            if self.try_slot(seat, slot) {
                return Ok(Got { slot, failed });
            }
            slot = self.slot_of(slot as u64 + 1);
        }
        Err(Refusal::Busy)
    }

    /// Gets an empty slot for a seat that has none: one from where its last push stopped on, each by one compare-exchange of its
    /// flag. A try that fails is a turn.
    ///
    /// Refused by `Busy` alone, where so many turns failed. Takes no memory and doesn't wait.
    pub fn get_slot(&self, seat: &mut Seat<T>, turns: u32) -> Result<Got, Refusal>
        requires seat { IsRingSeat self.now seat.old }
        requires carries { self.now.plan.carries ≡ true }
        requires none { HasNoSlot seat.old }
        //= ring/get_slot (*): A seat that has no slot gets an empty one, after fewer failed tries than it may make; or Busy,
        //=   after as many. Each try that failed, at one slot after another, from where the seat begins to look on, was at a slot
        //=   whose flag was up, in a state of the table by its rule in which the seat knew what it knew. The seat stores and
        //=   knows the same as before, but for where it begins to look.
        ensures seat { IsRingSeat self.now seat.new }
        ensures keeps { KeepsKnown seat.old seat.new }
        ensures got { IfOk result (λ got. HasSlot self.now.plan seat.new got.slot None) }
        ensures refused { IfErr result (λ refusal. (refusal ≡ Refusal.Busy) × HasNoSlot seat.new) }
        ensures few { IfOk result (λ got. got.failed < turns) }
        ensures failed { IfOk result (λ got. FailedTries self.now.plan seat.old got.failed) }
        ensures busy { IfErr result (λ _. FailedTries self.now.plan seat.old turns) }
        ensures hit { IfOk result (λ got.
            TriedSome self.now.plan seat.old seat.new got.failed (hitting got.slot)) }
        ensures missed { IfErr result (λ _. TriedSome self.now.plan seat.old seat.new turns []) }
    {
        let first = self.slot_of(seat.near);
        match self.find_slot(seat, first, turns) {
            Ok(got) => {
                seat.near = got.slot as u64 + 1;
                Ok(got)
            }
            Err(refusal) => {
                // (The next call looks at other slots.)
                seat.near = seat.near.wrapping_add(u64::from(turns));
                Err(refusal)
            }
        }
    }

    /// Puts a value into the empty slot of a seat. Takes no memory and doesn't wait.
    pub fn put_value(&self, seat: &mut Seat<T>, slot: usize, value: T)
        requires seat { IsRingSeat self.now seat.old }
        requires has { HasSlot self.now.plan seat.old slot None }
        //= ring/put_value (seat, keeps, has): The slot of a seat holds the value that was put into it. The seat stores and
        //=   knows the same as before.
        ensures seat { IsRingSeat self.now seat.new }
        ensures keeps { KeepsKnown seat.old seat.new }
        ensures has { HasSlot self.now.plan seat.new slot (Some value) }
    {
        match self
            .table
            .shared
            .exchange(&mut seat.token, slot, Some(value))
        {
            None => {}
            Some(_) => unreachable!(),
        }
    }

    /// Takes the value out of the slot of a seat, which stays with it, empty. Takes no memory and doesn't wait.
    pub fn take_value(&self, seat: &mut Seat<T>, slot: usize) -> T
        requires seat { IsRingSeat self.now seat.old }
        requires has { HasValue self.now.plan seat.old slot }
        //= ring/take_value (seat, keeps, taken, has): A value that is taken is the one in the slot of the seat, which has the
        //=   slot empty. The seat stores and knows the same as before.
        ensures seat { IsRingSeat self.now seat.new }
        ensures keeps { KeepsKnown seat.old seat.new }
        ensures taken { HasSlot self.now.plan seat.old slot (Some result) }
        ensures has { HasSlot self.now.plan seat.new slot None }
    {
        let Some(value) = self.table.shared.exchange(&mut seat.token, slot, None) else {
            unreachable!()
        };
        value
    }

    /// Gives back the empty slot of a seat, by one store into its flag. Takes no memory and doesn't wait.
    pub fn free_slot(&self, seat: &mut Seat<T>, slot: usize)
        requires seat { IsRingSeat self.now seat.old }
        requires has { HasSlot self.now.plan seat.old slot None }
        //= ring/free_slot (seat, keeps, none): A seat that gave back its slot, which was empty, has none. The seat stores
        //=   and knows the same as before.
        ensures seat { IsRingSeat self.now seat.new }
        ensures keeps { KeepsKnown seat.old seat.new }
        ensures none { HasNoSlot seat.new }
    {
        let flag = self.flag(slot);
        self.table.shared.store::<Brand>(&mut seat.token, flag, 0);
    }
}
