//! The slots of an arena that carries values, of which an `Arena` has none: the number that a push puts into the queue is
//! that of the slot in which its value lies.
ghost use Rattle.std.specs.Prelude.{[], ◌≡◌, ◌+◌, ◌*◌, ◌<◌, true, false, IsTrue, Some, None, IfOk, IfErr};
ghost use Rattle.node_arena.specs.Seats.{IsSeat, IsReady, HasNoSlot, carries_of, setup_of, plan_of};
ghost use Rattle.node_arena.specs.Hands.{HasSlot, HasValue, KeepsKnown, KeepsTries, IsMissed, FailedTries};
ghost use Rattle.node_arena.specs.Hands.{HasTried, GotAt, hitting};
ghost use Rattle.node_arena.specs.Hands as hands;

use crate::arena::ArenaOf;
use crate::seats::Seat;
use history::Refusal;
use std::marker::Brand;

/// A slot that was got, and how many tries at other ones failed before.
#[derive(Clone, Copy, Debug, PartialEq, Eq)]
pub struct Got {
    pub slot: usize,
    pub failed: u32,
}

// The slot that a push tries first.
fn first_slot(slots: usize, node: usize) -> usize
    ensures { result ≡ hands.first_slot slots node }
{
    if node < slots { node } else { 0 }
}

impl<const B: u32, T> ArenaOf<B, T> {
    // Where the flag of a slot lies in the table.
    fn flag(&self, slot: usize) -> usize
        requires { slot < (setup_of self.now).size }
        ensures { result ≡ 48 + 2 * (setup_of self.now).size + slot }
    {
        48 + 2 * self.setup().size as usize + slot
    }

    // Gets a slot whose flag is down, by one compare-exchange of it.
    fn try_slot(&self, seat: &mut Seat<T>, slot: usize) -> bool
        requires seat { IsSeat self.now seat.old }
        requires carries { carries_of self.now ≡ true }
        requires none { HasNoSlot seat.old }
        requires slot { slot < (setup_of self.now).size }
        ensures seat { IsSeat self.now seat.new }
        ensures ready { IsReady self.now seat.old → IsReady self.now seat.new }
        ensures keeps { KeepsKnown seat.old seat.new }
        ensures got { result ≡ true →
            HasSlot self.now seat.new slot None × GotAt seat.old seat.new slot }
        ensures missed { result ≡ false → IsMissed self.now seat.old seat.new slot }
    {
        let flag = self.flag(slot);
        self.table
            .shared
            .compare_exchange::<Brand>(&mut seat.token, flag, 0, 1)
            == 0
    }

    /// Gets an empty slot for a seat that has none: that of a node's number, or else one of the next ones, each by one
    /// compare-exchange of its flag. A try that fails is a turn.
    ///
    /// Refused by `Busy` alone, where so many turns failed. Takes no memory and doesn't wait.
    pub fn get_slot(&self, seat: &mut Seat<T>, node: u32, turns: u32) -> Result<Got, Refusal>
        requires seat { IsSeat self.now seat.old }
        requires carries { carries_of self.now ≡ true }
        requires none { HasNoSlot seat.old }
        //= atomics/get_slot (*): A seat that has no slot gets an empty one, after fewer failed tries than it may make;
        //=   or Busy, after as many. Each try that failed, at one slot after another from that of a node's number on,
        //=   found the flag of that slot up, in a state of the table by its rule in which the seat knew what it knew;
        //=   the seat made just these tries, and then that of the slot that it got. It stores and knows the same as before.
        ensures seat { IsSeat self.now seat.new }
        ensures ready { IsReady self.now seat.old → IsReady self.now seat.new }
        ensures keeps { KeepsKnown seat.old seat.new }
        ensures got { IfOk result (λ got. HasSlot self.now seat.new got.slot None) }
        ensures refused { IfErr result (λ refusal. (refusal ≡ Refusal.Busy) × HasNoSlot seat.new) }
        ensures few { IfOk result (λ got. got.failed < turns) }
        ensures failed { IfOk result (λ got. FailedTries self.now seat.old node got.failed) }
        ensures busy { IfErr result (λ _. FailedTries self.now seat.old node turns) }
        ensures hit { IfOk result (λ got. HasTried (plan_of self.now) seat.old seat.new
            (hands.first_slot (setup_of self.now).size node) got.failed (hitting got.slot)) }
        ensures missed { IfErr result (λ _. HasTried (plan_of self.now) seat.old seat.new
            (hands.first_slot (setup_of self.now).size node) turns []) }
    {
        let size = self.setup().size as usize;
        let mut slot = first_slot(size, node as usize);
        for failed in 0..turns {
            if self.try_slot(seat, slot) {
                return Ok(Got { slot, failed });
            }
            slot = first_slot(size, slot + 1);
        }
        Err(Refusal::Busy)
    }

    /// Puts a value into the empty slot of a seat. Takes no memory and doesn't wait.
    pub fn put_value(&self, seat: &mut Seat<T>, slot: usize, value: T)
        requires seat { IsSeat self.now seat.old }
        requires has { HasSlot self.now seat.old slot None }
        //= atomics/put_value (seat, ready, keeps, tries, has): The slot of a seat holds the value that was put into it.
        //=   The seat stores and knows the same as before.
        ensures seat { IsSeat self.now seat.new }
        ensures ready { IsReady self.now seat.old → IsReady self.now seat.new }
        ensures keeps { KeepsKnown seat.old seat.new }
        ensures tries { KeepsTries seat.old seat.new }
        ensures has { HasSlot self.now seat.new slot (Some value) }
    {
        let _ = &self.plan;
        match self
            .table
            .shared
            .exchange(&mut seat.token, slot, Some(value))
        {
            None => {}
            Some(_) => unreachable!(),
        }
    }

    /// Takes the value out of the slot of a seat, which stays with it, empty. Takes no memory and doesn't wait.
    pub fn take_value(&self, seat: &mut Seat<T>, slot: usize) -> T
        requires seat { IsSeat self.now seat.old }
        requires has { HasValue self.now seat.old slot }
        //= atomics/take_value (seat, ready, keeps, tries, taken, has): A value that is taken is the one in the slot of the
        //=   seat, which has the slot empty. The seat stores and knows the same as before.
        ensures seat { IsSeat self.now seat.new }
        ensures ready { IsReady self.now seat.old → IsReady self.now seat.new }
        ensures keeps { KeepsKnown seat.old seat.new }
        ensures tries { KeepsTries seat.old seat.new }
        ensures taken { HasSlot self.now seat.old slot (Some result) }
        ensures has { HasSlot self.now seat.new slot None }
    {
        let _ = &self.plan;
        let Some(value) = self.table.shared.exchange(&mut seat.token, slot, None) else {
            unreachable!()
        };
        value
    }

    /// Gives back the empty slot of a seat, by one store into its flag. Takes no memory and doesn't wait.
    pub fn free_slot(&self, seat: &mut Seat<T>, slot: usize)
        requires seat { IsSeat self.now seat.old }
        requires has { HasSlot self.now seat.old slot None }
        //= atomics/free_slot (seat, ready, keeps, tries, none): A seat that gave back its slot, which was empty, has none.
        //=   The seat stores and knows the same as before.
        ensures seat { IsSeat self.now seat.new }
        ensures ready { IsReady self.now seat.old → IsReady self.now seat.new }
        ensures keeps { KeepsKnown seat.old seat.new }
        ensures tries { KeepsTries seat.old seat.new }
        ensures none { HasNoSlot seat.new }
    {
        let flag = self.flag(slot);
        self.table.shared.store::<Brand>(&mut seat.token, flag, 0);
    }
}
