//! Calls of many values by a seat with its share.
ghost use Rattle.std.specs.Prelude.{◌≡◌, ◌+◌, ◌<◌, ◌≤◌, length, map, take, get_or, vec_capacity, IfOk, IfErr};
ghost use Rattle.msq_c.specs.Blocks.{queue_in, known_in, room_in, RefusesPush, RefusesPop};
ghost use Rattle.msq_c.specs.Queues.{IsRing};
ghost use Rattle.msq_c.specs.Values.{value_of};
ghost use Rattle.msq_c.specs.Many.{PushesFirst, PushesAll, PopsFrom, PopsUpTo, laid};

use crate::ring_acts::{AT_ONCE, PopsBatch, PushesBatch};
use crate::seat_blocks::SeatBlock;
use crate::troubles::Trouble;
use crate::values::MsqValue;
use history::{Body, Taken};
use std::alloc::Global;
use std::mem;

// Writes these values into the places from one on.
fn lay(values: &mut [MsqValue], from: usize, taken: &[Taken])
    requires { from + length taken.now ≤ length values.old }
    ensures { values.new ≡ laid from (map value_of taken.now) values.old }
{
    for i in 0..taken.len() {
        values[from + i] = MsqValue::of(taken[i]);
    }
}

// The first of these numbers as bodies, of which the first one is one, as many as go at one step: how many.
fn first_bodies(numbers: &[u64], first: Body) -> ([Body; AT_ONCE], usize)
    requires some { 1 ≤ length numbers.now }
    requires first { first ≡ get_or numbers.now 0 0 }
    ensures some { 1 ≤ result.1 }
    ensures few { (result.1 ≤ length numbers.now) × (result.1 ≤ length result.0) }
    ensures those { take result.1 result.0 ≡ take result.1 numbers.now }
{
    let mut bodies = [first; AT_ONCE];
    for i in 1..numbers.len().min(AT_ONCE) {
        let Some(body) = Body::new(numbers[i]) else {
            return (bodies, i);
        };
        bodies[i] = body;
    }
    (bodies, numbers.len().min(AT_ONCE))
}

impl SeatBlock {
    // Pushes the first of these numbers, one at least, to a ring, as many as it takes at one step: how many.
    fn push_batch(&mut self, numbers: &[u64], turns: u32) -> Result<usize, Trouble>
        requires ring { IsRing (queue_in self.old) }
        requires some { 1 ≤ length numbers.now }
        ensures queue { queue_in self.new ≡ queue_in self.old }
        ensures pushed { IfOk result
            (PushesFirst (known_in self.old) numbers.now (known_in self.new)) }
        ensures refused { IfErr result
            (RefusesPush self.old self.new (get_or numbers.now 0 0) turns) }
    {
        let Some(first) = Body::new(numbers[0]) else {
            return Err(Trouble::BadSize);
        };
        if turns == 0 {
            return Err(Trouble::BadSize);
        }
        if !self.owned.may_push() {
            return Err(Trouble::NoRole);
        }
        let (bodies, count) = first_bodies(numbers, first);
        let act = PushesBatch {
            bodies: &bodies[..count],
            turns,
        };
        match self.act(act) {
            Ok(count) => Ok(count),
            Err(refusal) => Err(Trouble::Refused(refusal)),
        }
    }

    // Pushes the first of these numbers, one at least: to a ring as many as it takes at one step, and else one. How many.
    fn push_some(&mut self, numbers: &[u64], turns: u32) -> Result<usize, Trouble>
        requires { 1 ≤ length numbers.now }
        ensures queue { queue_in self.new ≡ queue_in self.old }
        ensures pushed { IfOk result
            (PushesFirst (known_in self.old) numbers.now (known_in self.new)) }
        ensures refused { IfErr result
            (RefusesPush self.old self.new (get_or numbers.now 0 0) turns) }
    {
        if self.is_ring() {
            return self.push_batch(numbers, turns);
        }
        self.try_push(numbers[0], turns)?;
        Ok(1)
    }

    /// Pushes these numbers in their order, until one is refused: how many were pushed.
    pub(crate) fn push_all(&mut self, numbers: &[u64], turns: u32) -> (usize, Result<(), Trouble>)
        ensures queue { queue_in self.new ≡ queue_in self.old }
        ensures told { PushesAll self.old self.new numbers.now turns result.0 result.1 }
    {
        let mut pushed = 0;
        while pushed < numbers.len() {
            match self.push_some(&numbers[pushed..], turns) {
                Ok(count) => pushed += count,
                Err(refusal) => return (pushed, Err(refusal)),
            }
        }
        (pushed, Ok(()))
    }

    // Pops the first values of a ring by one step, into the places from one on, where the seat has room for them: how many; none
    // where it is empty.
    fn pop_batch(
        &mut self,
        alloc: Global,
        values: &mut [MsqValue],
        from: usize,
        turns: u32,
    ) -> Result<usize, Trouble>
        requires ring { IsRing (queue_in self.old) }
        requires room { 1 ≤ vec_capacity (room_in self.old) }
        requires from { from < length values.old }
        ensures queue { queue_in self.new ≡ queue_in self.old }
        ensures popped { IfOk result
            (PopsFrom (known_in self.old) from values.old values.new (known_in self.new)) }
        ensures refused { IfErr result
            (λ refusal. RefusesPop self.old self.new turns refusal × (values.new ≡ values.old)) }
    {
        if turns == 0 {
            return Err(Trouble::BadSize);
        }
        if !self.owned.may_pop() {
            return Err(Trouble::NoRole);
        }
        let most = self.room.capacity().min(values.len() - from);
        let mut room = mem::replace(&mut self.room, Vec::new(alloc));
        room.clear();
        let act = PopsBatch {
            most,
            into: room,
            turns,
        };
        let (taken, answer) = self.act(act);
        match answer {
            Ok(count) => {
                lay(values, from, &taken);
                self.room = taken;
                Ok(count)
            }
            Err(refusal) => {
                self.room = taken;
                Err(Trouble::Refused(refusal))
            }
        }
    }

    // Pops the first values into the places from one on: of a ring as many as come at one step, and else one. How many; none where
    // the queue is empty.
    fn pop_some(
        &mut self,
        alloc: Global,
        values: &mut [MsqValue],
        from: usize,
        turns: u32,
    ) -> Result<usize, Trouble>
        requires { from < length values.old }
        ensures queue { queue_in self.new ≡ queue_in self.old }
        ensures popped { IfOk result
            (PopsFrom (known_in self.old) from values.old values.new (known_in self.new)) }
        ensures refused { IfErr result
            (λ refusal. RefusesPop self.old self.new turns refusal × (values.new ≡ values.old)) }
    {
        if self.is_ring() && self.room.capacity() > 0 {
            return self.pop_batch(alloc, values, from, turns);
        }
        match self.try_pop(turns) {
            Ok(Some(taken)) => {
                values[from] = MsqValue::of(taken);
                Ok(1)
            }
            Ok(None) => Ok(0),
            Err(refusal) => Err(refusal),
        }
    }

    /// Pops values, as many as there is room for, until there is none or a pop is refused: how many were popped.
    pub(crate) fn pop_up_to(
        &mut self,
        alloc: Global,
        values: &mut [MsqValue],
        turns: u32,
    ) -> (usize, Result<Option<()>, Trouble>)
        ensures queue { queue_in self.new ≡ queue_in self.old }
        ensures told { PopsUpTo self.old self.new values.old values.new turns result.0 result.1 }
    {
        let mut popped = 0;
        while popped < values.len() {
            match self.pop_some(alloc, values, popped, turns) {
                Ok(0) => return (popped, Ok(None)),
                Ok(count) => popped += count,
                Err(refusal) => return (popped, Err(refusal)),
            }
        }
        (popped, Ok(Some(())))
    }
}
