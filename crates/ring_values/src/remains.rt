//! The values left in a ring that was closed, each in the slot that a number left names.
ghost use Rattle.std.specs.Prelude.{◌≡◌, IsTrue};
ghost use Rattle.history.specs.Rests.{left_of, taken_of, whole_of, was_shut_of};
ghost use Rattle.node_arena.specs.ValuesLeft.{all_lie};

use carriers::ItemOf;
use history::Rest;
use std::mem::replace;

/// The values left in a ring that was closed, from the front, and what was done with the ring before.
#[derive(Drop)]
pub struct LeftValues<T> {
    rest: Rest,
    slots: Vec<Option<T>>,
    ghost lie: { IsTrue (all_lie slots.items (left_of rest)) },
}

impl<T> LeftValues<T> {
    ghost use Rattle.ring_values.specs.Remains.{rest_in, slots_in, GivesFront, KeepsTold};

    /// The rest of a ring that was closed, by numbers, and what lies in its slots, in order. Takes no memory.
    pub(crate) fn of(rest: Rest, slots: Vec<Option<T>>) -> LeftValues<T>
        requires { IsTrue (all_lie slots.items (left_of rest)) }
        ensures rest { rest_in result ≡ rest }
        ensures slots { slots_in result ≡ slots.items }
    {
        LeftValues { rest, slots }
    }

    /// The value at the front of those left, or that none is left. Takes no memory.
    pub fn take_front(&mut self) -> Option<ItemOf<T>>
        //= ring_values/front (front, told): The values left in a ring are given from the front, each once, with who pushed it;
        //=   how many were taken, and both flags, are told and stay.
        ensures front { GivesFront self.old result self.new }
        ensures told { KeepsTold self.old self.new }
    {
        let number = self.rest.next()?;
        let slot = number.body.number() as usize;
        let Some(value) = replace(&mut self.slots[slot], None) else {
            unreachable!()
        };
        Some(ItemOf {
            from: number.from,
            value,
        })
    }

    /// How many values were taken from the ring. Takes no memory.
    pub fn taken(&self) -> u64
        //= ring_values/front
        ensures { result ≡ taken_of (rest_in self.now) }
    {
        self.rest.taken()
    }

    /// Whether the seats handed in made all pushes and pops and, where the ring was shut, the shut. Takes no memory.
    pub fn whole(&self) -> bool
        //= ring_values/front
        ensures { result ≡ whole_of (rest_in self.now) }
    {
        self.rest.whole()
    }

    /// Whether the ring was shut. Takes no memory.
    pub fn was_shut(&self) -> bool
        //= ring_values/front
        ensures { result ≡ was_shut_of (rest_in self.now) }
    {
        self.rest.was_shut()
    }

    /// What lies in each slot, in order: the values left that weren't taken. So values that can't be dropped are all had. Takes no
    /// memory.
    pub fn into_slots(self) -> Vec<Option<T>>
        //= ring_values/into_slots: What lies in the slots of a ring that was closed comes out, values that can't be dropped too.
        ensures { result.items ≡ slots_in self }
    {
        let LeftValues { rest: _, slots } = self;
        slots
    }
}
