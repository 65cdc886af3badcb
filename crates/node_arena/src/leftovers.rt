//! What is left of an arena that carried values.
ghost use Rattle.std.specs.Prelude.{◌≡◌, IsTrue};
ghost use Rattle.history.specs.Rests.{left_of, taken_of, whole_of, was_shut_of};
ghost use Rattle.node_arena.specs.ValuesLeft.{all_lie};

use history::Rest;
use std::mem::replace;

/// A value left in an arena, and the number of the seat that pushed it.
#[derive(Debug, PartialEq, Eq, Drop)]
pub struct LeftValue<T> {
    pub from: u16,
    pub value: T,
}

/// The values left in an arena that was closed, from the front, and what was done with the arena before.
#[derive(Drop)]
pub struct LeftValues<T> {
    rest: Rest,
    slots: Vec<Option<T>>,
    ghost lie: { IsTrue (all_lie slots.items (left_of rest)) },
}

impl<T> LeftValues<T> {
    ghost use Rattle.node_arena.specs.Leftovers.{rest_in, slots_in, GivesFront, KeepsTold};

    /// What lies in the slots of an arena that was closed, in order, and its rest by numbers. Takes no memory.
    pub(crate) fn of(rest: Rest, slots: Vec<Option<T>>) -> LeftValues<T>
        requires { IsTrue (all_lie slots.items (left_of rest)) }
        ensures rest { rest_in result ≡ rest }
        ensures slots { slots_in result ≡ slots.items }
    {
        LeftValues { rest, slots }
    }

    /// The value at the front of those left, or that none is left. Takes no memory.
    pub fn take_front(&mut self) -> Option<LeftValue<T>>
        //= atomics/front (front, told): The values left are given from the front, each once, with
        //=   who pushed it; how many were taken, and both flags, are told and stay.
        ensures front { GivesFront self.old result self.new }
        ensures told { KeepsTold self.old self.new }
    {
        let number = self.rest.next()?;
        let slot = number.body.number() as usize;
        let Some(value) = replace(&mut self.slots[slot], None) else {
            unreachable!()
        };
        Some(LeftValue {
            from: number.from,
            value,
        })
    }

    /// How many values were taken from the arena. Takes no memory.
    pub fn taken(&self) -> u64
        //= atomics/front
        ensures { result ≡ taken_of (rest_in self.now) }
    {
        self.rest.taken()
    }

    /// Whether the seats handed in made all pushes and pops and, where the arena was shut, the shut. Takes no memory.
    pub fn whole(&self) -> bool
        //= atomics/front
        ensures { result ≡ whole_of (rest_in self.now) }
    {
        self.rest.whole()
    }

    /// Whether the arena was shut. Takes no memory.
    pub fn was_shut(&self) -> bool
        //= atomics/front
        ensures { result ≡ was_shut_of (rest_in self.now) }
    {
        self.rest.was_shut()
    }

    /// What lies in each slot, in order: the values left that weren't taken, and those that a seat had that wasn't handed in.
    /// So values that can't be dropped are all had. Takes no memory.
    pub fn into_slots(self) -> Vec<Option<T>>
        //= atomics/into_slots: What lies in the slots of an arena that was closed comes out, values that can't be dropped
        //=   too.
        ensures { result.items ≡ slots_in self }
    {
        let LeftValues { rest: _, slots } = self;
        slots
    }
}
