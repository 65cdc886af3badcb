//! What is left of a queue of values that was closed.
ghost use Rattle.std.specs.Prelude.{◌≡◌};
ghost use Rattle.carriers.specs.Rests.{left_in, taken_in, whole_in, was_shut_in};

use crate::items::ItemOf;
use std::vec::IntoIter;

/// The values left in a queue that was closed, from the front, as an iterator; and what was done with the queue before.
#[derive(Drop)]
pub struct RestOf<T> {
    left: IntoIter<ItemOf<T>>,
    taken: u64,
    whole: bool,
    was_shut: bool,
}

impl<T> RestOf<T> {
    /// The rest of a queue: the values left, from the front, how many values were taken, whether the seats handed in made
    /// all its pushes and pops and its shut, and whether it was shut. Takes no memory.
    pub fn of(left: Vec<ItemOf<T>>, taken: u64, whole: bool, was_shut: bool) -> RestOf<T>
        ensures left { left_in result ≡ left.items }
        ensures taken { taken_in result ≡ taken }
        ensures whole { whole_in result ≡ whole }
        ensures was_shut { was_shut_in result ≡ was_shut }
    {
        RestOf {
            left: left.into_iter(),
            taken,
            whole,
            was_shut,
        }
    }

    /// How many values were taken. Takes no memory.
    pub fn taken(&self) -> u64
        //= carriers/left: The values left are given from the front, each once, by an iterator that ends; how many were
        //=   taken, and both flags, are told and stay.
        ensures { result ≡ taken_in self.now }
    {
        self.taken
    }

    /// Whether the seats handed in made all pushes and pops and, where the queue was shut, the shut. Takes no memory.
    pub fn whole(&self) -> bool
        //= carriers/left
        ensures { result ≡ whole_in self.now }
    {
        self.whole
    }

    /// Whether the queue was shut. Takes no memory.
    pub fn was_shut(&self) -> bool
        //= carriers/left
        ensures { result ≡ was_shut_in self.now }
    {
        self.was_shut
    }
}

/// The values left, from the front. Takes no memory.
impl<T: Drop> Iterator for RestOf<T> {
    ghost use Rattle.std.specs.Iterator.{item_count};
    ghost use Rattle.carriers.specs.Rests.{GivesNextOf};

    type Item = ItemOf<T>;

    //= carriers/left (next_gives, remaining)
    ghost next_gives = { GivesNextOf };

    ghost remaining = { item_count left_in };

    fn next(&mut self) -> Option<ItemOf<T>> {
        self.left.next()
    }
}
