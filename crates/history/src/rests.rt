//! What is left of a queue that was closed.
ghost use Rattle.std.specs.Prelude.{◌≡◌};
ghost use Rattle.history.specs.Rests.{left_of, taken_of, whole_of, was_shut_of};

use crate::operations::Taken;
use std::vec::IntoIter;

/// The values left in a queue that was closed, from the front, as an iterator; and what was done with the queue before.
#[derive(Drop)]
pub struct Rest {
    left: IntoIter<Taken>,
    taken: u64,
    whole: bool,
    was_shut: bool,
}

impl Rest {
    /// The rest of a queue: the values left, from the front, how many values were taken, whether the seats handed in made
    /// all its pushes and pops and its shut, and whether it was shut. Takes no memory.
    pub fn of(left: Vec<Taken>, taken: u64, whole: bool, was_shut: bool) -> Rest
        ensures left { left_of result ≡ left.items }
        ensures taken { taken_of result ≡ taken }
        ensures whole { whole_of result ≡ whole }
        ensures was_shut { was_shut_of result ≡ was_shut }
    {
        Rest {
            left: left.into_iter(),
            taken,
            whole,
            was_shut,
        }
    }

    /// How many values were taken. Takes no memory.
    pub fn taken(&self) -> u64
        //= queues/left: The values left are given from the front, each once, by an iterator that ends; how many were
        //=   taken, and both flags, are told and stay.
        ensures { result ≡ taken_of self.now }
    {
        self.taken
    }

    /// Whether the seats handed in made all pushes and pops and, where the queue was shut, the shut. Takes no memory.
    pub fn whole(&self) -> bool
        //= queues/left
        ensures { result ≡ whole_of self.now }
    {
        self.whole
    }

    /// Whether the queue was shut. Takes no memory.
    pub fn was_shut(&self) -> bool
        //= queues/left
        ensures { result ≡ was_shut_of self.now }
    {
        self.was_shut
    }
}

/// The values left, from the front. Takes no memory.
impl Iterator for Rest {
    ghost use Rattle.std.specs.Iterator.{item_count};
    ghost use Rattle.history.specs.Rests.{GivesNext};

    type Item = Taken;

    //= queues/left (next_gives, remaining)
    ghost next_gives = { GivesNext };

    ghost remaining = { item_count left_of };

    fn next(&mut self) -> Option<Taken> {
        self.left.next()
    }
}
