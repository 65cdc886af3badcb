//! The sum of many squares, by tasks that make further tasks.
ghost use Rattle.std.specs.Prelude.{◌≡◌, ◌+◌, false, ◌++◌, ◌∷◌, [], IfOk};
ghost use Rattle.split_sum.specs.Squares.{squares_of};

use crate::ranges::{NoRoom, Part, Range};
use std::alloc::Global;
use std::sync::Wait;
use std::thread::Threads;
use tasks::{Done, Feed, run_feed};

/// How many ranges may wait to be run, at most.
const ROOM: u32 = 100;

/// Why there is no sum.
#[derive(Clone, Copy, Debug, PartialEq, Eq)]
pub enum Failure {
    /// A number has no room in 64 bits.
    NoRoom,
    /// Memory was refused.
    Memory,
}

/// All numbers that are to be added, the ranges of them that weren't given yet, the sum of those that were told, and whether
/// one failed.
#[derive(Drop)]
pub(crate) struct Adding {
    all: Range,
    waiting: Vec<Range>,
    total: u64,
    failed: bool,
}

impl Adding {
    // Adds a sum that was told.
    fn add(&mut self, sum: u64)
        ensures all { self.new.all ≡ self.old.all }
        ensures waiting { self.new.waiting.items ≡ self.old.waiting.items }
        ensures added { self.new.failed ≡ false
            → (self.old.failed ≡ false) × (self.new.total ≡ self.old.total + sum) }
    {
        match self.total.checked_add(sum) {
            Some(total) => self.total = total,
            None => self.failed = true,
        }
    }

    // Two ranges wait that were made of one.
    fn wait(&mut self, one: Range, other: Range)
        ensures all { self.new.all ≡ self.old.all }
        ensures total { self.new.total ≡ self.old.total }
        ensures added { self.new.failed ≡ false → (self.old.failed ≡ false)
            × (self.new.waiting.items ≡ self.old.waiting.items ++ one ∷ other ∷ []) }
    {
        if self.waiting.push(one).is_err() || self.waiting.push(other).is_err() {
            self.failed = true;
        }
    }
}

impl Feed<Range> for Adding {
    ghost use Rattle.std.specs.Prelude.{◌≡◌, ◌∷◌, [], ◌++◌, List, Result};
    ghost use Rattle.tasks.specs.declared.answers.Done.{Done};
    ghost use Rattle.split_sum.specs.declared.ranges.Range.{Range};
    ghost use Rattle.split_sum.specs.declared.ranges.Part.{Part};
    ghost use Rattle.split_sum.specs.declared.ranges.NoRoom.{NoRoom};
    ghost use Rattle.split_sum.specs.Sums.{AddsSo};

    ghost stands = { AddsSo };

    ghost Kept = { Range };

    ghost kept = { λ a. a.all };

    ghost idle = { λ a. a.waiting.items ≡ [] };

    fn next(&mut self) -> Option<Range> {
        self.waiting.pop()
    }

    fn tell(&mut self, done: Done<Result<Part, NoRoom>>)
        ensures stands { (given : List Range) (told : List (Done (Result Part NoRoom)))
            → AddsSo self.old given told → AddsSo self.new given (told ++ done ∷ []) }
        ensures kept { self.new.all ≡ self.old.all }
    {
        match done.answer {
            Ok(Part::Sum(sum)) => self.add(sum),
            Ok(Part::Halves(one, other)) => self.wait(one, other),
            Err(NoRoom) => self.failed = true,
        }
    }
}

/// The squares of these numbers, together.
///
/// Refusals: `NoRoom` where a number has no room in 64 bits, and `Memory`. Takes memory for the ranges that wait and for two
/// queues, starts threads, and waits.
pub(crate) fn total<R: Threads + Wait + Sync>(
    rt: &R,
    alloc: Global,
    all: Range,
) -> Result<u64, Failure>
    //= callers/split: At Ok tasks that make further tasks, run by a fed pool, answer the exact sum of the squares of a
    //=   range.
    ensures { IfOk result (λ total. total ≡ squares_of all) }
{
    let mut waiting = Vec::new(alloc);
    if waiting.push(all).is_err() {
        return Err(Failure::Memory);
    }
    let feed = Adding {
        all,
        waiting,
        total: 0,
        failed: false,
    };
    let Ok(fed) = run_feed(rt, alloc, feed, None, ROOM) else {
        return Err(Failure::Memory);
    };
    if fed.refused.is_some() || fed.feed.failed {
        return Err(Failure::NoRoom);
    }
    Ok(fed.feed.total)
}
