//! Many tasks through a pool that is fed: each result is told once, and is its own task's.
use std::test::Fail;
use tasks::{Done, Feed, Task, run_feed};

/// The runs: tasks, workers, for how many tasks there is room.
const RUNS: [(u64, usize, u32); 4] = [
    (100_000, 3, 1000),
    (20_000, 2, 1),
    (20_000, 0, 10),
    (0, 3, 1000),
];

/// A task that answers the square of its number.
#[derive(Clone, Copy, Debug, PartialEq, Eq)]
struct Squared(u64);

/// A square has no room in 64 bits.
#[derive(Clone, Copy, Debug, PartialEq, Eq)]
struct NoRoom;

impl Task for Squared {
    type Output = u64;

    type Error = NoRoom;

    ghost answers = { λ _ _. Unit {0} };

    fn run(self) -> Result<u64, NoRoom> {
        self.0.checked_mul(self.0).ok_or(NoRoom)
    }
}

/// So many tasks, how many of them were given, and how many results were told, each of its own task.
#[derive(Drop)]
struct Row {
    most: u64,
    given: u64,
    right: u64,
}

impl Feed<Squared> for Row {
    ghost stands = { λ _ _ _. Unit {0} };

    ghost Kept = { Unit {0} };

    ghost kept = { λ _. tt };

    ghost idle = { λ _. Unit {0} };

    fn next(&mut self) -> Option<Squared> {
        if self.given >= self.most {
            return None;
        }
        let task = Squared(self.given);
        self.given += 1;
        Some(task)
    }

    fn tell(&mut self, done: Done<Result<u64, NoRoom>>)
        ensures { Unit {0} }
    {
        if done.answer == Squared(done.number as u64).run() {
            self.right = self.right.saturating_add(1);
        }
    }
}

/// Up to 100,000 tasks in up to three threads and the caller's, with room for 1 to 1,000: each result is told, and is its own
/// task's.
#[test]
fn each_result_is_told_once(rt: HostRuntime) -> Result<(), Fail> {
    for (most, workers, room) in RUNS {
        let row = Row {
            most,
            given: 0,
            right: 0,
        };
        let told = match run_feed(&rt, rt.alloc(), row, Some(workers), room) {
            Ok(fed) if fed.refused.is_none() => Some(fed.feed.right),
            _ => None,
        };
        assert_eq!(rt;
            told,
            Some(most),
            "{most} tasks, {workers} workers, room for {room}"
        );
    }
    Ok(())
}
