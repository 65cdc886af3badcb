//! Two numbers that are to be added, as a task.
ghost use Rattle.std.specs.Prelude.{◌≡◌, ◌+◌, ◌*◌, ◌≤◌, length, sum, sum_by, IfOk};

use std::alloc::{AllocError, Global};
use tasks::Task;

/// Two numbers that are to be added.
#[derive(Drop)]
pub struct Pair {
    pub one: u64,
    pub other: u64,
}

/// Why a sum fails: it has no room in 64 bits.
#[derive(Clone, Copy, Debug, PartialEq, Eq)]
pub struct Overflow;

impl Task for Pair {
    ghost use Rattle.parallel_sum.specs.Sums.{IsSumOf};

    type Output = u64;

    type Error = Overflow;

    ghost answers = { IsSumOf };

    fn run(self) -> Result<u64, Overflow> {
        match self.one.checked_add(self.other) {
            Some(sum) => Ok(sum),
            None => Err(Overflow),
        }
    }
}
