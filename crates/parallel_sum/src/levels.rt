//! One level after another, until one number is left.
ghost use Rattle.std.specs.Prelude.{◌≡◌, ◌+◌, ◌*◌, ◌^◌, ◌<◌, ◌≤◌, length, map, sum, sum_by, Ok, Err, IfOk, IfErr, OnErr};
ghost use Rattle.parallel_sum.specs.Sums.{sum_in};
ghost use Rattle.parallel_sum.specs.Levels.{AreAdded, FailsSo};

use crate::pairs::{Overflow, Pair};
use std::alloc::Global;
use std::sync::Wait;
use std::thread::Threads;
use tasks::run_all;

/// Why there is no sum.
#[derive(Clone, Copy, Debug, PartialEq, Eq)]
pub enum Failure {
    /// It has no room in 64 bits.
    Overflow,
    /// Memory was refused.
    Memory,
}

// The numbers, two by two; the last one with 0 where it has no other one.
fn paired(alloc: Global, numbers: Vec<u64>) -> Result<Vec<Pair>, Failure>
    ensures sum { IfOk result (λ pairs. sum_by sum_in pairs.items ≡ sum numbers.items) }
    ensures half { IfOk result (λ pairs. 2 * length pairs.items ≤ length numbers.items + 1) }
    ensures failure { IfErr result (λ failure. failure ≡ Failure.Memory) }
{
    let mut pairs = Vec::new(alloc);
    let mut rest = numbers.into_iter();
    while let Some(one) = rest.next() {
        let other = rest.next().unwrap_or(0);
        if pairs.push(Pair { one, other }).is_err() {
            return Err(Failure::Memory);
        }
    }
    Ok(pairs)
}

// The sums that were answered; none where one of them failed.
fn added(alloc: Global, answers: Vec<Result<u64, Overflow>>) -> Result<Vec<u64>, Failure>
    ensures { AreAdded answers.items result }
{
    let mut sums = Vec::new(alloc);
    for answer in answers {
        let Ok(sum) = answer else {
            return Err(Failure::Overflow);
        };
        if sums.push(sum).is_err() {
            return Err(Failure::Memory);
        }
    }
    Ok(sums)
}

// Adds the numbers two by two.
fn level<R: Threads + Wait + Sync>(
    rt: &R,
    alloc: Global,
    numbers: Vec<u64>,
) -> Result<Vec<u64>, Failure>
    ensures sum { IfOk result (λ sums. sum sums.items ≡ sum numbers.items) }
    ensures half { IfOk result (λ sums. 2 * length sums.items ≤ length numbers.items + 1) }
    ensures failure { IfErr result (FailsSo (sum numbers.items)) }
{
    let pairs = paired(alloc, numbers)?;
    match run_all(rt, alloc, pairs, None) {
        Ok(answers) => added(alloc, answers),
        Err(_) => Err(Failure::Memory),
    }
}

/// The sum of these numbers.
///
/// Refusals: `Overflow` where it has no room in 64 bits, and `Memory`. Takes memory for each level, starts threads, and waits.
pub fn total<R: Threads + Wait + Sync>(
    rt: &R,
    alloc: Global,
    mut numbers: Vec<u64>,
) -> Result<u64, Failure>
    //= callers/sum (sum, failure): A tree of tasks, each level run by a pool, answers the exact sum of all numbers;
    //=   `Overflow` comes only where that has no room in 64 bits.
    ensures sum { IfOk result (λ total. total ≡ sum numbers.items) }
    ensures failure { IfErr result (FailsSo (sum numbers.items)) }
{
    while numbers.len() > 1 {
        numbers = level(rt, alloc, numbers)?;
    }
    Ok(numbers.pop().unwrap_or(0))
}
