//! Work to be timed: pushes and pops of one queue, in a thread for each seat.
ghost use Rattle.std.specs.List.{All};
ghost use Rattle.stress.specs.Seated.{MayCall};

use crate::loads::Load;
use crate::seats::Job;
use carriers::{Carrier, Unpushed};
use crossbeam_utils::Backoff;
use history::Refusal;
use std::alloc::Global;
use std::sync::Wait;
use std::thread;
use std::thread::Threads;

/// How many turns a call takes before it lets others go on.
pub const TURNS: u32 = 8;

/// How many values a burst has.
const BURST: u64 = 100;

/// What a thread does, so many times.
#[derive(Clone, Copy)]
pub enum Work {
    /// Pushes a value and pops one.
    Pairs,
    /// Pushes a value.
    Pushes,
    /// Pops a value.
    Pops,
    /// Pushes three values, one by one.
    ThreePushes,
    /// Pops three values, one by one.
    ThreePops,
    /// Pushes as many values as a burst has, one by one, and then pops as many.
    Bursts,
    /// Pushes a value and pops one, each within two turns; where one doesn't, the thread never ends.
    Strict,
    /// Nothing.
    Rests,
}

impl Work {
    // Of how many of the same the work is made up.
    fn times(self) -> u64 {
        match self {
            Work::ThreePushes | Work::ThreePops => 3,
            Work::Rests => 0,
            _ => 1,
        }
    }
}

/// What the threads of a kind do, by its name: those of four, where it is no other one.
pub fn works_of(name: &str) -> &'static [Work; 4] {
    match name {
        "one" => &[Work::Pairs, Work::Rests, Work::Rests, Work::Rests],
        "pair" => &[Work::Pushes, Work::Rests, Work::Pops, Work::Rests],
        "strict" => &[Work::Pairs, Work::Rests, Work::Strict, Work::Rests],
        "taker" => &[Work::Pops, Work::Rests, Work::Strict, Work::Rests],
        "giver" => &[Work::Pairs, Work::Rests, Work::Pushes, Work::Rests],
        "two" => &[Work::Pushes, Work::Pops, Work::Pushes, Work::Pops],
        "three" => &[Work::Pushes, Work::Pushes, Work::Pushes, Work::ThreePops],
        "one-three" => &[Work::ThreePushes, Work::Pops, Work::Pops, Work::Pops],
        "four-burst" => &[Work::Bursts; 4],
        _ => &[Work::Pairs; 4],
    }
}

/// Pushes the value of this number of the sender `from`, and waits where there is no node; whether it was pushed.
#[inline(always)]
pub fn push<R: Wait, T: Load, Q: Carrier<Item = T>>(
    rt: &R,
    alloc: Global,
    queue: &Q,
    seat: &mut Q::Seat,
    from: u64,
    number: u64,
) -> bool
    requires { MayCall Q.is_seat Q.permits Q.known queue.now seat.old }
    ensures { MayCall Q.is_seat Q.permits Q.known queue.now seat.new }
{
    let Some(mut value) = T::made(alloc, from, number) else {
        return false;
    };
    let backoff = Backoff::new();
    for _ in rt.forever() {
        match queue.try_push(seat, value, TURNS) {
            Ok(()) => return true,
            Err(
                Unpushed {
                    refusal,
                    value: back,
                },
            ) => {
                if refusal != Refusal::Busy && refusal != Refusal::NoNode {
                    return false;
                }
                value = back;
                backoff.snooze();
            }
        }
    }
    unreachable!()
}

// Pops a value, and waits where the queue is empty; what was told by it, and 0 where a word is worn out.
#[inline(always)]
fn pop<R: Wait, T: Load, Q: Carrier<Item = T>>(rt: &R, queue: &Q, seat: &mut Q::Seat) -> u64
    requires { MayCall Q.is_seat Q.permits Q.known queue.now seat.old }
    ensures { MayCall Q.is_seat Q.permits Q.known queue.now seat.new }
{
    let backoff = Backoff::new();
    for _ in rt.forever() {
        match queue.try_pop(seat, TURNS) {
            Ok(Some(item)) => return item.value.told().unwrap_or(0),
            Ok(None) | Err(Refusal::Busy) => backoff.snooze(),
            Err(_) => return 0,
        }
    }
    unreachable!()
}

// Pushes the values of a burst, and then pops as many; the sum of what was told.
fn burst<R: Wait, T: Load, Q: Carrier<Item = T>>(
    rt: &R,
    alloc: Global,
    queue: &Q,
    seat: &mut Q::Seat,
    from: u64,
) -> u64
    requires { MayCall Q.is_seat Q.permits Q.known queue.now seat.old }
    ensures { MayCall Q.is_seat Q.permits Q.known queue.now seat.new }
{
    for number in 0..BURST {
        push(rt, alloc, queue, seat, from, number);
    }
    let mut sum = 0u64;
    for _ in 0..BURST {
        sum = sum.wrapping_add(pop(rt, queue, seat));
    }
    sum
}

// Pushes a value and pops one, each within two turns; it never ends where one doesn't.
fn strict_pair<R: Wait, T: Load, Q: Carrier<Item = T>>(
    rt: &R,
    queue: &Q,
    seat: &mut Q::Seat,
    value: T,
)
    requires { MayCall Q.is_seat Q.permits Q.known queue.now seat.old }
    ensures { MayCall Q.is_seat Q.permits Q.known queue.now seat.new }
{
    let pushed = queue.try_push(seat, value, 2).is_ok();
    let popped = matches!(queue.try_pop(seat, 2), Ok(Some(_)));
    if pushed && popped {
        return;
    }
    for _ in rt.forever() {}
}

// One thread's work; the sum of what was told.
fn toils<R: Wait, T: Load, Q: Carrier<Item = T>>(
    rt: &R,
    alloc: Global,
    queue: &Q,
    job: Job<Q::Seat>,
    count: u64,
) -> u64
    requires { MayCall Q.is_seat Q.permits Q.known queue.now job.seat }
{
    let Job {
        mut seat,
        from,
        work,
    } = job;
    let mut sum = 0u64;
    for number in 0..count.saturating_mul(work.times()) {
        match work {
            Work::Pairs => {
                push(rt, alloc, queue, &mut seat, from, number);
                sum = sum.wrapping_add(pop(rt, queue, &mut seat));
            }
            Work::Pushes | Work::ThreePushes => {
                push(rt, alloc, queue, &mut seat, from, number);
            }
            Work::Pops | Work::ThreePops => sum = sum.wrapping_add(pop(rt, queue, &mut seat)),
            Work::Bursts => sum = sum.wrapping_add(burst(rt, alloc, queue, &mut seat, from)),
            Work::Strict => {
                if let Some(value) = T::made(alloc, from, number) {
                    strict_pair(rt, queue, &mut seat, value);
                }
            }
            Work::Rests => {}
        }
    }
    sum
}

/// The work of a thread for each of these jobs, each so many times; the sum of what was told, and none where memory is
/// refused.
pub fn worked<R: Threads + Wait + Sync, T: Load, Q: Carrier<Item = T> + Sync>(
    rt: &R,
    alloc: Global,
    queue: &Q,
    jobs: Vec<Job<Q::Seat>>,
    count: u64,
) -> Option<u64>
    requires { All (λ job. MayCall Q.is_seat Q.permits Q.known queue.now job.seat) jobs.items }
{
    let sums = thread::map_vec(
        rt,
        jobs,
        &|job: Job<Q::Seat>| -> u64
            requires { MayCall Q.is_seat Q.permits Q.known queue.now job.seat }
        { toils(rt, alloc, queue, job, count) },
    );
    let mut all = 0u64;
    for sum in sums.ok()? {
        all = all.wrapping_add(sum);
    }
    Some(all)
}
