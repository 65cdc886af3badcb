//! Iterators over a queue of numbers: what they give, and where they end.
use super::comparisons::same;
use super::queues::AMPLE;
use super::threads::MOST;
use super::values::Value;
use arena_queue::{Algorithm, ArenaQueue};
use carriers::FifoExt;
use history::{Body, Fifo, Refusal, Taken, WornWord};
use mock_queues::{Listed, Planned};
use node_arena::{Role, Seat};
use nonblocking::NonBlockingAlgorithm;
use std::alloc::Global;
use std::process::Abort;
use std::sync::Wait;
use std::test::Fail;
use std::thread::{Threads, join};
use two_lock::TwoLockAlgorithm;

/// The tries over a queue with two values, and what each is refused: a push, then those of an `UntilEmpty`
/// that takes the value, then those of an `UntilShut`, which waits where it finds the queue empty.
const TRIES: [(u32, Option<Refusal>); 7] = [
    (3, None),
    (8, Some(Refusal::Busy)),
    (8, None),
    (8, None),
    (8, None),
    (8, Some(Refusal::Busy)),
    (8, Some(Refusal::WornOut(WornWord::Head))),
];

/// After how many values a loop is left.
const LEFT_AT: u64 = 10;

/// The bodies that an iterator gave, as decimal digits, and the refusal that it gave last, if any.
#[derive(Clone, Copy, Debug, PartialEq, Eq)]
struct Drained(u64, Option<Refusal>);

impl Drained {
    const NONE: Drained = Drained(0, None);

    // With the body or the refusal of one more item.
    fn with(self, item: Result<Taken, Refusal>) -> Drained {
        match item {
            Ok(taken) => {
                let digits = self.0.wrapping_mul(10).wrapping_add(taken.body.number());
                Drained(digits, self.1)
            }
            Err(refusal) => Drained(self.0, Some(refusal)),
        }
    }
}

// What a seat takes until the queue is found empty.
fn until_empty<R: Wait, Q: Fifo>(rt: &R, queue: &Q, seat: &mut Q::Seat) -> Drained {
    let mut drained = Drained::NONE;
    for item in queue.drain(rt, seat) {
        drained = drained.with(item);
    }
    drained
}

// The same until it is shut and empty.
fn until_shut<R: Wait, Q: Fifo>(rt: &R, queue: &Q, seat: &mut Q::Seat) -> Drained {
    let mut drained = Drained::NONE;
    for item in queue.iter(rt, seat) {
        drained = drained.with(item);
    }
    drained
}

// A queue with room for three values, and a seat of it.
fn made<A: Algorithm<24>>(alloc: Global) -> Result<(ArenaQueue<A>, Vec<Seat>), Refusal> {
    ArenaQueue::<A>::new(alloc, 4, AMPLE, &[Role::Both])
}

fn drains_end<A: Algorithm<24>, R: AllocGlobal + Abort + Wait>(rt: &R) -> Result<(), Fail> {
    let (queue, mut seats) = made::<A>(rt.alloc())?;
    let seat = &mut seats[0];
    for number in 1..=3 {
        queue.try_push(seat, Body::made(rt.alloc(), number)?, 3)?;
    }
    let found = until_empty(rt, &queue, seat);
    same(rt, found, Drained(123, None), "three values");
    same(
        rt,
        until_empty(rt, &queue, seat),
        Drained::NONE,
        "an empty queue",
    );
    for number in 4..=5 {
        queue.try_push(seat, Body::made(rt.alloc(), number)?, 3)?;
    }
    queue.try_shut(seat, 3)?;
    let found = until_shut(rt, &queue, seat);
    same(rt, found, Drained(45, None), "two values, and a shut");
    same(
        rt,
        until_shut(rt, &queue, seat),
        Drained::NONE,
        "a shut queue",
    );
    let closed = Drained(0, Some(Refusal::Closed));
    same(
        rt,
        until_empty(rt, &queue, seat),
        closed,
        "until it is empty",
    );
    Ok(())
}

/// Iterators give all values in their order, and end where the queue is empty, or shut and empty, and as a
/// refusal.
#[test]
fn drains_give_all_values(rt: HostRuntime) -> Result<(), Fail> {
    drains_end::<TwoLockAlgorithm, _>(&rt)?;
    drains_end::<NonBlockingAlgorithm, _>(&rt)
}

fn drains_go_on<A: Algorithm<24>, R: AllocGlobal + Abort + Wait>(rt: &R) -> Result<(), Fail> {
    let (queue, mut seats) = made::<A>(rt.alloc())?;
    let seat = &mut seats[0];
    let queue = Planned::new(queue, Listed::new(&TRIES));
    queue.try_push(seat, Body::made(rt.alloc(), 1)?, 3)?;
    let found = until_empty(rt, &queue, seat);
    same(rt, found, Drained(1, None), "a try that is busy");
    let worn = Drained(0, Some(Refusal::WornOut(WornWord::Head)));
    same(
        rt,
        until_shut(rt, &queue, seat),
        worn,
        "a worn word, after an empty find",
    );
    Ok(())
}

/// Iterators go on where they are busy, the waiting one also where it finds the queue empty, and end where a
/// word is worn.
#[test]
fn drains_go_on_where_they_are_busy(rt: HostRuntime) -> Result<(), Fail> {
    drains_go_on::<TwoLockAlgorithm, _>(&rt)?;
    drains_go_on::<NonBlockingAlgorithm, _>(&rt)
}

// Pushes 1 and so on, and shuts the queue; whether all of it was done.
fn gives<R: Wait, Q: Fifo>(rt: &R, queue: &Q, mut seat: Q::Seat) -> bool {
    for number in 1..=MOST {
        let Some(body) = Body::new(number) else {
            return false;
        };
        if queue.push(rt, &mut seat, body).is_err() {
            return false;
        }
    }
    queue.shut(rt, &mut seat).is_ok()
}

// One value more, where it comes in its order; none are left where it doesn't.
fn counted(count: u64, item: Result<Taken, Refusal>) -> u64 {
    match item {
        Ok(taken) if taken.body.number() == count.wrapping_add(1) => count.wrapping_add(1),
        Ok(_) => 0,
        Err(_) => count,
    }
}

// With the values until the queue is shut and empty, or up to so many.
fn with_all<R: Wait, Q: Fifo>(
    rt: &R,
    queue: &Q,
    seat: &mut Q::Seat,
    mut count: u64,
    most: u64,
) -> u64 {
    for item in queue.iter(rt, seat) {
        count = counted(count, item);
        if count == most {
            return count;
        }
    }
    count
}

// How many values come in their order: the first ones of a loop that is left, those until the queue is found
// empty, and those until it is shut and empty.
fn takes<R: Wait, Q: Fifo>(rt: &R, queue: &Q, mut seat: Q::Seat) -> u64 {
    let mut count = with_all(rt, queue, &mut seat, 0, LEFT_AT);
    for item in queue.drain(rt, &mut seat) {
        count = counted(count, item);
    }
    with_all(rt, queue, &mut seat, count, MOST + 1)
}

fn drains_beside<A: Algorithm<24> + Sync, R: AllocGlobal + Abort + Threads + Wait + Sync>(
    rt: &R,
) -> Result<(), Fail> {
    let roles = [Role::Giver, Role::Taker];
    let (queue, mut seats) = ArenaQueue::<A>::new(rt.alloc(), 1004, AMPLE, &roles)?;
    let (Some(taker), Some(giver)) = (seats.pop(), seats.pop()) else {
        return Err(Refusal::BadSize.into());
    };
    let found = join(rt, || takes(rt, &queue, taker), || gives(rt, &queue, giver));
    same(rt, found, (MOST, true), "");
    Ok(())
}

/// An iterator gives each value, in its order, while another thread pushes and shuts the queue, also after a
/// loop that was left.
#[test]
fn drains_beside_another_thread(rt: HostRuntime) -> Result<(), Fail> {
    drains_beside::<TwoLockAlgorithm, _>(&rt)?;
    drains_beside::<NonBlockingAlgorithm, _>(&rt)
}
