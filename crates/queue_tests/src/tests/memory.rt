//! Queues where memory is refused: what comes back, and that each value is dropped once.
use super::comparisons::same;
use super::queues::AMPLE;
use super::values::Value;
use arena_queue::Algorithm;
use carriers::{Carrier, CloseCarrier, RestOf};
use history::{Body, Close, Fifo, Refusal, Unclosed};
use node_arena::Role;
use nonblocking::{MsQueue, NonBlockingAlgorithm};
use ring_queue::RingQueue;
use ring_values::RingValues;
use std::alloc::Global;
use std::process::Abort;
use std::sync::Arc;
use std::test::Fail;
use two_lock::{TwoLockAlgorithm, TwoLockQueue};
use value_queue::QueueOf;

/// A value that tells how many of it there are.
type Counted = Arc<u8, Global>;

const ROLES: [Role; 1] = [Role::Both];

// The value that is counted; where memory is refused, the next one that is made.
fn mark(alloc: Global) -> Result<Counted, Fail> {
    match Arc::new(alloc, 7) {
        Ok(mark) => Ok(mark),
        Err(_) => Ok(Arc::new(alloc, 7)?),
    }
}

// What a queue leaves that holds both values besides the mark. Where its close has no memory, it comes back
// with its seat and both values, and is closed then.
fn closed<C: CloseCarrier<Item = Counted> + Drop>(
    rt: &impl Abort,
    alloc: Global,
    queue: C,
    seats: Vec<C::Seat>,
    mark: &Counted,
) -> Result<RestOf<Counted>, Refusal> {
    let Unclosed { queue, seats } = match queue.close(alloc, seats) {
        Ok((rest, _end)) => return Ok(rest),
        Err(unclosed) => unclosed,
    };
    same(
        rt,
        (seats.len(), Arc::strong_count(mark)),
        (1, 3),
        "it comes back",
    );
    match queue.close(alloc, seats) {
        Ok((rest, _end)) => Ok(rest),
        Err(_) => Err(Refusal::Memory),
    }
}

// Two values are pushed, and one of them is taken from what the queue leaves: each is dropped once. Or one is
// popped, and the other one is dropped with the queue.
fn values_go<C: CloseCarrier<Item = Counted> + Drop>(
    rt: &impl Abort,
    alloc: Global,
    made: fn(Global) -> Result<(C, Vec<C::Seat>), Refusal>,
) -> Result<(), Fail> {
    let mark = mark(alloc)?;
    for closes in [true, false] {
        let (queue, mut seats) = match made(alloc) {
            Err(Refusal::Memory) => made(alloc)?,
            made => made?,
        };
        for _ in 0..2 {
            let pushed = queue.try_push(&mut seats[0], mark.clone()?, 3);
            same(rt, pushed.is_ok(), true, "a push");
        }
        let front = if closes {
            let mut rest = closed(rt, alloc, queue, seats, &mark)?;
            same(rt, (rest.taken(), rest.whole()), (0, true), "the rest");
            let front = rest.next();
            drop(rest);
            front
        } else {
            let front = queue.try_pop(&mut seats[0], 3)?;
            drop(queue);
            front
        };
        same(
            rt,
            (front.is_some(), Arc::strong_count(&mark)),
            (true, 2),
            closes,
        );
        drop(front);
        same(rt, Arc::strong_count(&mark), 1, closes);
    }
    Ok(())
}

fn values_of<A: Algorithm<24>>(
    alloc: Global,
) -> Result<(QueueOf<Counted, A, 24>, Vec<node_arena::Seat<Counted>>), Refusal> {
    QueueOf::<Counted, A, 24>::new(alloc, 3, AMPLE, &ROLES)
}

fn ring_of(
    alloc: Global,
) -> Result<(RingValues<Counted>, Vec<ring_queue::Seat<Counted>>), Refusal> {
    RingValues::<Counted>::new(alloc, 2, AMPLE, &[ring_queue::Role::Both])
}

// What is left in front of a queue of numbers that is closed with one value, or why it wasn't made or closed.
fn left_of<Q: Close + Drop>(
    alloc: Global,
    made: fn(Global) -> Result<(Q, Vec<Q::Seat>), Refusal>,
) -> Result<Option<(u16, u64)>, Refusal> {
    let (queue, mut seats) = made(alloc)?;
    queue.try_push(&mut seats[0], Body::made(alloc, 7)?, 3)?;
    let (mut rest, _end) = queue.close(alloc, seats)?;
    Ok(rest.next().map(|it| (it.from, it.body.number())))
}

fn numbers_go<Q: Close + Drop>(
    rt: &impl Abort,
    alloc: Global,
    made: fn(Global) -> Result<(Q, Vec<Q::Seat>), Refusal>,
) {
    let found = match left_of(alloc, made) {
        Err(Refusal::Memory) => left_of(alloc, made),
        found => found,
    };
    same(rt, found, Ok(Some((1, 7))), "");
}

/// Where one allocation is refused, `new` or `close` answers `Memory`, and the next queue is made and closed;
/// or `close` hands back a queue of values with its values, and the next call does its work. Each value is
/// dropped once, with a queue that is dropped too.
#[test]
fn a_refused_allocation_is_told_once(rt: HostRuntime) -> Result<(), Fail> {
    let alloc = rt.alloc();
    numbers_go(
        &rt,
        alloc,
        |alloc| TwoLockQueue::new(alloc, 3, AMPLE, &ROLES),
    );
    numbers_go(&rt, alloc, |alloc| MsQueue::new(alloc, 3, AMPLE, &ROLES));
    numbers_go(
        &rt,
        alloc,
        |alloc| RingQueue::new(alloc, 3, AMPLE, &[ring_queue::Role::Both]),
    );
    values_go(&rt, alloc, values_of::<TwoLockAlgorithm>)?;
    values_go(&rt, alloc, values_of::<NonBlockingAlgorithm>)?;
    values_go(&rt, alloc, ring_of)
}
