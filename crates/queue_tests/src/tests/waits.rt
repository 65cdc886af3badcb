//! Calls that wait, over a queue that is busy at their first tries: those of queues of numbers, and those of
//! queues of values.
use super::comparisons::same;
use super::queues::AMPLE;
use arena_queue::{Algorithm, ArenaQueue};
use carriers::{Carrier, Numbers, Unpushed};
use history::{Body, Fifo, Refusal};
use mock_queues::{Listed, Planned};
use node_arena::Role;
use nonblocking::NonBlockingAlgorithm;
use std::process::Abort;
use std::sync::Wait;
use std::test::Fail;
use two_lock::TwoLockAlgorithm;

const BUSY: Option<Refusal> = Some(Refusal::Busy);

/// The tries of two pushes, a shut and two pops, each with its turns: the first ones are busy.
const TRIES: [(u32, Option<Refusal>); 10] = [
    (8, BUSY),
    (8, BUSY),
    (8, None),
    (8, BUSY),
    (8, None),
    (8, BUSY),
    (8, None),
    (8, BUSY),
    (8, None),
    (8, None),
];

// On a queue with room for one value: the first push, the second one, which finds no node, the shut, the pop,
// and one that is refused.
fn numbers_go_on<A: Algorithm<24>, R: AllocGlobal + Abort + Wait>(rt: &R) -> Result<(), Fail> {
    let (first, second) = bodies()?;
    let (queue, mut seats) = ArenaQueue::<A>::new(rt.alloc(), 2, AMPLE, &[Role::Both])?;
    let queue = Planned::new(queue, Listed::new(&TRIES));
    let seat = &mut seats[0];
    same(rt, Fifo::push(&queue, rt, seat, first), Ok(()), "a push");
    let refused = Err(Refusal::NoNode);
    same(rt, Fifo::push(&queue, rt, seat, second), refused, "no node");
    same(rt, Fifo::shut(&queue, rt, seat), Ok(()), "a shut");
    let front = Fifo::pop(&queue, rt, seat)?;
    same(
        rt,
        front.map(|it| (it.from, it.body)),
        Some((1, first)),
        "a pop",
    );
    same(
        rt,
        Fifo::pop(&queue, rt, seat),
        Err(Refusal::Closed),
        "no more",
    );
    Ok(())
}

// The same of the queue as one of values: the second value comes back.
fn values_go_on<A: Algorithm<24>, R: AllocGlobal + Abort + Wait>(rt: &R) -> Result<(), Fail> {
    let (first, second) = bodies()?;
    let (queue, mut seats) = ArenaQueue::<A>::new(rt.alloc(), 2, AMPLE, &[Role::Both])?;
    let queue = Numbers::new(Planned::new(queue, Listed::new(&TRIES)));
    let seat = &mut seats[0];
    same(rt, queue.push(rt, seat, first), Ok(()), "a push");
    let back = Unpushed {
        refusal: Refusal::NoNode,
        value: second,
    };
    same(rt, queue.push(rt, seat, second), Err(back), "no node");
    same(rt, queue.shut(rt, seat), Ok(()), "a shut");
    let front = queue.pop(rt, seat)?;
    same(
        rt,
        front.map(|it| (it.from, it.value)),
        Some((1, first)),
        "a pop",
    );
    same(rt, queue.pop(rt, seat), Err(Refusal::Closed), "no more");
    Ok(())
}

// The numbers that are pushed.
fn bodies() -> Result<(Body, Body), Refusal> {
    match (Body::new(42), Body::new(43)) {
        (Some(first), Some(second)) => Ok((first, second)),
        _ => Err(Refusal::BadSize),
    }
}

/// Calls that wait and are busy at first go on, by tries of 8 turns.
#[test]
fn calls_that_wait_try_again(rt: HostRuntime) -> Result<(), Fail> {
    numbers_go_on::<TwoLockAlgorithm, _>(&rt)?;
    numbers_go_on::<NonBlockingAlgorithm, _>(&rt)?;
    values_go_on::<TwoLockAlgorithm, _>(&rt)?;
    values_go_on::<NonBlockingAlgorithm, _>(&rt)
}
