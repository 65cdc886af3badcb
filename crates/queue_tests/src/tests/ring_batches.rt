//! Pushes and pops of many values of a ring at one step.
use super::calls::Told::{NoPop, Pop, Shut};
use super::calls::go;
use super::comparisons::same;
use super::queues::{AMPLE, Made};
use carriers::Numbers;
use history::{Body, Refusal, Taken};
use node_arena::Role;
use ring_queue::{RingQueue, Seat};
use std::alloc::Global;
use std::test::Fail;

type Ring = Numbers<RingQueue>;

// Pushes the first of some small bodies, up to 8, in one turn: how many.
fn push_all(queue: &Ring, seat: &mut Seat, numbers: &[u64]) -> Result<usize, Refusal> {
    let mut bodies = [Body::new(0).ok_or(Refusal::BadSize)?; 8];
    let count = numbers.len().min(8);
    for i in 0..count {
        bodies[i] = Body::new(numbers[i]).ok_or(Refusal::BadSize)?;
    }
    queue.queue().try_push_all(seat, &bodies[..count], 1)
}

/// A push of many pushes as many as there is room for, in their order; behind a shut it pushes none.
#[test]
fn many_are_pushed_at_one_step(rt: HostRuntime) -> Result<(), Fail> {
    let (queue, mut seats) = Ring::made(rt.alloc(), 6, AMPLE, &[Role::Both])?;
    let bodies = [4, 5, 6, 7, 8];
    for (numbers, wanted) in [
        (&bodies[..], Ok(5)),
        (&bodies[..0], Ok(0)),
        (&bodies[..], Ok(1)),
        (&bodies[..], Err(Refusal::NoNode)),
    ] {
        same(
            &rt,
            push_all(&queue, &mut seats[0], numbers),
            wanted,
            numbers,
        );
    }
    for body in [4, 5, 6, 7, 8, 4] {
        go(&rt, &queue, &mut seats, &[(1, Pop(1, body))])?;
    }
    go(&rt, &queue, &mut seats, &[(1, Shut)])?;
    let found = push_all(&queue, &mut seats[0], &bodies);
    same(&rt, found, Err(Refusal::Closed), "behind the shut");
    go(&rt, &queue, &mut seats, &[(1, NoPop(Refusal::Closed))])
}

/// Pushes of these numbers, and how many are popped then where so many may be: as many as are there, or as it
/// is to, across the end of four slots too.
const POPS: [(&[u64], usize, usize); 5] = [
    (&[], 4, 0),
    (&[4, 5, 6], 2, 2),
    (&[7], 9, 2),
    (&[4, 5, 6], 2, 2),
    (&[7], 9, 2),
];

/// A pop of many takes as many as are there, or as it is to, and of a shut ring what is left.
#[test]
fn many_are_popped_at_one_step(rt: HostRuntime) -> Result<(), Fail> {
    let (queue, mut seats) = Ring::made(rt.alloc(), 4, AMPLE, &[Role::Both])?;
    let mut values = Vec::with_capacity(rt.alloc(), 32)?;
    for (numbers, most, popped) in POPS {
        let pushed = push_all(&queue, &mut seats[0], numbers);
        same(&rt, pushed, Ok(numbers.len()), "a push");
        let found = queue
            .queue()
            .try_pop_up_to(&mut seats[0], most, &mut values, 1);
        same(&rt, found, Ok(popped), "a pop");
    }
    same(
        &rt,
        push_all(&queue, &mut seats[0], &[8]),
        Ok(1),
        "the last",
    );
    go(&rt, &queue, &mut seats, &[(1, Shut)])?;
    let closed = Err(Refusal::Closed);
    same(
        &rt,
        push_all(&queue, &mut seats[0], &[9]),
        closed,
        "behind it",
    );
    for wanted in [Ok(1), closed] {
        let found = queue
            .queue()
            .try_pop_up_to(&mut seats[0], 9, &mut values, 1);
        same(&rt, found, wanted, "it alone");
    }
    let all = [4, 5, 6, 7, 4, 5, 6, 7, 8];
    for i in 0..all.len() {
        same(&rt, values[i].body.number(), all[i], "their order");
    }
    Ok(())
}
