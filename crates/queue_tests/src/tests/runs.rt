//! Runs of one thread that each queue makes alike, by one seat and by several.
use super::calls::Told::{Back, Empty, NoPop, NoShut, Pop, Push, Shut};
use super::calls::{Told, go};
use super::comparisons::same;
use super::queues::{AMPLE, Left, Made};
use super::values::{Numbered, Row, Value};
use carriers::Numbers;
use history::Refusal::{self, BadSize, Closed, NoNode};
use node_arena::Role;
use nonblocking::{MsQueue, MsQueueOf};
use picked::EitherQueue;
use ring_queue::RingQueue;
use ring_values::{RingValues, RingWords};
use std::process::Abort;
use std::test::Fail;
use two_lock::{TwoLockQueue, TwoLockQueueOf};
use value_queue::{MsValueQueue, TwoLockValueQueue};

/// How often one seat pushes and pops alone.
const ROUNDS: u64 = 10_000;

/// With room for two values: a third one comes back, and so does each behind the shut.
const FULL: [(usize, Told); 11] = [
    (1, Push(1)),
    (1, Push(0)),
    (1, Back(3, NoNode)),
    (1, Pop(1, 1)),
    (1, Push(4)),
    (1, Pop(1, 0)),
    (1, Pop(1, 4)),
    (1, Empty),
    (1, Shut),
    (1, Back(5, Closed)),
    (1, NoPop(Closed)),
];

/// Seats 1 and 2 push, and seat 3 pops: no push and no shut follows the shut, all values are popped, and then
/// it is shut and empty.
const SHUT: [(usize, Told); 17] = [
    (3, Empty),
    (1, Push(7)),
    (1, Push(8)),
    (2, Push(9)),
    (1, Shut),
    (2, NoShut(Closed)),
    (1, NoShut(Closed)),
    (1, Back(1, Closed)),
    (1, Back(2, Closed)),
    (2, Back(3, Closed)),
    (3, Pop(1, 7)),
    (3, Pop(1, 8)),
    (3, Pop(2, 9)),
    (3, NoPop(Closed)),
    (3, NoPop(Closed)),
    (1, NoShut(Closed)),
    (2, Back(4, Closed)),
];

/// With room for one value: a push that finds no node is refused so, shut or not.
const FULL_AND_SHUT: [(usize, Told); 5] = [
    (1, Push(1)),
    (1, Shut),
    (1, Back(2, NoNode)),
    (1, Pop(1, 1)),
    (1, Back(2, Closed)),
];

// Runs a story over each kind of queue.
macro_rules! over_each {
    ($story:ident, $rt:expr) => {{
        $story::<Numbers<TwoLockQueue>, _>($rt)?;
        $story::<Numbers<MsQueue>, _>($rt)?;
        $story::<Numbers<RingQueue>, _>($rt)?;
        $story::<TwoLockValueQueue<String>, _>($rt)?;
        $story::<TwoLockValueQueue<()>, _>($rt)?;
        $story::<TwoLockValueQueue<Row>, _>($rt)?;
        $story::<MsValueQueue<String>, _>($rt)?;
        $story::<MsValueQueue<()>, _>($rt)?;
        $story::<MsValueQueue<Row>, _>($rt)?;
        $story::<RingValues<String>, _>($rt)?;
        $story::<RingValues<()>, _>($rt)?;
        $story::<RingValues<Row>, _>($rt)?;
        $story::<RingWords<1>, _>($rt)?;
        $story::<RingWords<2>, _>($rt)?;
        $story::<RingWords<3>, _>($rt)?;
        $story::<EitherQueue<MsValueQueue<String>, TwoLockValueQueue<String>>, _>($rt)?;
        $story::<EitherQueue<TwoLockValueQueue<Row>, RingValues<Row>>, _>($rt)
    }};
}

fn is_full<C: Made, R: AllocGlobal + Abort>(rt: &R) -> Result<(), Fail> {
    let (queue, mut seats) = C::made(rt.alloc(), 2, AMPLE, &[Role::Both])?;
    go(rt, &queue, &mut seats, &FULL)
}

/// A queue takes as many values as it has room for, numbers, texts, of which one is empty, values of no size
/// and large ones; each comes out as it went in, or comes back.
#[test]
fn a_full_queue_refuses(rt: HostRuntime) -> Result<(), Fail> {
    over_each!(is_full, &rt)
}

fn is_shut<C: Made, R: AllocGlobal + Abort>(rt: &R) -> Result<(), Fail> {
    let roles = [Role::Giver, Role::Giver, Role::Taker];
    let (queue, mut seats) = C::made(rt.alloc(), 8, AMPLE, &roles)?;
    go(rt, &queue, &mut seats, &SHUT)?;
    let wanted = Left {
        taken: 3,
        first: [None; 4],
        whole: true,
        was_shut: true,
    };
    same(rt, queue.leaves(rt.alloc(), seats)?, wanted, "");
    Ok(())
}

/// Each reply before and behind a shut: of a seat that shut it, of another one that pushes, and of one that
/// pops; and what is left.
#[test]
fn a_shut_stops_pushes_and_then_pops(rt: HostRuntime) -> Result<(), Fail> {
    over_each!(is_shut, &rt)
}

fn has_roles<C: Made, R: AllocGlobal + Abort>(rt: &R) -> Result<(), Fail> {
    let (queue, mut seats) = C::made(rt.alloc(), 8, AMPLE, &[Role::Giver, Role::Taker])?;
    let calls = [
        (2, Back(1, BadSize)),
        (1, NoPop(BadSize)),
        (2, NoShut(BadSize)),
    ];
    go(rt, &queue, &mut seats, &calls)
}

/// A seat that pops alone pushes nothing, and one that pushes alone pops nothing.
#[test]
fn seats_call_by_their_roles(rt: HostRuntime) -> Result<(), Fail> {
    over_each!(has_roles, &rt)
}

// Some values go through, and three are left, in a ring across its end. Then the second seat, which pushes
// and pops too, shuts it or not.
fn leaves<C: Made, R: AllocGlobal + Abort>(rt: &R) -> Result<(), Fail> {
    let alloc = rt.alloc();
    let seen = |number| -> Result<u64, Refusal> { Ok(C::Item::made(alloc, number)?.number()) };
    for is_shut in [false, true] {
        let (queue, mut seats) = C::made(rt.alloc(), 4, AMPLE, &[Role::Both; 2])?;
        for number in 0..6 {
            let calls = [(1, Push(number)), (2, Pop(1, number))];
            go(rt, &queue, &mut seats, &calls)?;
        }
        go(
            rt,
            &queue,
            &mut seats,
            &[(1, Push(6)), (2, Push(0)), (1, Push(8))],
        )?;
        if is_shut {
            go(rt, &queue, &mut seats, &[(2, Shut), (1, Back(9, Closed))])?;
        }
        let first = [
            Some((1, seen(6)?)),
            Some((2, seen(0)?)),
            Some((1, seen(8)?)),
            None,
        ];
        let wanted = Left {
            taken: 6,
            first,
            whole: true,
            was_shut: is_shut,
        };
        same(rt, queue.leaves(rt.alloc(), seats)?, wanted, is_shut);
    }
    Ok(())
}

/// What is left of a closed queue comes in order, with who pushed each; a push behind the shut leaves
/// nothing.
#[test]
fn what_is_left_comes_in_order(rt: HostRuntime) -> Result<(), Fail> {
    over_each!(leaves, &rt)
}

// Seat 1 makes this call and seat 2 none; one of them is handed in.
fn is_whole_by<C: Made, R: AllocGlobal + Abort>(
    rt: &R,
    call: Told,
    by_first: bool,
) -> Result<(), Fail> {
    let (queue, mut seats) = C::made(rt.alloc(), 3, AMPLE, &[Role::Both, Role::Both])?;
    go(rt, &queue, &mut seats, &[(1, call)])?;
    let second = seats.pop();
    let seats = if by_first {
        seats
    } else {
        vec![in rt.alloc(); second.unwrap()]?
    };
    let pushed = if call == Push(1) { Some((1, 1)) } else { None };
    let wanted = Left {
        taken: 0,
        first: [pushed, None, None, None],
        whole: by_first,
        was_shut: call == Shut,
    };
    same(
        rt,
        queue.leaves(rt.alloc(), seats)?,
        wanted,
        (call, by_first),
    );
    Ok(())
}

fn is_whole<C: Made, R: AllocGlobal + Abort>(rt: &R) -> Result<(), Fail> {
    for call in [Push(1), Shut] {
        is_whole_by::<C, R>(rt, call, true)?;
        is_whole_by::<C, R>(rt, call, false)?;
    }
    Ok(())
}

/// Seat 1 pushes, or shuts the queue, and seat 2 makes no call: the rest is whole where seat 1 is handed in,
/// and not where seat 2 is.
#[test]
fn whole_where_who_did_it_is_handed_in(rt: HostRuntime) -> Result<(), Fail> {
    is_whole::<Numbers<TwoLockQueue>, _>(&rt)?;
    is_whole::<Numbers<MsQueue>, _>(&rt)?;
    is_whole::<MsValueQueue<String>, _>(&rt)?;
    is_whole::<TwoLockValueQueue<String>, _>(&rt)
}

fn lacks_a_node<C: Made, R: AllocGlobal + Abort>(rt: &R) -> Result<(), Fail> {
    let (queue, mut seats) = C::made(rt.alloc(), 1, AMPLE, &[Role::Both])?;
    go(rt, &queue, &mut seats, &FULL_AND_SHUT)
}

/// On a shut queue a push that gets no node is refused so; once a node is free, it is refused Closed.
#[test]
fn no_node_on_a_shut_queue(rt: HostRuntime) -> Result<(), Fail> {
    lacks_a_node::<Numbers<TwoLockQueue>, _>(&rt)?;
    lacks_a_node::<Numbers<MsQueue>, _>(&rt)
}

fn is_alone<C: Made, R: AllocGlobal + Abort>(rt: &R, room: u32) -> Result<(), Fail> {
    let (queue, mut seats) = C::made(rt.alloc(), room, AMPLE, &[Role::Both])?;
    for number in 1..=ROUNDS {
        go(
            rt,
            &queue,
            &mut seats,
            &[(1, Push(number)), (1, Pop(1, number))],
        )?;
    }
    let wanted = Left {
        taken: ROUNDS,
        first: [None; 4],
        whole: true,
        was_shut: false,
    };
    same(rt, queue.leaves(rt.alloc(), seats)?, wanted, "");
    Ok(())
}

/// One seat alone is never Busy, and pops what it just pushed: ten thousand times over, so that each node and
/// each slot is used again.
#[test]
fn one_seat_alone_is_never_busy(rt: HostRuntime) -> Result<(), Fail> {
    is_alone::<Numbers<TwoLockQueueOf<16>>, _>(&rt, 2)?;
    is_alone::<Numbers<TwoLockQueueOf<24>>, _>(&rt, 2)?;
    is_alone::<Numbers<TwoLockQueueOf<32>>, _>(&rt, 2)?;
    is_alone::<Numbers<MsQueueOf<16>>, _>(&rt, 2)?;
    is_alone::<Numbers<MsQueueOf<24>>, _>(&rt, 2)?;
    is_alone::<Numbers<MsQueueOf<32>>, _>(&rt, 2)?;
    is_alone::<MsValueQueue<u64>, _>(&rt, 1)?;
    is_alone::<RingValues<String>, _>(&rt, 2)?;
    is_alone::<RingWords<3>, _>(&rt, 2)
}
