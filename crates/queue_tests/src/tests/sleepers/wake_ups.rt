//! What wakes several that sleep on a queue of numbers: a shut by a seat, a word that wears out, and a pop
//! that gives back two nodes.
use super::sides::AMPLE;
use super::stories::{EARLY, LONG, millis, now, pause, took};
use crate::tests::comparisons::same;
use arena_queue::{Algorithm, ArenaQueue};
use carriers::{Carrier, Numbers};
use history::{Body, Refusal, WornWord};
use node_arena::{Role, Seat};
use nonblocking::NonBlockingAlgorithm;
use shared_queue::{InTime, SharedQueue};
use std::process::Abort;
use std::sync::Wait;
use std::test::Fail;
use std::thread::{Threads, join};
use std::time::Clock;
use two_lock::TwoLockAlgorithm;

type Sleeping<A> = SharedQueue<Numbers<ArenaQueue<A>>>;

/// Two that sleep, and one that wakes them.
const THREE: [Role; 3] = [Role::Both; 3];

// Takes a value, and waits for it so long; whether it came, and how long that took.
fn receives_late<R: Wait + Clock, A: Algorithm<24>>(
    rt: &R,
    queue: &Sleeping<A>,
    mut seat: Seat,
) -> (Result<bool, Refusal>, u64) {
    let start = now(rt);
    let answer = queue.recv_timeout(rt, &mut seat, millis(LONG));
    let came = answer.map(|came| matches!(came, InTime::Done(_)));
    (came, took(rt, start))
}

// Waits for a node so long; whether one came, and how long that took.
fn sends_late<R: Wait + Clock, A: Algorithm<24>>(
    rt: &R,
    queue: &Sleeping<A>,
    mut seat: Seat,
    body: Body,
) -> (Result<bool, Refusal>, u64) {
    let start = now(rt);
    let sent = match queue.send_timeout(rt, &mut seat, body, millis(LONG)) {
        Ok(InTime::Done(())) => Ok(true),
        Ok(InTime::Late(_unsent)) => Ok(false),
        Err(unpushed) => Err(unpushed.refusal),
    };
    (sent, took(rt, start))
}

fn shut_wakes<R: AllocGlobal + Abort + Threads + Wait + Clock + Sync, A: Algorithm<24> + Sync>(
    rt: &R,
) -> Result<(), Fail> {
    let (queue, mut seats) = ArenaQueue::<A>::new(rt.alloc(), 8, AMPLE, &THREE)?;
    let queue = &SharedQueue::new(Numbers::new(queue));
    let (Some(a), Some(b), Some(mut c)) = (seats.pop(), seats.pop(), seats.pop()) else {
        return Err(Refusal::BadSize.into());
    };
    let ((one, other), shut) = join(
        rt,
        || join(
            rt,
            || receives_late(rt, queue, a),
            || receives_late(rt, queue, b),
        ),
        || {
            pause(rt);
            queue.shut(rt, &mut c)
        },
    );
    let closed = Err(Refusal::Closed);
    same(rt, (one.0, other.0, shut), (closed, closed, Ok(())), "");
    assert!(rt; one.1 < EARLY && other.1 < EARLY, "woken by a shut");
    Ok(())
}

/// A shut wakes all who sleep on an empty queue.
#[test]
fn a_shut_wakes_all(rt: HostRuntime) -> Result<(), Fail> {
    shut_wakes::<_, TwoLockAlgorithm>(&rt)?;
    shut_wakes::<_, NonBlockingAlgorithm>(&rt)
}

// Takes a value.
fn pops_one<R: Wait + Clock, A: Algorithm<24>>(
    rt: &R,
    queue: &Sleeping<A>,
    mut seat: Seat,
) -> Result<(), Refusal> {
    pause(rt);
    queue.recv(rt, &mut seat)?;
    Ok(())
}

// Takes a value and keeps its node, lets the others fall asleep, and then takes one and gives both nodes
// back.
fn gives_two_back<R: Wait + Clock, A: Algorithm<24>>(
    rt: &R,
    queue: &Sleeping<A>,
    mut seat: Seat,
) -> Result<(), Refusal> {
    seat.keep_nodes(true);
    queue.recv(rt, &mut seat)?;
    seat.keep_nodes(false);
    pause(rt);
    queue.recv(rt, &mut seat)?;
    Ok(())
}

// Two senders sleep beside a queue of so many nodes and this greatest count, which is full, and another
// thread lets them go on: what comes to each.
fn wakes_both<R: AllocGlobal + Abort + Threads + Wait + Clock + Sync, A: Algorithm<24> + Sync>(
    rt: &R,
    (nodes, limit): (u32, u64),
    wakes: fn(&R, &Sleeping<A>, Seat) -> Result<(), Refusal>,
    wanted: Result<bool, Refusal>,
) -> Result<(), Fail> {
    let (queue, mut seats) = ArenaQueue::<A>::new(rt.alloc(), nodes, limit, &THREE)?;
    let queue = &SharedQueue::new(Numbers::new(queue));
    let body = Body::new(7).ok_or(Refusal::BadSize)?;
    let (Some(a), Some(b), Some(mut c)) = (seats.pop(), seats.pop(), seats.pop()) else {
        return Err(Refusal::BadSize.into());
    };
    for _ in 1..nodes {
        queue.send(rt, &mut c, body)?;
    }
    let ((one, other), woken) = join(
        rt,
        || join(
            rt,
            || sends_late(rt, queue, a, body),
            || sends_late(rt, queue, b, body),
        ),
        || wakes(rt, queue, c),
    );
    same(
        rt,
        (one.0, other.0, woken),
        (wanted, wanted, Ok(())),
        (nodes, limit),
    );
    assert!(rt; one.1.max(other.1) < EARLY, "{} ms", one.1.max(other.1));
    Ok(())
}

/// A word that wears out is reported to both: with the greatest count 1 a pop wears Free out.
#[test]
fn two_are_told_of_a_worn_word(rt: HostRuntime) -> Result<(), Fail> {
    let worn = Err(Refusal::WornOut(WornWord::Free));
    wakes_both::<_, TwoLockAlgorithm>(&rt, (2, 1), pops_one, worn)?;
    wakes_both::<_, NonBlockingAlgorithm>(&rt, (2, 1), pops_one, worn)
}

/// A pop that gives back two nodes, of which its seat had kept one, wakes two.
#[test]
fn two_are_woken_by_two_nodes(rt: HostRuntime) -> Result<(), Fail> {
    wakes_both::<_, TwoLockAlgorithm>(&rt, (3, AMPLE), gives_two_back, Ok(true))?;
    wakes_both::<_, NonBlockingAlgorithm>(&rt, (3, AMPLE), gives_two_back, Ok(true))
}
