//! The pockets of seats, and seats that keep their nodes.
use super::calls::Told::{Back, Empty, Pop, Push};
use super::calls::{Told, go};
use super::comparisons::same;
use super::queues::{AMPLE, Made};
use arena_queue::{Algorithm, ArenaQueue};
use carriers::Numbers;
use history::Refusal::NoNode;
use node_arena::Role;
use nonblocking::NonBlockingAlgorithm;
use std::process::Abort;
use std::test::Fail;
use two_lock::TwoLockAlgorithm;

/// The node in a seat's pocket, and what is in the words 0 and 1: how many nodes were ever used, and Free.
type Seen = (Option<u32>, Option<u64>, Option<u64>);

/// The reference to node 1 with the count 1.
const NODE_1_COUNT_1: u64 = 1 + (1 << 24);

/// The reference to node 2 with the count 2.
const NODE_2_COUNT_2: u64 = 2 + (2 << 24);

/// A seat that keeps its nodes, on four of them: what each call leaves. A pop leaves the node that was the
/// dummy in the pocket, and the next push uses it, with no take. A second pop gives it back first, and so
/// does one that finds the queue empty.
const KEPT: [(Told, Seen); 9] = [
    (Push(1), (None, Some(2), Some(0))),
    (Pop(1, 1), (Some(1), Some(2), Some(0))),
    (Push(2), (None, Some(2), Some(0))),
    (Pop(1, 2), (Some(2), Some(2), Some(0))),
    (Push(3), (None, Some(2), Some(0))),
    (Push(4), (None, Some(3), Some(0))),
    (Pop(1, 3), (Some(1), Some(3), Some(0))),
    (Pop(1, 4), (Some(2), Some(3), Some(NODE_1_COUNT_1))),
    (Empty, (None, Some(3), Some(NODE_2_COUNT_2))),
];

/// On two nodes seat 2 keeps its nodes, and seat 1 only pushes: it finds no node, until the other one gives
/// it back at a pop that finds none.
const NOBODY_ELSES: [(usize, Told); 8] = [
    (2, Push(1)),
    (2, Pop(2, 1)),
    (1, Back(2, NoNode)),
    (2, Push(3)),
    (2, Pop(2, 3)),
    (1, Back(2, NoNode)),
    (2, Empty),
    (1, Push(2)),
];

// What each call of a seat that keeps its nodes leaves.
fn keeps<A: Algorithm<24>, R: AllocGlobal + Abort>(rt: &R) -> Result<(), Fail> {
    let (queue, mut seats) = Numbers::<ArenaQueue<A>>::made(rt.alloc(), 3, AMPLE, &[Role::Both])?;
    seats[0].keep_nodes(true);
    for (call, seen) in &KEPT {
        go(rt, &queue, &mut seats, &[(1, *call)])?;
        let held = seats[0].pocket().map(|held| held.node);
        let words = (queue.queue().peek(0), queue.queue().peek(1));
        same(rt, (held, words.0, words.1), *seen, *call);
    }
    Ok(())
}

/// A pop of a seat that keeps its nodes leaves one in the pocket, its next push uses it, and its next pop
/// gives it back.
#[test]
fn a_node_is_kept(rt: HostRuntime) -> Result<(), Fail> {
    keeps::<TwoLockAlgorithm, _>(&rt)?;
    keeps::<NonBlockingAlgorithm, _>(&rt)
}

fn keeps_from_others<A: Algorithm<24>, R: AllocGlobal + Abort>(rt: &R) -> Result<(), Fail> {
    let roles = [Role::Giver, Role::Both];
    let (queue, mut seats) = Numbers::<ArenaQueue<A>>::made(rt.alloc(), 1, AMPLE, &roles)?;
    seats[1].keep_nodes(true);
    go(rt, &queue, &mut seats, &NOBODY_ELSES)
}

/// A node that a seat keeps is nobody else's: another one finds none, until the seat gives it back.
#[test]
fn a_kept_node_is_nobody_elses(rt: HostRuntime) -> Result<(), Fail> {
    keeps_from_others::<TwoLockAlgorithm, _>(&rt)?;
    keeps_from_others::<NonBlockingAlgorithm, _>(&rt)
}

/// A seat keeps its nodes where it was told so last, and may push and pop; a new one doesn't.
#[test]
fn a_seat_keeps_its_nodes_where_it_is_told_to(rt: HostRuntime) -> Result<(), Fail> {
    for (role, keeps) in [
        (Role::Both, true),
        (Role::Giver, false),
        (Role::Taker, false),
    ] {
        let made = Numbers::<ArenaQueue<NonBlockingAlgorithm>>::made(rt.alloc(), 1, AMPLE, &[role]);
        let (_queue, mut seats) = made?;
        let before = seats[0].keeps_nodes();
        seats[0].keep_nodes(true);
        let told = seats[0].keeps_nodes();
        seats[0].keep_nodes(false);
        same(
            &rt,
            (before, told, seats[0].keeps_nodes()),
            (false, keeps, false),
            keeps,
        );
    }
    Ok(())
}

fn has_an_empty_pocket<A: Algorithm<24>, R: AllocGlobal + Abort>(rt: &R) -> Result<(), Fail> {
    for calls in [
        [(1, Push(1)), (1, Back(2, NoNode))],
        [(1, Push(1)), (1, Pop(1, 1))],
    ] {
        let made = Numbers::<ArenaQueue<A>>::made(rt.alloc(), 1, AMPLE, &[Role::Both]);
        let (queue, mut seats) = made?;
        go(rt, &queue, &mut seats, &calls)?;
        same(rt, seats[0].pocket(), None, "");
    }
    Ok(())
}

/// One node is always in the queue, so two nodes have room for one value: a push that finds no node keeps
/// none. A pop that nothing disturbs gives its node back.
#[test]
fn a_seat_keeps_no_node_unless_it_is_told_to(rt: HostRuntime) -> Result<(), Fail> {
    has_an_empty_pocket::<TwoLockAlgorithm, _>(&rt)?;
    has_an_empty_pocket::<NonBlockingAlgorithm, _>(&rt)
}
