//! Threads that take and give back nodes of one arena, until each node is found exactly once.
use crate::free_nodes::{all_rounds, seats_of};
use free_list::take;
use node_arena::{Arena, MOST_COUNT, Role, Seat};
use std::test::Fail;

// How often these seats take each of nodes 0 to 9.
fn found(arena: &Arena, seats: Vec<Seat>) -> [u32; 10] {
    let mut found = [0u32; 10];
    for mut seat in seats {
        if let Ok(held) = take(arena, &mut seat, 8) {
            found[held.node as usize] += 1;
        }
    }
    found
}

/// Four threads take a node and give it back 250,000 times each; then eight seats take the eight nodes, each of which comes once.
#[test]
fn each_node_is_found_once(rt: HostRuntime) -> Result<(), Fail> {
    let (arena, mut rest) = seats_of(rt.alloc(), 9, MOST_COUNT, &[Role::Both; 8]).expect(
        &rt, "an arena",
    );
    let mut used = Vec::new(rt.alloc());
    for _ in 0..4 {
        used.push(rest.pop().expect(&rt, "a seat"))?;
    }
    let mut seats = all_rounds(&rt, rt.alloc(), &arena, used, 250_000).expect(&rt, "the seats");
    for seat in rest {
        seats.push(seat)?;
    }
    assert_eq!(rt;
        found(&arena, seats),
        [0, 0, 1, 1, 1, 1, 1, 1, 1, 1],
        "the nodes"
    );
    Ok(())
}

/// After a thousand rounds of each of two threads, one thread takes nodes 2 and 3 by both seats.
#[test]
fn two_threads_leave_each_node_once(rt: HostRuntime) -> Result<(), Fail> {
    let (arena, seats) = seats_of(rt.alloc(), 3, 100_000, &[Role::Both; 2]).expect(&rt, "an arena");
    let seats = all_rounds(&rt, rt.alloc(), &arena, seats, 1_000).expect(&rt, "the seats");
    assert_eq!(rt;
        found(&arena, seats),
        [0, 0, 1, 1, 0, 0, 0, 0, 0, 0],
        "the nodes"
    );
    Ok(())
}
