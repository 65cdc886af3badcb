//! The shared words of a shut queue where 16, 24 or 32 bits of a reference hold the number of a node.
use super::calls::Told::{Back, NoPop, NoShut, Pop, Push, Shut};
use super::calls::{Told, go};
use super::comparisons::same;
use super::queues::{AMPLE, Made};
use arena_queue::{Algorithm, ArenaQueueOf};
use carriers::Numbers;
use history::Refusal::Closed;
use node_arena::{Held, Role};
use nonblocking::NonBlockingAlgorithm;
use std::process::Abort;
use std::test::Fail;
use two_lock::TwoLockAlgorithm;

/// Seat 1 pushes and shuts the queue, and seat 2 takes to the end.
const CALLS: [(usize, Told); 6] = [
    (1, Push(5)),
    (1, Shut),
    (1, Back(6, Closed)),
    (1, NoShut(Closed)),
    (2, Pop(1, 5)),
    (2, NoPop(Closed)),
];

/// The bodies 5 and 6 of seat 1.
const FIVE: u64 = 281_474_976_710_661;

const SIX: u64 = 281_474_976_710_662;

// The word of a reference.
fn reference(bits: u32, node: u64, count: u64) -> u64 {
    node + (count << bits)
}

// The words of three nodes after these calls: the closed end stands in node 2, where Head and Tail are, node
// 1 is free, both locks are too, and node 3 has the body that isn't pushed. A two-lock queue counts no `next`
// and no Tail, a non-blocking one counts 1.
fn words_of(bits: u32, count: u64) -> [u64; 12] {
    [
        3,
        reference(bits, 1, 1),
        reference(bits, 2, 1),
        reference(bits, 2, count),
        0,
        0,
        reference(bits, 0, count),
        0,
        reference(bits, (1 << bits) - 1, count),
        FIVE,
        0,
        SIX,
    ]
}

// A push that finds the queue shut keeps its node in the pocket, and a shut leaves it there.
fn is_shut_so<A: Algorithm<B>, R: AllocGlobal + Abort, const B: u32>(
    rt: &R,
    count: u64,
) -> Result<(), Fail> {
    let roles = [Role::Giver, Role::Taker];
    let (queue, mut seats) = Numbers::<ArenaQueueOf<A, B>>::made(rt.alloc(), 2, AMPLE, &roles)?;
    go(rt, &queue, &mut seats, &CALLS)?;
    let pockets = (seats[0].pocket(), seats[1].pocket());
    same(rt, pockets, (Some(Held { node: 3, mark: 0 }), None), B);
    for (index, word) in words_of(B, count).iter().enumerate() {
        same(rt, queue.queue().peek(index), Some(*word), (B, index));
    }
    Ok(())
}

/// The closed end stands behind the last node, in the non-blocking queue with its count.
#[test]
fn the_words_of_a_shut_queue(rt: HostRuntime) -> Result<(), Fail> {
    is_shut_so::<TwoLockAlgorithm, _, 16>(&rt, 0)?;
    is_shut_so::<TwoLockAlgorithm, _, 24>(&rt, 0)?;
    is_shut_so::<TwoLockAlgorithm, _, 32>(&rt, 0)?;
    is_shut_so::<NonBlockingAlgorithm, _, 16>(&rt, 1)?;
    is_shut_so::<NonBlockingAlgorithm, _, 24>(&rt, 1)?;
    is_shut_so::<NonBlockingAlgorithm, _, 32>(&rt, 1)
}
