//! Threads that come and go over few seats: each value is taken once, each giver's in order, and no seat is lost.
use super::threads::rounds;
use crate::tallies::Tally;
use crate::works::Work;
use carriers::Numbers;
use history::Close;
use line_table::Kind;
use node_arena::Role;
use picked::PickedQueue;
use seat_pool::{Part, SeatPool};
use std::alloc::Global;
use std::sync::Wait;
use std::test::Fail;
use std::thread;
use std::thread::Threads;

/// How often 64 threads come and go over a pool.
const ROUNDS: u64 = 2;

/// How many threads of a round push, and as many pop.
const PAIRS: u64 = 32;

/// How many values each of them pushes, or pops.
const VALUES: u64 = 1000;

/// How many seats push, and as many pop.
const SEATS: usize = 8;

// What the thread of this number does: it leases a seat, pushes or pops its values, gives the seat back and ends.
fn visits<R: Wait>(
    rt: &R,
    alloc: Global,
    pool: &SeatPool<Numbers<PickedQueue>>,
    number: u64,
) -> Tally {
    let (part, work) = if number.is_multiple_of(2) {
        (Part::Giver, Work::Pushes)
    } else {
        (Part::Taker, Work::Pops)
    };
    let mut lease = pool.lease_waiting(rt, part);
    rounds(rt, alloc, pool, &mut lease, number / 2, work, VALUES, true)
}

// Whether each value was taken once a round, in order, over a new queue of this kind, and all seats were back.
fn is_right<R: Threads + Wait + Sync>(rt: &R, alloc: Global, kind: Kind) -> Result<bool, Fail> {
    let mut roles = Vec::new(alloc);
    for _ in 0..SEATS {
        roles.push(Role::Giver)?;
        roles.push(Role::Taker)?;
    }
    let (queue, seats) = PickedQueue::new(alloc, kind, 256, &roles)?;
    let pool = SeatPool::new(alloc, Numbers::new(queue), seats)?;
    let mut right = true;
    for _ in 0..ROUNDS {
        let mut all = Tally::new();
        let threads = 2 * PAIRS as usize;
        let round = |number| visits(rt, alloc, &pool, number as u64);
        for tally in thread::map_indices(rt, alloc, threads, &round)? {
            all = all.with(&tally);
        }
        right = right && all.is_right(PAIRS * VALUES);
    }
    let Ok((queue, seats)) = pool.into_parts(alloc) else {
        return Ok(false);
    };
    let Ok((mut rest, _)) = queue.into_queue().close(alloc, seats) else {
        return Ok(false);
    };
    let all_back = rest.whole() && rest.taken() == ROUNDS * PAIRS * VALUES;
    Ok(right && all_back && rest.next().is_none())
}

/// Twice 32 threads that push and 32 that pop lease one of eight seats of their role, make 1,000 calls each and end.
#[test]
fn threads_that_come_and_go_lose_no_value_and_no_seat(rt: HostRuntime) -> Result<(), Fail> {
    for kind in [Kind::NonBlocking, Kind::TwoLock] {
        let right = is_right(&rt, rt.alloc(), kind)?;
        assert!(rt; right, "{kind:?}");
    }
    Ok(())
}
