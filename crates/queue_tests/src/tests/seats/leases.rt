//! Leased seats: that a dropped lease gives its seat back, and that a pool with a lease isn't taken apart.
use carriers::{ItemOf, Numbers};
use history::{Body, Close, Refusal, Taken};
use line_table::Kind;
use node_arena::Role;
use picked::PickedQueue;
use ring_queue::{RingQueue, Role as RingRole};
use seat_pool::{Part, SeatPool, Unparted};
use std::alloc::Global;
use std::sync::Wait;
use std::test::Fail;

// A pool of two seats: one pushes, the other one pops.
fn pool_of(alloc: Global, kind: Kind) -> Result<SeatPool<Numbers<PickedQueue>>, Refusal> {
    let roles = [Role::Giver, Role::Taker];
    let (queue, seats) = PickedQueue::new(alloc, kind, 8, &roles)?;
    SeatPool::new(alloc, Numbers::new(queue), seats)
}

// The same over a ring.
fn ring_pool_of(alloc: Global) -> Result<SeatPool<Numbers<RingQueue>>, Refusal> {
    let roles = [RingRole::Giver, RingRole::Taker];
    let (queue, seats) = RingQueue::new(alloc, 8, 1 << 40, &roles)?;
    SeatPool::new(alloc, Numbers::new(queue), seats)
}

/// While a seat is leased nobody else gets one of its part; once the lease is dropped the next one does.
#[test]
fn a_dropped_lease_gives_its_seat_back(rt: HostRuntime) -> Result<(), Fail> {
    for kind in [Kind::NonBlocking, Kind::TwoLock] {
        let pool = pool_of(rt.alloc(), kind)?;
        for _ in 0..3 {
            let lease = pool.lease(Part::Giver);
            let another = pool.lease(Part::Giver);
            assert_eq!(rt; (lease.is_some(), another.is_some()), (true, false));
        }
    }
    Ok(())
}

fn body_of(number: u64) -> Result<Body, Refusal> {
    Body::new(number).ok_or(Refusal::Lost)
}

// How many seats were leased as the pool was to be taken apart; what one lease popped that another one pushed, and how a push
// was refused behind its shut; what is left in the queue once both are given back.
type Told = (usize, Option<ItemOf<Body>>, Option<Refusal>, Option<Taken>);

fn told<R: Wait, Q: Close + Drop>(
    rt: &R,
    alloc: Global,
    pool: SeatPool<Numbers<Q>>,
) -> Result<Told, Refusal> {
    let (Some(mut giver), Some(mut taker)) = (pool.lease(Part::Giver), pool.lease(Part::Taker))
    else {
        return Err(Refusal::Lost);
    };
    giver.push(rt, body_of(5)?)?;
    giver.push(rt, body_of(6)?)?;
    giver.shut(rt)?;
    let refused = giver.push(rt, body_of(7)?).err().map(|it| it.refusal);
    let taken = taker.pop(rt)?;
    let (pool, out) = match pool.into_parts(alloc) {
        Err(Unparted::Leased(pool, out)) => (pool, out),
        _ => return Err(Refusal::Lost),
    };
    drop(giver);
    drop(taker);
    let Ok((queue, seats)) = pool.into_parts(alloc) else {
        return Err(Refusal::Lost);
    };
    let (mut rest, _) = queue.into_queue().close(alloc, seats)?;
    Ok((out, taken, refused, rest.next()))
}

/// A pool isn't taken apart while seats are leased, and says how many; then its queue closes by all its seats. So it is over a
/// ring too, whose end asks for all of them.
#[test]
fn a_pool_is_taken_apart_once_its_seats_are_back(rt: HostRuntime) -> Result<(), Fail> {
    let alloc = rt.alloc();
    let found = [
        told(&rt, alloc, pool_of(alloc, Kind::NonBlocking)?)?,
        told(&rt, alloc, pool_of(alloc, Kind::TwoLock)?)?,
        told(&rt, alloc, ring_pool_of(alloc)?)?,
    ];
    for (out, taken, refused, left) in found {
        let numbers = (
            taken.map(|it| it.value.number()),
            left.map(|it| it.body.number()),
        );
        assert_eq!(rt;
            (out, numbers, refused),
            (2, (Some(5), Some(6)), Some(Refusal::Closed))
        );
    }
    Ok(())
}
