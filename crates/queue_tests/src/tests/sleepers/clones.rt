//! A sender whose seat is leased gives further ones, and so does a receiver; the channel ends as the last of a side is dropped.
use super::sides::{AMPLE, Opened, ReceivesInTime};
use super::stories::{EACH, PAUSE, hands_over, millis};
use crate::tests::values::Numbered;
use carriers::{Carrier, Numbers};
use history::{Body, Refusal};
use node_arena::Role;
use nonblocking::MsQueue;
use seat_pool::{Lease, Part, SeatPool};
use shared_queue::{Receiver, Sender, SharedQueue, receivers, senders};
use std::alloc::Global;
use std::process::Abort;
use std::sync::{Arc, Wait};
use std::test::Fail;
use std::thread::Threads;
use std::time::Clock;
use two_lock::TwoLockQueue;
use value_queue::MsValueQueue;

/// A seat that pushes for each closer, three for senders, and three that pop.
const EIGHT: [Role; 8] = [
    Role::Giver,
    Role::Giver,
    Role::Giver,
    Role::Giver,
    Role::Giver,
    Role::Taker,
    Role::Taker,
    Role::Taker,
];

// The seats of a new side of this pool: one of this part, and its closer.
fn side<C: Carrier + Send + Sync + Drop>(
    alloc: Global,
    pool: &SeatPool<C>,
    part: Part,
) -> Result<(Lease<C>, Vec<Lease<C>>), Refusal> {
    let (Some(closer), Some(seat)) = (pool.lease(Part::Giver), pool.lease(part)) else {
        return Err(Refusal::BadSize);
    };
    let mut seats = Vec::new(alloc);
    if seats.push(seat).is_err() {
        return Err(Refusal::Memory);
    }
    Ok((closer, seats))
}

// The first sender and the first receiver of a queue whose seats are leased.
fn opened<C: Carrier + Send + Sync + Drop>(
    alloc: Global,
    queue: C,
    seats: Vec<C::Seat>,
) -> Result<(Sender<SeatPool<C>>, Receiver<SeatPool<C>>), Refusal> {
    let pool = SeatPool::new(alloc, queue, seats)?;
    let Some(shared) = pool.share() else {
        return Err(Refusal::Memory);
    };
    let Ok(queue) = Arc::new(alloc, SharedQueue::new(shared)) else {
        return Err(Refusal::Memory);
    };
    let (closer, seats) = side(alloc, &pool, Part::Giver)?;
    let mut senders = senders(alloc, &queue, closer, seats)?;
    let (closer, seats) = side(alloc, &pool, Part::Taker)?;
    let mut receivers = receivers(alloc, &queue, closer, seats)?;
    let sender = senders.pop().ok_or(Refusal::BadSize)?;
    let receiver = receivers.pop().ok_or(Refusal::BadSize)?;
    Ok((sender, receiver))
}

// The body of the next value that this receiver takes; none where none comes in time.
fn next_body<R: Wait + Clock, V: ReceivesInTime>(
    rt: &R,
    receiver: &mut V,
) -> Result<Option<u64>, Refusal> {
    Ok(
        receiver
            .recv_in(rt, millis(PAUSE))?
            .map(|(_, value)| value.number()),
    )
}

fn ends_by_the_last_clone<
    R: Abort + Wait + Clock,
    C: Carrier<Item = Body, Seat: Sync> + Send + Sync + Drop,
>(rt: &R, alloc: Global, queue: C, seats: Vec<C::Seat>) -> Result<(), Fail> {
    let (mut sender, mut receiver) = opened(alloc, queue, seats)?;
    let (Some(one), Some(two)) = (Body::new(1), Body::new(2)) else {
        return Err(Refusal::BadSize.into());
    };
    let Some(mut other) = sender.try_clone() else {
        return Err(Refusal::BadSize.into());
    };
    assert_eq!(rt; (sender.count(), receiver.count()), (2, 1));
    sender.send(rt, one)?;
    other.send(rt, two)?;
    let (first, second) = (receiver.recv(rt)?, receiver.recv(rt)?);
    assert!(rt; first.from != second.from, "a clone has a seat of its own");
    drop(sender);
    assert_eq!(rt; other.count(), 1);
    assert_eq!(rt; next_body(rt, &mut receiver), Ok(None), "a clone is left");
    other.send(rt, one)?;
    drop(other);
    assert_eq!(rt;
        next_body(rt, &mut receiver),
        Ok(Some(1)),
        "what was sent is left"
    );
    assert_eq!(rt;
        next_body(rt, &mut receiver),
        Err(Refusal::Closed),
        "the last clone has ended it"
    );
    Ok(())
}

fn runs_out_of_seats<R: Abort, C: Carrier + Send + Sync + Drop>(
    rt: &R,
    alloc: Global,
    queue: C,
    seats: Vec<C::Seat>,
) -> Result<(), Fail> {
    let (sender, receiver) = opened(alloc, queue, seats)?;
    let (a, b) = (sender.try_clone(), sender.try_clone());
    assert!(rt; a.is_some() && b.is_some() && receiver.try_clone().is_some());
    assert!(rt;
        sender.try_clone().is_none(),
        "each seat that pushes is leased"
    );
    assert_eq!(rt; sender.count(), 3, "what isn't cloned doesn't count");
    drop(a);
    assert!(rt;
        sender.try_clone().is_some(),
        "a dropped handle gave its seat back"
    );
    Ok(())
}

fn ends_on_threads<
    R: Abort + Threads + Wait + Clock + Sync,
    C: Carrier<Item = Body, Seat: Sync> + Sync + Send + Drop,
>(rt: &R, alloc: Global, queue: C, seats: Vec<C::Seat>) -> Result<(), Fail> {
    let (sender, receiver) = opened(alloc, queue, seats)?;
    let (Some(other), Some(second)) = (sender.try_clone(), receiver.try_clone()) else {
        return Err(Refusal::BadSize.into());
    };
    assert_eq!(rt; (sender.count(), receiver.count()), (2, 2));
    let opened = Opened {
        senders: (sender, other),
        receivers: (receiver, second),
        rest: (),
    };
    hands_over(rt, alloc, opened, EACH)
}

#[test]
fn the_last_clone_ends_it(rt: HostRuntime) -> Result<(), Fail> {
    let alloc = rt.alloc();
    let (queue, seats) = MsQueue::new(alloc, 16, AMPLE, &EIGHT)?;
    ends_by_the_last_clone(&rt, alloc, Numbers::new(queue), seats)?;
    let (queue, seats) = TwoLockQueue::new(alloc, 16, AMPLE, &EIGHT)?;
    ends_by_the_last_clone(&rt, alloc, Numbers::new(queue), seats)?;
    let (queue, seats) = MsValueQueue::new(alloc, 16, AMPLE, &EIGHT)?;
    ends_by_the_last_clone(&rt, alloc, queue, seats)
}

#[test]
fn there_are_as_many_clones_as_seats(rt: HostRuntime) -> Result<(), Fail> {
    let alloc = rt.alloc();
    let (queue, seats) = MsQueue::new(alloc, 16, AMPLE, &EIGHT)?;
    runs_out_of_seats(&rt, alloc, Numbers::new(queue), seats)?;
    let (queue, seats) = TwoLockQueue::new(alloc, 16, AMPLE, &EIGHT)?;
    runs_out_of_seats(&rt, alloc, Numbers::new(queue), seats)
}

#[test]
fn clones_in_threads_end_it(rt: HostRuntime) -> Result<(), Fail> {
    let alloc = rt.alloc();
    let (queue, seats) = MsQueue::new(alloc, 16, AMPLE, &EIGHT)?;
    ends_on_threads(&rt, alloc, Numbers::new(queue), seats)?;
    let (queue, seats) = TwoLockQueue::new(alloc, 16, AMPLE, &EIGHT)?;
    ends_on_threads(&rt, alloc, Numbers::new(queue), seats)?;
    let (queue, seats) = MsValueQueue::new(alloc, 16, AMPLE, &EIGHT)?;
    ends_on_threads(&rt, alloc, queue, seats)
}
