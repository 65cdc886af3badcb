//! Threads that push and pop on one queue.
use super::comparisons::same;
use super::queues::{AMPLE, Left, Made};
use super::sleepers::sides::{Fate, Got, Opened, Receives, Sends};
use super::sleepers::stories::hands_over;
use super::values::{Numbered, Value};
use carriers::{Carrier, Numbers};
use history::Refusal;
use node_arena::Role;
use nonblocking::MsQueue;
use ring_queue::RingQueue;
use ring_values::{RingValues, RingWords};
use std::alloc::Global;
use std::process::Abort;
use std::sync::Wait;
use std::test::Fail;
use std::thread::{Threads, join};
use std::time::Clock;
use two_lock::TwoLockQueue;
use value_queue::MsValueQueue;

/// How many values each of two threads pushes that also pop, or that push on another queue.
pub const MOST: u64 = 1000;

/// How many bodies both push.
const ALL: usize = 2000;

/// How many values each of two threads pushes on a ring that don't pop; by hand 50,000,000.
const EACH: u64 = 20_000;

/// What a thread popped, as pushers and bodies, in its order.
type Popped = Vec<(u16, u64)>;

// Pushes 1 and so on to `MOST`, and pops after each push. A pop that finds the queue empty is answered by
// `Lost`.
fn rounds<R: Wait, C: Made>(
    rt: &R,
    alloc: Global,
    queue: &C,
    mut seat: C::Seat,
) -> Result<(C::Seat, Popped), Refusal> {
    let mut popped = Vec::new(alloc);
    for number in 1..=MOST {
        queue.push(rt, &mut seat, C::Item::made(alloc, number)?)?;
        let Some(item) = queue.pop(rt, &mut seat)? else {
            return Err(Refusal::Lost);
        };
        if popped.push((item.from, item.value.number())).is_err() {
            return Err(Refusal::Memory);
        }
    }
    Ok((seat, popped))
}

// Whether the bodies of each pusher rise.
fn rises(popped: &[(u16, u64)]) -> bool {
    let mut last = [0u64; 3];
    for (from, body) in popped {
        let from = usize::from(*from);
        if from >= 3 || *body <= last[from] {
            return false;
        }
        last[from] = *body;
    }
    true
}

// Whether both lists together have each body from 1 to 1,000 of pushers 1 and 2 just once.
fn are_each_once(one: &[(u16, u64)], other: &[(u16, u64)]) -> bool {
    let mut found = [0u8; ALL];
    for (from, body) in one.iter().chain(other.iter()) {
        let place = usize::from(*from)
            .wrapping_sub(1)
            .wrapping_mul(MOST as usize)
            .wrapping_add(*body as usize)
            .wrapping_sub(1);
        if place >= ALL || found[place] != 0 {
            return false;
        }
        found[place] = 1;
    }
    one.len().wrapping_add(other.len()) == ALL
}

// Two threads push and pop. Then the seats meet, and the queue is closed, with both of them or with one
// alone.
fn meets<R: AllocGlobal + Abort + Threads + Wait + Sync, C: Made + Sync>(
    rt: &R,
    with_both: bool,
) -> Result<(), Fail>
where
    C::Seat: Send,
{
    let alloc = rt.alloc();
    let (queue, mut seats) = C::made(alloc, 15, AMPLE, &[Role::Both, Role::Both])?;
    let (Some(other), Some(one)) = (seats.pop(), seats.pop()) else {
        return Err(Refusal::BadSize.into());
    };
    let (one, other) = join(
        rt,
        || rounds(rt, alloc, &queue, one),
        || rounds(rt, alloc, &queue, other),
    );
    let ((mut one, first), (mut other, second)) = (one?, other?);
    queue.meet(&mut one, &mut other);
    let in_order = rises(&first) && rises(&second);
    same(
        rt,
        (in_order, are_each_once(&first, &second)),
        (true, true),
        with_both,
    );
    seats.push(one)?;
    if with_both {
        seats.push(other)?;
    }
    let wanted = Left {
        taken: 2 * MOST,
        first: [None; 4],
        whole: with_both,
        was_shut: false,
    };
    same(rt, queue.leaves(alloc, seats)?, wanted, with_both);
    Ok(())
}

/// Two threads push and pop 1,000 times each: no pop finds the queue empty, each value is popped once, and
/// the bodies of each pusher rise. The rest is whole where both seats are handed in, and not where one alone
/// is.
#[test]
fn two_threads_pop_each_value_once(rt: HostRuntime) -> Result<(), Fail> {
    for with_both in [true, false] {
        meets::<_, Numbers<TwoLockQueue>>(&rt, with_both)?;
        meets::<_, Numbers<MsQueue>>(&rt, with_both)?;
        meets::<_, MsValueQueue<String>>(&rt, with_both)?;
    }
    Ok(())
}

/// A seat in a thread that tries again where its queue is full or empty, or others are in the way.
#[derive(Drop)]
struct Trying<'a, C: Carrier + Sync> {
    queue: &'a C,
    seat: C::Seat,
}

impl<'a, C: Made + Sync> Sends for Trying<'a, C> {
    type Value = C::Item;

    type Rest = Self;

    fn send<R: Wait>(&mut self, rt: &R, mut value: C::Item) -> Fate<C::Item> {
        for _ in rt.forever() {
            match self.queue.try_push(&mut self.seat, value, 8) {
                Ok(()) => return Fate::Sent,
                Err(unpushed) if matches!(unpushed.refusal, Refusal::NoNode | Refusal::Busy) => {
                    value = unpushed.value;
                }
                Err(unpushed) => return Fate::Back(unpushed.refusal, unpushed.value),
            }
        }
        unreachable!()
    }

    fn leave(self) -> Self {
        self
    }

    fn end<R: Wait>(rt: &R, one: Self, _other: Self) {
        let mut seat = one.seat;
        let _ = one.queue.shut(rt, &mut seat);
    }
}

impl<'a, C: Made + Sync> Receives for Trying<'a, C> {
    type Value = C::Item;

    fn recv_or_end<R: Wait>(&mut self, rt: &R) -> Got<C::Item> {
        for _ in rt.forever() {
            match self.queue.try_pop(&mut self.seat, 8) {
                Ok(Some(item)) => return Ok(Some((item.from, item.value))),
                Ok(None) | Err(Refusal::Busy) => {}
                Err(Refusal::Closed) => return Ok(None),
                Err(refusal) => return Err(refusal),
            }
        }
        unreachable!()
    }
}

// Two threads push so many values each and two pop, over a queue of this type.
fn hands_by_tries<R: AllocGlobal + Abort + Threads + Wait + Clock + Sync, C: Made + Sync>(
    rt: &R,
    each: u64,
) -> Result<(), Fail>
where
    C::Seat: Send,
{
    let roles = [Role::Giver, Role::Giver, Role::Taker, Role::Taker];
    let (queue, mut seats) = C::made(rt.alloc(), 16, AMPLE, &roles)?;
    let queue = &queue;
    let (Some(d), Some(c), Some(b), Some(a)) = (seats.pop(), seats.pop(), seats.pop(), seats.pop())
    else {
        return Err(Refusal::BadSize.into());
    };
    let opened = Opened {
        senders: (Trying { queue, seat: a }, Trying { queue, seat: b }),
        receivers: (Trying { queue, seat: c }, Trying { queue, seat: d }),
        rest: (),
    };
    hands_over(rt, rt.alloc(), opened, each)
}

/// Two threads push and two pop until the queue is shut: each value comes once, and those of each pusher in
/// order. Texts that one thread makes are taken, and dropped, by another.
#[test]
fn values_come_once_and_in_order(rt: HostRuntime) -> Result<(), Fail> {
    hands_by_tries::<_, Numbers<RingQueue>>(&rt, EACH)?;
    hands_by_tries::<_, Numbers<TwoLockQueue>>(&rt, MOST)?;
    hands_by_tries::<_, MsValueQueue<String>>(&rt, MOST)?;
    hands_by_tries::<_, RingValues<String>>(&rt, MOST)?;
    hands_by_tries::<_, RingWords<1>>(&rt, MOST)?;
    hands_by_tries::<_, RingWords<3>>(&rt, MOST)
}
