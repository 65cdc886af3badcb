//! What a seat sees of its queue without taking anything.
use super::calls::Told::{Back, Empty, Pop, Push, Shut};
use super::calls::{Told, go};
use super::comparisons::same;
use super::queues::{AMPLE, Made};
use carriers::{Carrier, Numbers};
use history::Refusal::Closed;
use node_arena::{Emptiness, Role};
use nonblocking::MsQueue;
use ring_queue::RingQueue;
use ring_values::RingValues;
use std::process::Abort;
use std::test::Fail;
use two_lock::TwoLockQueue;

/// Whether a queue is empty, and both bounds of its length, where it tells them.
type Seen = (Emptiness, Option<(u64, u64)>);

/// A queue that is looked at.
trait Looked: Made {
    /// What a seat sees of it.
    fn look(&self, seat: &mut Self::Seat) -> Seen;
}

impl Looked for Numbers<TwoLockQueue> {
    // It is an `ArenaQueue` that doesn't tell how long it is.
    fn look(&self, seat: &mut Self::Seat) -> Seen {
        (self.queue().emptiness(seat), None)
    }
}

impl Looked for Numbers<MsQueue> {
    fn look(&self, seat: &mut Self::Seat) -> Seen {
        let found = self.queue().emptiness(seat);
        let len = self.queue().len(seat);
        (found, Some((len.least, len.most)))
    }
}

impl Looked for Numbers<RingQueue> {
    fn look(&self, seat: &mut Self::Seat) -> Seen {
        let found = self.queue().emptiness(seat);
        let len = self.queue().len(seat);
        (found, Some((len.least, len.most)))
    }
}

impl Looked for RingValues<u64> {
    fn look(&self, seat: &mut Self::Seat) -> Seen {
        let found = self.emptiness(seat);
        let len = self.len(seat);
        (found, Some((len.least, len.most)))
    }
}

// A seat makes a call, and both see this then.
fn is_seen<C: Looked, R: AllocGlobal + Abort>(
    rt: &R,
    queue: &C,
    seats: &mut [C::Seat],
    call: (usize, Told),
    (found, length): (Emptiness, u64),
) -> Result<(), Fail> {
    go(rt, queue, seats, &[call])?;
    for seat in seats {
        let seen = queue.look(seat);
        let bounds = seen.1.map(|_| (length, length));
        same(rt, seen, (found, bounds), call);
    }
    Ok(())
}

fn tells<C: Looked, R: AllocGlobal + Abort>(rt: &R) -> Result<(), Fail> {
    let (none, some, end) = (Emptiness::Empty, Emptiness::Holds, Emptiness::ShutEmpty);
    let (queue, mut seats) = C::made(rt.alloc(), 8, AMPLE, &[Role::Both; 2])?;
    let seats = &mut seats[..];
    is_seen(rt, &queue, seats, (2, Empty), (none, 0))?;
    is_seen(rt, &queue, seats, (1, Push(1)), (some, 1))?;
    is_seen(rt, &queue, seats, (2, Push(2)), (some, 2))?;
    is_seen(rt, &queue, seats, (1, Pop(1, 1)), (some, 1))?;
    is_seen(rt, &queue, seats, (1, Pop(2, 2)), (none, 0))?;
    for number in 1..=7 {
        is_seen(rt, &queue, seats, (1, Push(number)), (some, number))?;
    }
    is_seen(rt, &queue, seats, (2, Pop(1, 1)), (some, 6))?;
    is_seen(rt, &queue, seats, (2, Shut), (some, 6))?;
    is_seen(rt, &queue, seats, (1, Back(8, Closed)), (some, 6))?;
    for number in 2..=6 {
        is_seen(rt, &queue, seats, (2, Pop(1, number)), (some, 7 - number))?;
    }
    is_seen(rt, &queue, seats, (2, Pop(1, 7)), (end, 0))?;
    is_seen(rt, &queue, seats, (1, Back(8, Closed)), (end, 0))
}

/// A seat that nobody disturbs sees whether its queue is empty, and whether it is then shut; and its length,
/// unless it is a two-lock queue. A push behind the shut claims no place, and a look takes no value.
#[test]
fn a_look_tells_what_is_there(rt: HostRuntime) -> Result<(), Fail> {
    tells::<Numbers<TwoLockQueue>, _>(&rt)?;
    tells::<Numbers<MsQueue>, _>(&rt)?;
    tells::<Numbers<RingQueue>, _>(&rt)?;
    tells::<RingValues<u64>, _>(&rt)
}

/// With the greatest count 1 Tail is raised once, to the node of the first push, and stays there at the
/// second one, whose node stands behind it: a seat sees both.
#[test]
fn a_look_goes_on_behind_tail(rt: HostRuntime) -> Result<(), Fail> {
    let (queue, mut seats) = Numbers::<MsQueue>::made(rt.alloc(), 3, 1, &[Role::Both])?;
    let some = Emptiness::Holds;
    is_seen(&rt, &queue, &mut seats, (1, Push(1)), (some, 1))?;
    is_seen(&rt, &queue, &mut seats, (1, Push(2)), (some, 2))?;
    is_seen(&rt, &queue, &mut seats, (1, Pop(1, 1)), (some, 1))
}

/// A ring of values tells how many pushes are left: 16 places of 116 are its first lap. A push behind the
/// shut takes none.
#[test]
fn a_look_tells_how_many_pushes_are_left(rt: HostRuntime) -> Result<(), Fail> {
    let (queue, mut seats) = RingValues::<u64>::made(rt.alloc(), 8, 116, &[Role::Both; 2])?;
    same(&rt, queue.left(&mut seats[0]), 100, "a new one");
    for number in 0..7 {
        go(&rt, &queue, &mut seats, &[(1, Push(number))])?;
    }
    same(&rt, queue.left(&mut seats[1]), 93, "seven pushes");
    go(
        &rt,
        &queue,
        &mut seats,
        &[(2, Pop(1, 0)), (2, Shut), (1, Back(7, Closed))],
    )?;
    same(
        &rt,
        (queue.left(&mut seats[0]), queue.left(&mut seats[1])),
        (93, 93),
        "shut",
    );
    Ok(())
}
