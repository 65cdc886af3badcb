//! Calls by shares of a queue, in one piece and stepped: what they do to the words of calls, of which no clause speaks.
use super::comparisons::same;
use super::queues::Made;
use Asks::{PopInOne, PushInOne, Stepped};
use Came::{Rest, Told, Wakes};
use calls::{Act, Bell, Code, Phase, Task, start};
use carriers::Carrier;
use history::Refusal;
use node_arena::Role;
use ring_values::RingValues;
use shared_queue::{Asked, Share, SteppedQueue, Tried, deal};
use std::process::Abort;
use std::sync::Arc;
use std::test::Fail;
use value_queue::{MsValueQueue, TwoLockValueQueue};

/// How often a step is made at most.
const STEPS: u32 = 64;

/// A call by a share.
#[derive(Clone, Copy, Debug)]
enum Asks {
    PushInOne(u64),
    PopInOne,
    Stepped(Task, Option<u64>),
}

/// What a call came to.
#[derive(Clone, Copy, Debug, PartialEq)]
enum Came {
    Told(Code, Option<u64>),
    Wakes(Bell, Phase, Option<u64>),
    Rest(Phase, Option<u64>),
    /// It told this, after it did that.
    After(Act, Code, Option<u64>),
}

/// Room for two is exact, by both sorts of calls.
const ROOM: [(usize, Asks, Came); 9] = [
    (0, PopInOne, Told(Code::Nothing, None)),
    (0, PushInOne(1), Told(Code::Done, None)),
    (1, PushInOne(2), Told(Code::Done, None)),
    (0, PushInOne(3), Told(Code::Nothing, Some(3))),
    (0, PopInOne, Told(Code::Done, Some(1))),
    (1, Stepped(Task::Push, Some(4)), Told(Code::Done, None)),
    (1, PushInOne(5), Told(Code::Nothing, Some(5))),
    (0, Stepped(Task::Pop, None), Told(Code::Done, Some(2))),
    (1, PopInOne, Told(Code::Done, Some(4))),
];

/// Somebody listens for values: a push wakes it, and a pop nobody.
const FOR_VALUES: [(usize, Asks, Came); 2] = [
    (0, PushInOne(1), Wakes(Bell::Values, Phase::Finished, None)),
    (1, PopInOne, Told(Code::Done, Some(1))),
];

/// And for room.
const FOR_ROOM: [(usize, Asks, Came); 2] = [
    (1, PushInOne(2), Wakes(Bell::Values, Phase::Finished, None)),
    (0, PopInOne, Wakes(Bell::Room, Phase::Finished, Some(2))),
];

/// A shut ends pushes at once, and pops once nothing is left.
const SHUT: [(usize, Asks, Came); 6] = [
    (0, PushInOne(1), Told(Code::Done, None)),
    (0, Stepped(Task::Shut, None), Told(Code::Done, None)),
    (1, PushInOne(2), Told(Code::Closed, Some(2))),
    (1, Stepped(Task::Push, Some(2)), Told(Code::Closed, Some(2))),
    (1, PopInOne, Told(Code::Done, Some(1))),
    (0, PopInOne, Told(Code::Closed, None)),
];

/// With the greatest count 1 one value goes through: who finds a word worn out then has all to tell, and a push has a place to give
/// back.
const WORN: [(usize, Asks, Came); 4] = [
    (0, PushInOne(1), Told(Code::Done, None)),
    (0, PopInOne, Told(Code::Done, Some(1))),
    (0, PushInOne(2), Rest(Phase::GivesBack, Some(2))),
    (1, PopInOne, Rest(Phase::Rings, None)),
];

/// The last bell whose sleepers it wakes is that of room.
const WORN_FOR_ALL: [(usize, Asks, Came); 1] = [(
    1,
    Stepped(Task::Pop, None),
    Came::After(Act::WakeAll(Bell::Room), Code::Worn, None),
)];

// What a try of this task came to, with this value.
fn came(tried: Tried, task: Task, value: Option<u64>) -> Came {
    let phase = tried.call(task).phase;
    match tried {
        Tried::Told(code) => Told(code, value),
        Tried::Wakes(bell) => Wakes(bell, phase, value),
        Tried::Rest(_) | Tried::AtPlace(_) => Rest(phase, value),
    }
}

// Steps a new call until it tells.
fn stepped<C: Carrier<Item = u64> + Drop>(
    share: &mut Share<C>,
    task: Task,
    value: Option<u64>,
) -> Came {
    let mut asked = Asked {
        call: start(task, true),
        value,
        heard: 0,
    };
    let mut last = None;
    for _ in 0..STEPS {
        match (share.step(&mut asked, true), last) {
            (Act::Tell(code), None) => return Told(code, asked.value),
            (Act::Tell(code), Some(act)) => return Came::After(act, code, asked.value),
            (act, _) => last = Some(act),
        }
    }
    Rest(asked.call.phase, asked.value)
}

// Makes these calls, each by one of these shares.
fn go<C: Carrier<Item = u64> + Drop, R: Abort>(
    rt: &R,
    shares: &mut [Share<C>],
    calls: &[(usize, Asks, Came)],
) {
    for (who, asks, wanted) in calls {
        let share = &mut shares[*who];
        let found = match *asks {
            PushInOne(number) => {
                let mut value = Some(number);
                came(share.try_push(&mut value), Task::Push, value)
            }
            PopInOne => {
                let mut value = None;
                came(share.try_pop(&mut value), Task::Pop, value)
            }
            Stepped(task, value) => stepped(share, task, value),
        };
        same(rt, found, *wanted, (*who, *asks));
    }
}

// Two shares of a queue with room for two values.
fn shares<C: Made + Carrier<Item = u64>, R: AllocGlobal>(
    rt: &R,
    room: u32,
    limit: u64,
) -> Result<Vec<Share<C>>, Refusal> {
    let (queue, seats) = C::made(rt.alloc(), room, limit, &[Role::Both; 2])?;
    deal(rt.alloc(), SteppedQueue::new(queue, 2, room > 2), seats)
}

fn goes<C: Made + Carrier<Item = u64>, R: AllocGlobal + Abort>(
    rt: &R,
    room: u32,
) -> Result<(), Fail> {
    let mut made = shares::<C, R>(rt, room, 1000)?;
    for _ in 0..5 {
        go(rt, &mut made, &ROOM);
    }
    made[0].queue().listen(Bell::Values);
    go(rt, &mut made, &FOR_VALUES);
    made[0].queue().listen(Bell::Room);
    go(rt, &mut made, &FOR_ROOM);
    let mut made = shares::<C, R>(rt, room, 1000)?;
    go(rt, &mut made, &SHUT);
    Ok(())
}

/// Of lists that hold more than there is room for, and of a ring that holds just so many.
#[test]
fn room_is_exact_and_bells_ring(rt: HostRuntime) -> Result<(), Fail> {
    goes::<TwoLockValueQueue<u64>, _>(&rt, 4)?;
    goes::<MsValueQueue<u64>, _>(&rt, 4)?;
    goes::<RingValues<u64>, _>(&rt, 2)
}

/// Who finds a word worn out has all to tell, of both bells.
#[test]
fn a_worn_queue_is_told_to_all(rt: HostRuntime) -> Result<(), Fail> {
    let mut made = shares::<TwoLockValueQueue<u64>, _>(&rt, 4, 1)?;
    go(&rt, &mut made, &WORN);
    made[0].queue().listen(Bell::Values);
    made[0].queue().listen(Bell::Room);
    go(&rt, &mut made, &WORN_FOR_ALL);
    Ok(())
}

/// A share comes apart into the queue, which the last one has alone, and its seat.
#[test]
fn shares_come_apart(rt: HostRuntime) -> Result<(), Fail> {
    let mut made = shares::<MsValueQueue<u64>, _>(&rt, 4, 1000)?;
    go(&rt, &mut made, &[(0, PushInOne(7), Told(Code::Done, None))]);
    let mut seats = Vec::new(rt.alloc());
    let mut last = None;
    for share in made {
        let (queue, seat) = share.into_parts();
        if seats.push(seat).is_err() {
            return Err(Refusal::Memory.into());
        }
        last = Some(queue);
    }
    let queue = last.ok_or(Refusal::BadSize)?;
    let Ok(queue) = Arc::try_unwrap(queue) else {
        return Err(Refusal::Busy.into());
    };
    let left = queue.into_inner().leaves(rt.alloc(), seats)?;
    same(&rt, left.first[0], Some((1, 7)), 7);
    Ok(())
}
