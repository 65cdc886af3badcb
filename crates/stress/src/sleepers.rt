//! Threads that sleep for values, and pushes of a queue of which nobody sleeps.
ghost use Rattle.std.specs.List.{All};
ghost use Rattle.shared_queue.specs.Queues.{numbers_in};
ghost use Rattle.stress.specs.Sleepers.{CanSend, CanReceive};

use carriers::{Bodies, Carrier, Numbers};
use history::{Body, Fifo, Refusal};
use line_table::Kind;
use node_arena::{MOST_COUNT, Role};
use nonblocking::MsQueue;
use shared_queue::SharedQueue;
use std::alloc::Global;
use std::sync::Wait;
use std::thread;
use std::thread::{Threads, join};
use std::time::{Clock, Duration, Instant};
use two_lock::TwoLockQueue;

/// What threads do over a queue, and what is told of it.
#[derive(Clone, Copy)]
pub enum Task {
    /// One sends so many values to another one, which sleeps: how many nanoseconds each was under way.
    Wake,
    /// Eight sleep for so many milliseconds: how many of them were then told of the shut.
    Idle,
    /// One pushes so many values on the queue itself: how many nanoseconds that took.
    Plain,
    /// One pushes so many values while nobody sleeps: how many nanoseconds that took.
    Blocking,
}

/// The pause before each value, in microseconds.
const PAUSE: u64 = 200;

/// Eight who pop, and one who pushes.
const ROLES: [Role; 9] = [
    Role::Taker,
    Role::Taker,
    Role::Taker,
    Role::Taker,
    Role::Taker,
    Role::Taker,
    Role::Taker,
    Role::Taker,
    Role::Giver,
];

/// The nodes of a queue whose values are taken as they come.
const FEW_NODES: u32 = 65;

/// The turns of a push.
const TURNS: u32 = 8;

impl Task {
    /// The task of this name.
    pub fn named(name: &str) -> Option<Task> {
        match name {
            "wake" => Some(Task::Wake),
            "idle" => Some(Task::Idle),
            "plain" => Some(Task::Plain),
            "blocking" => Some(Task::Blocking),
            _ => None,
        }
    }

    // The nodes of its queue: room for all values, where none is taken.
    fn nodes(self, count: u32) -> u32 {
        match self {
            Task::Wake | Task::Idle => FEW_NODES,
            Task::Plain | Task::Blocking => count.saturating_add(FEW_NODES),
        }
    }
}

// The nanoseconds since then, as far as a body holds them.
fn since<R: Clock>(rt: &R, start: Instant) -> Option<u64> {
    let nanoseconds = u64::try_from(start.elapsed(rt).ok()?.as_nanos()).ok()?;
    Some(nanoseconds & 0xffff_ffff_ffff)
}

// Sends so many values, and then shuts the queue. A value is the time at which it is sent.
fn send_all<R: Wait + Clock, Q: Fifo>(
    rt: &R,
    queue: &SharedQueue<Numbers<Q>>,
    mut seat: Q::Seat,
    start: Instant,
    count: u32,
)
    requires { CanSend Q.is_seat Q.permits Q.known (numbers_in queue.now) seat }
{
    for _ in 0..count {
        let _ = thread::sleep(rt, Duration::from_micros(PAUSE));
        let Some(body) = since(rt, start).and_then(Body::new) else {
            break;
        };
        if queue.send(rt, &mut seat, body).is_err() {
            break;
        }
    }
    let _ = queue.shut(rt, &mut seat);
}

// How long each value was under way, until the queue is shut; none where memory or the clock is refused.
fn receive_all<R: Wait + Clock, Q: Fifo>(
    rt: &R,
    alloc: Global,
    queue: &SharedQueue<Numbers<Q>>,
    mut seat: Q::Seat,
    start: Instant,
) -> Option<Vec<u64>>
    requires { CanReceive Q.is_seat Q.permits Q.known (numbers_in queue.now) seat }
{
    let mut times = Vec::new(alloc);
    for _ in rt.forever() {
        let Ok(front) = queue.recv(rt, &mut seat) else {
            break;
        };
        let time = since(rt, start)?.wrapping_sub(front.value.number());
        times.push(time).ok()?;
    }
    Some(times)
}

// How many nanoseconds each of so many values was under way from one thread to another one, which sleeps.
fn hand_over<R: Threads + Wait + Clock + Sync, Q: Fifo + Sync>(
    rt: &R,
    alloc: Global,
    queue: &SharedQueue<Numbers<Q>>,
    giver: Q::Seat,
    taker: Q::Seat,
    count: u32,
) -> Option<Vec<u64>>
    requires giver { CanSend Q.is_seat Q.permits Q.known (numbers_in queue.now) giver }
    requires taker { CanReceive Q.is_seat Q.permits Q.known (numbers_in queue.now) taker }
{
    let start = Instant::now(rt).ok()?;
    let (times, ()) = join(
        rt,
        || -> Option<Vec<u64>>
            requires { CanReceive Q.is_seat Q.permits Q.known (numbers_in queue.now) taker }
        { receive_all(rt, alloc, queue, taker, start) },
        || -> ()
            requires { CanSend Q.is_seat Q.permits Q.known (numbers_in queue.now) giver }
        { send_all(rt, queue, giver, start, count) },
    );
    times
}

// Sleeps so long and shuts the queue by a seat that may push; by another one it sleeps for a value, and tells by 1 that the queue
// was shut instead.
fn idles<R: Wait + Clock, Q: Fifo>(
    rt: &R,
    queue: &SharedQueue<Numbers<Q>>,
    mut seat: Q::Seat,
    time: Duration,
) -> u64
    requires { Q.is_seat (numbers_in queue.now) seat }
{
    if queue.may_push(&seat) {
        let _ = thread::sleep(rt, time);
        let _ = queue.shut(rt, &mut seat);
        return 0;
    }
    let is_told = queue.may_pop(&seat) && queue.recv(rt, &mut seat) == Err(Refusal::Closed);
    u64::from(is_told)
}

// How many threads were told that the queue is shut, which each slept for a value by a seat of its own, for this time.
fn idle<R: Threads + Wait + Clock + Sync, Q: Fifo + Sync>(
    rt: &R,
    queue: &SharedQueue<Numbers<Q>>,
    seats: Vec<Q::Seat>,
    time: Duration,
) -> Option<u64>
    requires { All (Q.is_seat (numbers_in queue.now)) seats.items }
{
    let told = thread::map_vec(
        rt,
        seats,
        &|seat: Q::Seat| -> u64
            requires { Q.is_seat (numbers_in queue.now) seat }
        { idles(rt, queue, seat, time) },
    );
    let mut all = 0u64;
    for told in told.ok()? {
        all = all.wrapping_add(told);
    }
    Some(all)
}

// How many nanoseconds so many pushes took, and none where one was refused.
fn push_all<R: Clock, Q: Fifo>(rt: &R, queue: &Q, mut seat: Q::Seat, count: u32) -> Option<u64>
    requires { CanSend Q.is_seat Q.permits Q.known queue.now seat }
{
    let start = Instant::now(rt).ok()?;
    for number in 0..count {
        let body = Body::new(u64::from(number))?;
        queue.try_push(&mut seat, body, TURNS).ok()?;
    }
    u64::try_from(start.elapsed(rt).ok()?.as_nanos()).ok()
}

// What a task tells of a queue, whose last seat may push and whose others may pop.
fn told<R: Threads + Wait + Clock + Sync, Q: Fifo + Sync + Drop>(
    rt: &R,
    alloc: Global,
    queue: Q,
    mut seats: Vec<Q::Seat>,
    task: Task,
    count: u32,
) -> Option<Vec<u64>>
    requires { All (Q.is_seat queue) seats.items }
{
    if let Task::Idle = task {
        let time = Duration::from_millis(u64::from(count));
        let told = idle(rt, &SharedQueue::new(Numbers::new(queue)), seats, time)?;
        return vec![in alloc; told].ok();
    }
    let giver = seats.pop()?;
    let taker = seats.pop()?;
    if !queue.may_push(&giver) || !queue.may_pop(&taker) {
        return None;
    }
    let time = match task {
        Task::Plain => push_all(rt, &queue, giver, count)?,
        Task::Blocking => {
            let queue = SharedQueue::new(Numbers::new(queue));
            push_all(rt, &Bodies::new(queue), giver, count)?
        }
        _ => {
            let queue = SharedQueue::new(Numbers::new(queue));
            return hand_over(rt, alloc, &queue, giver, taker, count);
        }
    };
    vec![in alloc; time].ok()
}

/// What a task tells of a new queue of this kind. Refused `Lost` where it can't be told.
pub fn told_of<R: Threads + Wait + Clock + Sync>(
    rt: &R,
    alloc: Global,
    kind: Kind,
    task: Task,
    count: u32,
) -> Result<Vec<u64>, Refusal> {
    let nodes = task.nodes(count);
    let numbers = match kind {
        Kind::TwoLock => {
            let (queue, seats) = TwoLockQueue::new(alloc, nodes, MOST_COUNT, &ROLES)?;
            told(rt, alloc, queue, seats, task, count)
        }
        Kind::NonBlocking => {
            let (queue, seats) = MsQueue::new(alloc, nodes, MOST_COUNT, &ROLES)?;
            told(rt, alloc, queue, seats, task, count)
        }
    };
    numbers.ok_or(Refusal::Lost)
}
