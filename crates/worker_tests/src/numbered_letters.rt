//! Letters whose texts are numbers, of senders with a thread each, over any queue.
ghost use Rattle.std.specs.Prelude.{◌≡◌, map, IfOk};
ghost use Rattle.std.specs.List.{All};
ghost use Rattle.mailbox.specs.Openings.{CanSend, CanReceive};

use history::{Fifo, Refusal};
use mailbox::{Letter, Office, Sender, Task, post};
use std::alloc::Global;
use std::rt::Clock;
use std::sync::Wait;
use std::thread::Threads;
use std::time::{Duration, Instant};

/// The most senders whose order is looked at.
const SENDERS: usize = 64;

/// How many letters the first sender sends, and how many each other one.
#[derive(Clone, Copy, Debug)]
pub struct Load {
    pub first: usize,
    pub others: usize,
}

/// What came of letters that were posted.
#[derive(Clone, Copy, Debug)]
pub struct Came {
    /// How many came; none where a sender's were out of order.
    pub in_order: Option<usize>,
    /// Whether the queue was then found shut and empty.
    pub shut: bool,
    /// How long it took to send and take them, where the clock told.
    pub time: Option<Duration>,
}

// The texts `0`, `1` and so on, so many.
fn texts(alloc: Global, count: usize) -> Result<Vec<String>, Refusal> {
    let mut texts = Vec::new(alloc);
    for number in 0..count {
        let Ok(text) = format!(in alloc; "{number}") else {
            return Err(Refusal::Memory);
        };
        if texts.push(text).is_err() {
            return Err(Refusal::Memory);
        }
    }
    Ok(texts)
}

// Gives each sender its texts.
fn tasks<Q: Fifo + Drop>(
    alloc: Global,
    senders: Vec<Sender<Q>>,
    load: Load,
) -> Result<Vec<Task<Q>>, Refusal>
    ensures { IfOk result (λ tasks. map (λ t. t.sender) tasks.items ≡ senders.items) }
{
    let mut tasks = Vec::new(alloc);
    let mut count = load.first;
    for sender in senders {
        let texts = texts(alloc, count)?;
        let Ok(()) = tasks.push(Task { sender, texts }) else {
            return Err(Refusal::Memory);
        };
        count = load.others;
    }
    Ok(tasks)
}

// How many letters came of senders whose texts are `0`, `1` and so on in order; none where one is out of order.
fn in_order(letters: &[Letter]) -> Option<usize> {
    let mut next = [0usize; SENDERS];
    for letter in letters {
        let place = usize::from(letter.from).wrapping_sub(1);
        if place >= SENDERS || letter.text.parse::<usize>() != Ok(next[place]) {
            return None;
        }
        next[place] = next[place].wrapping_add(1);
    }
    Some(letters.len())
}

/// Posts the letters of a sender for each of these seats: texts `0`, `1` and so on. There are at most 64 senders, or no
/// order is told. Refusals as those of `Office::new` and `post`. Takes memory, starts threads, and waits.
pub fn posted<R: Threads + Wait + Clock + Sync, Q: Fifo + Sync + Drop>(
    rt: &R,
    alloc: Global,
    queue: Q,
    seats: Vec<Q::Seat>,
    receiver: Q::Seat,
    load: Load,
) -> Result<Came, Refusal>
    requires senders { All (CanSend Q.is_seat Q.permits Q.known queue) seats.items }
    requires receiver { CanReceive Q.is_seat Q.permits Q.known queue receiver }
{
    let (office, senders, receiver) = Office::new(alloc, queue, seats, receiver)?;
    let tasks = tasks(alloc, senders, load)?;
    let planned = office.for_tasks(alloc, &tasks)?;
    let start = Instant::now(rt);
    let (mut receiver, letters) = post(rt, alloc, &planned, tasks, receiver);
    let time = match start {
        Ok(start) => start.elapsed(rt).ok(),
        Err(_) => None,
    };
    let in_order = in_order(&letters?);
    let shut = matches!(receiver.take(rt, &planned), Err(Refusal::Closed));
    Ok(Came {
        in_order,
        shut,
        time,
    })
}
