//! New queues, and the work of threads on them.
ghost use Rattle.std.specs.List.{All};

use crate::loads::{Load, Words};
use crate::seats::{Keeping, jobs_of};
use crate::works::{Work, worked};
use arena_queue::{Algorithm, ArenaQueueOf};
use carriers::Numbers;
use history::Refusal;
use line_table::{Kind, QueueKind};
use node_arena::{MOST_COUNT, Role};
use nonblocking::NonBlockingAlgorithm;
use ring_queue::{RingQueue, Role as RingRole};
use ring_values::RingValues;
use std::alloc::Global;
use std::sync::Wait;
use std::thread::Threads;
use two_lock::TwoLockAlgorithm;
use value_queue::QueueOf;

/// Four seats that may push and pop.
const ROLES: [Role; 4] = [Role::Both; 4];

/// The same of a ring.
const RING_ROLES: [RingRole; 4] = [RingRole::Both; 4];

/// The greatest place of a ring that there is.
pub const MOST_PLACE: u64 = (1 << 62) - 1;

/// The queue of this name on the command line.
pub fn kind_of(name: &str) -> Option<QueueKind> {
    match name {
        "two-lock" => Some(QueueKind::Linked(Kind::TwoLock)),
        "non-blocking" => Some(QueueKind::Linked(Kind::NonBlocking)),
        "ring" => Some(QueueKind::Ring),
        _ => None,
    }
}

/// What goes through.
#[derive(Clone, Copy)]
pub enum Carried {
    /// Bodies, through a queue of numbers.
    Numbers,
    Word,
    Words,
}

impl Carried {
    /// What has this name on the command line.
    pub fn of_name(name: &str) -> Option<Carried> {
        match name {
            "numbers" => Some(Carried::Numbers),
            "word" => Some(Carried::Word),
            "words" => Some(Carried::Words),
            _ => None,
        }
    }
}

/// What is asked of a queue and of threads.
#[derive(Clone, Copy)]
pub struct Asked {
    /// How many values the queue has room for.
    pub values: u32,
    /// Whether the seats keep their nodes; of a ring it says nothing.
    pub keeps: bool,
    pub works: &'static [Work; 4],
    /// How many times each thread does its work.
    pub count: u64,
}

// The work of threads by these seats; the sum of what was told, and none where memory is refused.
fn worked_by<R: Threads + Wait + Sync, T: Load, Q: Keeping<Item = T> + Sync + Drop>(
    rt: &R,
    alloc: Global,
    queue: Q,
    seats: Vec<Q::Seat>,
    asked: Asked,
) -> Result<u64, Refusal>
    requires { All (Q.is_seat queue) seats.items }
{
    let works = asked.works;
    let Some(jobs) = jobs_of(alloc, &queue, seats, works, asked.keeps) else {
        return Err(Refusal::Memory);
    };
    worked(rt, alloc, &queue, jobs, asked.count).ok_or(Refusal::Memory)
}

// The same on a new queue of values with nodes.
fn worked_nodes<R: Threads + Wait + Sync, T: Load, A: Algorithm<24> + Sync>(
    rt: &R,
    alloc: Global,
    asked: Asked,
) -> Result<u64, Refusal> {
    let nodes = asked.values.saturating_add(1);
    let (queue, seats) = QueueOf::<T, A, 24>::new(alloc, nodes, MOST_COUNT, &ROLES)?;
    worked_by(rt, alloc, queue, seats, asked)
}

// The same on a new ring of values.
fn worked_places<R: Threads + Wait + Sync, T: Load>(
    rt: &R,
    alloc: Global,
    asked: Asked,
) -> Result<u64, Refusal> {
    let (queue, seats) = RingValues::<T>::new(alloc, asked.values, MOST_PLACE, &RING_ROLES)?;
    worked_by(rt, alloc, queue, seats, asked)
}

// The same on a new queue with nodes, of what is carried.
fn worked_linked<R: Threads + Wait + Sync, A: Algorithm<24> + Sync>(
    rt: &R,
    alloc: Global,
    carried: Carried,
    asked: Asked,
) -> Result<u64, Refusal> {
    match carried {
        Carried::Numbers => {
            let nodes = asked.values.saturating_add(1);
            let (queue, seats) = ArenaQueueOf::<A, 24>::new(alloc, nodes, MOST_COUNT, &ROLES)?;
            worked_by(rt, alloc, Numbers::new(queue), seats, asked)
        }
        Carried::Word => worked_nodes::<R, u64, A>(rt, alloc, asked),
        Carried::Words => worked_nodes::<R, Words, A>(rt, alloc, asked),
    }
}

// The same on a new ring.
fn worked_ring<R: Threads + Wait + Sync>(
    rt: &R,
    alloc: Global,
    carried: Carried,
    asked: Asked,
) -> Result<u64, Refusal> {
    match carried {
        Carried::Numbers => {
            let (queue, seats) = RingQueue::new(alloc, asked.values, MOST_PLACE, &RING_ROLES)?;
            worked_by(rt, alloc, Numbers::new(queue), seats, asked)
        }
        Carried::Word => worked_places::<R, u64>(rt, alloc, asked),
        Carried::Words => worked_places::<R, Words>(rt, alloc, asked),
    }
}

/// The work of up to four threads on a new queue; the sum of what was told.
pub fn worked_on<R: Threads + Wait + Sync>(
    rt: &R,
    alloc: Global,
    kind: QueueKind,
    carried: Carried,
    asked: Asked,
) -> Result<u64, Refusal> {
    match kind {
        QueueKind::Linked(Kind::TwoLock) => {
            worked_linked::<R, TwoLockAlgorithm>(rt, alloc, carried, asked)
        }
        QueueKind::Linked(Kind::NonBlocking) => {
            worked_linked::<R, NonBlockingAlgorithm>(rt, alloc, carried, asked)
        }
        QueueKind::Ring => worked_ring(rt, alloc, carried, asked),
    }
}
