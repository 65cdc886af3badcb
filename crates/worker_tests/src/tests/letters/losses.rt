//! Posts that lose a letter, over any queue.
ghost use Rattle.std.specs.List.{All};
ghost use Rattle.mailbox.specs.Openings.{CanSend, CanReceive};
ghost use Rattle.mailbox.specs.Offices.{IsSender, IsReceiver};
ghost use Rattle.mailbox.specs.Posts.{IsTask};

use super::letters::{TURNS, last, sends};
use crate::tests::comparisons::same;
use history::{Fifo, Refusal};
use mailbox::{Office, Receiver, Sender, Task, post};
use std::alloc::Global;
use std::process::Abort;
use std::sync::Wait;
use std::thread::Threads;

// Puts a task of this sender, with one letter, at the end.
fn add_task<Q: Fifo + Drop>(
    alloc: Global,
    office: &Office<Q>,
    tasks: &mut Vec<Task<Q>>,
    sender: Sender<Q>,
) -> Result<(), Refusal>
    requires sender { IsSender Q.is_seat Q.permits Q.known office.now sender }
    requires tasks { All (IsTask Q.is_seat Q.permits Q.known office.now) tasks.old.items }
    ensures { All (IsTask Q.is_seat Q.permits Q.known office.now) tasks.new.items }
{
    let _ = office;
    let mut texts = Vec::new(alloc);
    let Ok(text) = String::from_str(alloc, "hello") else {
        return Err(Refusal::Memory);
    };
    let Ok(()) = texts.push(text) else {
        return Err(Refusal::Memory);
    };
    match tasks.push(Task { sender, texts }) {
        Ok(()) => Ok(()),
        Err(_) => Err(Refusal::Memory),
    }
}

// A post of these tasks is refused `Lost`, where another sender sent a letter before.
fn loses_behind<R: Threads + Wait + Sync + Abort, Q: Fifo + Sync + Drop>(
    rt: &R,
    alloc: Global,
    office: Office<Q>,
    tasks: Vec<Task<Q>>,
    mut other: Sender<Q>,
    receiver: Receiver<Q>,
) -> Result<(), Refusal>
    requires tasks { All (IsTask Q.is_seat Q.permits Q.known office) tasks.items }
    requires other { IsSender Q.is_seat Q.permits Q.known office other }
    requires receiver { IsReceiver Q.is_seat Q.permits Q.known office receiver }
{
    let planned = office.for_tasks(alloc, &tasks)?;
    sends(rt, alloc, &planned, &mut other, "stray", TURNS)?;
    let (_, letters) = post(rt, alloc, &planned, tasks, receiver);
    same(rt, letters.err(), Some(Refusal::Lost), "");
    Ok(())
}

// A post of these tasks is refused `Lost`.
fn loses<R: Threads + Wait + Sync + Abort, Q: Fifo + Sync + Drop>(
    rt: &R,
    alloc: Global,
    office: Office<Q>,
    tasks: Vec<Task<Q>>,
    receiver: Receiver<Q>,
) -> Result<(), Refusal>
    requires tasks { All (IsTask Q.is_seat Q.permits Q.known office) tasks.items }
    requires receiver { IsReceiver Q.is_seat Q.permits Q.known office receiver }
{
    let planned = office.for_tasks(alloc, &tasks)?;
    let (_, letters) = post(rt, alloc, &planned, tasks, receiver);
    same(rt, letters.err(), Some(Refusal::Lost), "");
    Ok(())
}

/// Where the tasks aren't in the order of their senders' numbers, a letter isn't the next one of its sender's, and is lost.
/// There are two senders.
pub fn tasks_in_another_order_lose_a_letter<
    R: Threads + Wait + Sync + Abort,
    Q: Fifo + Sync + Drop,
>(rt: &R, alloc: Global, queue: Q, seats: Vec<Q::Seat>, receiver: Q::Seat) -> Result<(), Refusal>
    requires senders { All (CanSend Q.is_seat Q.permits Q.known queue) seats.items }
    requires receiver { CanReceive Q.is_seat Q.permits Q.known queue receiver }
{
    let (office, mut senders, receiver) = Office::new(alloc, queue, seats, receiver)?;
    let mut tasks = Vec::new(alloc);
    let second = last(&office, &mut senders)?;
    add_task(alloc, &office, &mut tasks, second)?;
    let first = last(&office, &mut senders)?;
    add_task(alloc, &office, &mut tasks, first)?;
    loses(rt, alloc, office, tasks, receiver)
}

/// In an office that was shut before no letter of a task is sent: they are lost. There are two senders, one with a task.
pub fn a_post_in_a_shut_office_is_lost<R: Threads + Wait + Sync + Abort, Q: Fifo + Sync + Drop>(
    rt: &R,
    alloc: Global,
    queue: Q,
    seats: Vec<Q::Seat>,
    receiver: Q::Seat,
) -> Result<(), Refusal>
    requires senders { All (CanSend Q.is_seat Q.permits Q.known queue) seats.items }
    requires receiver { CanReceive Q.is_seat Q.permits Q.known queue receiver }
{
    let (office, mut senders, receiver) = Office::new(alloc, queue, seats, receiver)?;
    let mut other = last(&office, &mut senders)?;
    other.try_shut(&office, TURNS)?;
    let mut tasks = Vec::new(alloc);
    let first = last(&office, &mut senders)?;
    add_task(alloc, &office, &mut tasks, first)?;
    loses(rt, alloc, office, tasks, receiver)
}

/// A letter of no task is lost, though those of the tasks are behind it. There are two senders, one with a task.
pub fn a_letter_of_no_task_is_lost<R: Threads + Wait + Sync + Abort, Q: Fifo + Sync + Drop>(
    rt: &R,
    alloc: Global,
    queue: Q,
    seats: Vec<Q::Seat>,
    receiver: Q::Seat,
) -> Result<(), Refusal>
    requires senders { All (CanSend Q.is_seat Q.permits Q.known queue) seats.items }
    requires receiver { CanReceive Q.is_seat Q.permits Q.known queue receiver }
{
    let (office, mut senders, receiver) = Office::new(alloc, queue, seats, receiver)?;
    let other = last(&office, &mut senders)?;
    let mut tasks = Vec::new(alloc);
    let first = last(&office, &mut senders)?;
    add_task(alloc, &office, &mut tasks, first)?;
    loses_behind(rt, alloc, office, tasks, other, receiver)
}
