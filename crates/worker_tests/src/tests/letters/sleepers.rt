//! Receivers that sleep until a letter comes, and senders that sleep until there is a node for theirs, over any queue.
ghost use Rattle.std.specs.List.{All};
ghost use Rattle.mailbox.specs.Openings.{CanSend, CanReceive};
ghost use Rattle.mailbox.specs.Offices.{IsSender, IsReceiver};

use super::letters::{last, parts, sends_at_last};
use crate::tests::comparisons::same;
use history::{Fifo, Refusal};
use mailbox::{Office, Receiver, Sender};
use std::alloc::Global;
use std::process::Abort;
use std::sync::Wait;
use std::thread;
use std::thread::{Threads, join};
use std::time::{Clock, Duration};

/// How long one thread lets the other fall asleep, in milliseconds.
const PAUSE: u64 = 30;

/// What a thread took: two letters, or their refusals.
type Two<'a> = (
    Result<(u16, &'a str), Refusal>,
    Result<(u16, &'a str), Refusal>,
);

// Lets the other thread fall asleep.
fn pause(clock: &impl Clock) {
    let _ = thread::sleep(clock, Duration::from_millis(PAUSE));
}

// Sends a letter, and then shuts the office, each time once the other thread sleeps.
fn sends_late<R: Wait + Clock, Q: Fifo + Drop>(
    rt: &R,
    alloc: Global,
    office: &Office<Q>,
    mut sender: Sender<Q>,
) -> Result<(), Refusal>
    requires { IsSender Q.is_seat Q.permits Q.known office.now sender }
{
    pause(rt);
    sends_at_last(rt, alloc, office, &mut sender, "hello")?;
    pause(rt);
    sender.shut(rt, office)
}

// Sends two letters at once, where there is room for one.
fn sends_two<R: Wait, Q: Fifo + Drop>(
    rt: &R,
    alloc: Global,
    office: &Office<Q>,
    mut sender: Sender<Q>,
) -> Result<(), Refusal>
    requires { IsSender Q.is_seat Q.permits Q.known office.now sender }
{
    sends_at_last(rt, alloc, office, &mut sender, "hello")?;
    sends_at_last(rt, alloc, office, &mut sender, "again")
}

// Receives two letters, the first one at once or late.
fn receives_two<'a, R: Wait + Clock, Q: Fifo + Drop>(
    rt: &R,
    office: &'a Office<Q>,
    mut receiver: Receiver<Q>,
    late: bool,
) -> Two<'a>
    requires { IsReceiver Q.is_seat Q.permits Q.known office.now receiver }
{
    if late {
        pause(rt);
    }
    let first = receiver.recv(rt, office).map(parts);
    let second = receiver.recv(rt, office).map(parts);
    (first, second)
}

/// A receiver sleeps until a letter comes, and then until the office is shut.
pub fn a_receiver_is_woken<R: Threads + Wait + Clock + Sync + Abort, Q: Fifo + Sync + Drop>(
    rt: &R,
    alloc: Global,
    queue: Q,
    seats: Vec<Q::Seat>,
    receiver: Q::Seat,
) -> Result<(), Refusal>
    requires senders { All (CanSend Q.is_seat Q.permits Q.known queue) seats.items }
    requires receiver { CanReceive Q.is_seat Q.permits Q.known queue receiver }
{
    let (office, mut senders, receiver) = Office::new(alloc, queue, seats, receiver)?;
    let office = &office;
    let sender = last(office, &mut senders)?;
    let (two, sent) = join(
        rt,
        || -> Two
            requires { IsReceiver Q.is_seat Q.permits Q.known office.now receiver }
        { receives_two(rt, office, receiver, false) },
        || -> Result<(), Refusal>
            requires { IsSender Q.is_seat Q.permits Q.known office.now sender }
        { sends_late(rt, alloc, office, sender) },
    );
    let closed = Err(Refusal::Closed);
    same(rt, (two, sent), ((Ok((1, "hello")), closed), Ok(())), "");
    Ok(())
}

/// A sender sleeps beside a full office until a letter is taken. There is room for one.
pub fn a_sender_is_woken<R: Threads + Wait + Clock + Sync + Abort, Q: Fifo + Sync + Drop>(
    rt: &R,
    alloc: Global,
    queue: Q,
    seats: Vec<Q::Seat>,
    receiver: Q::Seat,
) -> Result<(), Refusal>
    requires senders { All (CanSend Q.is_seat Q.permits Q.known queue) seats.items }
    requires receiver { CanReceive Q.is_seat Q.permits Q.known queue receiver }
{
    let (office, mut senders, receiver) = Office::new(alloc, queue, seats, receiver)?;
    let office = &office;
    let sender = last(office, &mut senders)?;
    let (two, sent) = join(
        rt,
        || -> Two
            requires { IsReceiver Q.is_seat Q.permits Q.known office.now receiver }
        { receives_two(rt, office, receiver, true) },
        || -> Result<(), Refusal>
            requires { IsSender Q.is_seat Q.permits Q.known office.now sender }
        { sends_two(rt, alloc, office, sender) },
    );
    same(
        rt,
        (two, sent),
        ((Ok((1, "hello")), Ok((1, "again"))), Ok(())),
        "",
    );
    Ok(())
}
