//! Letters that are sent and taken by one thread, over any queue.
ghost use Rattle.std.specs.Prelude.{IfOk};
ghost use Rattle.std.specs.List.{All};
ghost use Rattle.mailbox.specs.Openings.{CanSend, CanReceive};
ghost use Rattle.mailbox.specs.Offices.{IsSender, IsReceiver};

use crate::tests::comparisons::same;
use history::{Body, Fifo, Refusal};
use mailbox::{Letter, Office, Receiver, Sender};
use std::alloc::Global;
use std::process::Abort;
use std::sync::Wait;

/// How many turns each call on a queue with room has.
pub const TURNS: u32 = 3;

/// The last of these senders, taken from them.
pub fn last<Q: Fifo + Drop>(
    office: &Office<Q>,
    senders: &mut Vec<Sender<Q>>,
) -> Result<Sender<Q>, Refusal>
    requires { All (IsSender Q.is_seat Q.permits Q.known office.now) senders.old.items }
    ensures last { IfOk result (IsSender Q.is_seat Q.permits Q.known office.now) }
    ensures rest { All (IsSender Q.is_seat Q.permits Q.known office.now) senders.new.items }
{
    let _ = office;
    match senders.pop() {
        Some(sender) => Ok(sender),
        None => Err(Refusal::BadSize),
    }
}

// A body that is no letter's index, pushed by this seat.
fn push_stray<Q: Fifo>(queue: &Q, seat: &mut Q::Seat) -> Result<(), Refusal>
    requires { CanSend Q.is_seat Q.permits Q.known queue.now seat.old }
{
    match Body::new(5) {
        Some(body) => queue.try_push(seat, body, TURNS),
        None => Err(Refusal::BadSize),
    }
}

/// Takes the last of these seats from them. Perhaps it first pushes a body that is no letter's index.
pub fn take_last<Q: Fifo>(queue: &Q, seats: &mut Vec<Q::Seat>, stray: bool) -> Result<(), Refusal>
    requires { All (CanSend Q.is_seat Q.permits Q.known queue.now) seats.old.items }
    ensures { All (CanSend Q.is_seat Q.permits Q.known queue.now) seats.new.items }
{
    let Some(mut seat) = seats.pop() else {
        return Err(Refusal::BadSize);
    };
    if stray {
        push_stray(queue, &mut seat)
    } else {
        Ok(())
    }
}

/// The sender and the text of a letter.
pub fn parts<'a>(letter: Letter<'a>) -> (u16, &'a str) {
    (letter.from, letter.text)
}

/// Sends a letter, in so many turns, 1 or more. Else `BadSize`.
pub fn sends<R: Wait, Q: Fifo + Drop>(
    rt: &R,
    alloc: Global,
    office: &Office<Q>,
    sender: &mut Sender<Q>,
    text: &str,
    turns: u32,
) -> Result<(), Refusal>
    requires { IsSender Q.is_seat Q.permits Q.known office.now sender.old }
    ensures { IsSender Q.is_seat Q.permits Q.known office.now sender.new }
{
    if turns == 0 {
        return Err(Refusal::BadSize);
    }
    match String::from_str(alloc, text) {
        Ok(text) => sender.try_send(rt, office, text, turns),
        Err(_) => Err(Refusal::Memory),
    }
}

/// Sends a letter, and waits while others are in the way, or there is no node for it.
pub fn sends_at_last<R: Wait, Q: Fifo + Drop>(
    rt: &R,
    alloc: Global,
    office: &Office<Q>,
    sender: &mut Sender<Q>,
    text: &str,
) -> Result<(), Refusal>
    requires { IsSender Q.is_seat Q.permits Q.known office.now sender.old }
    ensures { IsSender Q.is_seat Q.permits Q.known office.now sender.new }
{
    match String::from_str(alloc, text) {
        Ok(text) => sender.send(rt, office, text),
        Err(_) => Err(Refusal::Memory),
    }
}

/// The letter that is taken in a few turns is of this sender, and has this text.
pub fn takes<Q: Fifo + Drop>(
    rt: &impl Abort,
    office: &Office<Q>,
    receiver: &mut Receiver<Q>,
    from: u16,
    text: &str,
) -> Result<(), Refusal>
    requires { IsReceiver Q.is_seat Q.permits Q.known office.now receiver.old }
    ensures { IsReceiver Q.is_seat Q.permits Q.known office.now receiver.new }
{
    let letter = receiver.try_take(office, TURNS)?;
    same(rt, letter.map(parts), Some((from, text)), "");
    Ok(())
}

// Two letters of the first of two senders, with one of the second between them.
fn sends_three<R: Wait, Q: Fifo + Drop>(
    rt: &R,
    alloc: Global,
    office: &Office<Q>,
    senders: &mut Vec<Sender<Q>>,
) -> Result<(), Refusal>
    requires { All (IsSender Q.is_seat Q.permits Q.known office.now) senders.old.items }
{
    let mut second = last(office, senders)?;
    let mut first = last(office, senders)?;
    sends(rt, alloc, office, &mut first, "hello", TURNS)?;
    sends(rt, alloc, office, &mut second, "hi", TURNS)?;
    sends(rt, alloc, office, &mut first, "again", TURNS)
}

// Those letters are taken, in that order; then there is none.
fn takes_three<R: Wait + Abort, Q: Fifo + Drop>(
    rt: &R,
    office: &Office<Q>,
    receiver: &mut Receiver<Q>,
) -> Result<(), Refusal>
    requires { IsReceiver Q.is_seat Q.permits Q.known office.now receiver.old }
{
    takes(rt, office, receiver, 1, "hello")?;
    takes(rt, office, receiver, 2, "hi")?;
    takes(rt, office, receiver, 1, "again")?;
    let letter = receiver.take(rt, office)?;
    same(rt, letter.map(parts), None, "");
    Ok(())
}

/// Three letters of two senders come in the order in which they were sent; then there is none. The queue has seven nodes.
pub fn letters_come_in_the_order_sent<R: Wait + Abort, Q: Fifo + Drop>(
    rt: &R,
    alloc: Global,
    queue: Q,
    seats: Vec<Q::Seat>,
    receiver: Q::Seat,
) -> Result<(), Refusal>
    requires senders { All (CanSend Q.is_seat Q.permits Q.known queue) seats.items }
    requires receiver { CanReceive Q.is_seat Q.permits Q.known queue receiver }
{
    let (office, mut senders, mut receiver) = Office::new(alloc, queue, seats, receiver)?;
    sends_three(rt, alloc, &office, &mut senders)?;
    takes_three(rt, &office, &mut receiver)
}

// A letter is sent behind a body that is no letter's index: no take gives it, and each says that one is lost.
fn loses<R: Wait + Abort, Q: Fifo + Drop>(
    rt: &R,
    alloc: Global,
    office: &Office<Q>,
    senders: &mut Vec<Sender<Q>>,
    receiver: &mut Receiver<Q>,
) -> Result<(), Refusal>
    requires senders { All (IsSender Q.is_seat Q.permits Q.known office.now) senders.old.items }
    requires receiver { IsReceiver Q.is_seat Q.permits Q.known office.now receiver.old }
{
    let mut sender = last(office, senders)?;
    sends_at_last(rt, alloc, office, &mut sender, "hello")?;
    let first = receiver.try_take(office, TURNS).err();
    let second = receiver.take(rt, office).err();
    let lost = Some(Refusal::Lost);
    same(rt, (first, second), (lost, lost), "");
    Ok(())
}

/// A body that is no letter's index is lost, and then each take is: the letter behind it never comes.
pub fn a_loss_is_told_from_then_on<R: Wait + Abort, Q: Fifo + Drop>(
    rt: &R,
    alloc: Global,
    queue: Q,
    mut seats: Vec<Q::Seat>,
    receiver: Q::Seat,
) -> Result<(), Refusal>
    requires senders { All (CanSend Q.is_seat Q.permits Q.known queue) seats.items }
    requires receiver { CanReceive Q.is_seat Q.permits Q.known queue receiver }
{
    take_last(&queue, &mut seats, true)?;
    let (office, mut senders, mut receiver) = Office::new(alloc, queue, seats, receiver)?;
    loses(rt, alloc, &office, &mut senders, &mut receiver)
}
