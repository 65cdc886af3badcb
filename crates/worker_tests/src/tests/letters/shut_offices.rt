//! Offices that a sender shuts, over any queue.
ghost use Rattle.std.specs.List.{All};
ghost use Rattle.mailbox.specs.Openings.{CanSend, CanReceive};
ghost use Rattle.mailbox.specs.Offices.{IsSender, IsReceiver};

use super::letters::{TURNS, last, sends, sends_at_last, takes};
use crate::tests::comparisons::same;
use history::{Fifo, Refusal, WornWord};
use mailbox::{Office, Receiver, Sender};
use std::alloc::Global;
use std::process::Abort;
use std::sync::Wait;

/// The queue is shut.
const CLOSED: Result<(), Refusal> = Err(Refusal::Closed);

// A letter of each of two senders, and then a shut: no send and no further shut is done, by either sender.
fn sends_two_and_shuts<R: Wait + Abort, Q: Fifo + Drop>(
    rt: &R,
    alloc: Global,
    office: &Office<Q>,
    senders: &mut Vec<Sender<Q>>,
) -> Result<(), Refusal>
    requires { All (IsSender Q.is_seat Q.permits Q.known office.now) senders.old.items }
{
    let mut second = last(office, senders)?;
    let mut first = last(office, senders)?;
    sends(rt, alloc, office, &mut first, "hello", TURNS)?;
    sends(rt, alloc, office, &mut second, "hi", TURNS)?;
    first.try_shut(office, TURNS)?;
    let late = sends(rt, alloc, office, &mut first, "late", TURNS);
    let later = sends_at_last(rt, alloc, office, &mut second, "late");
    same(rt, (late, later), (CLOSED, CLOSED), "sends");
    let again = first.try_shut(office, TURNS);
    let other = second.shut(rt, office);
    same(rt, (again, other), (CLOSED, CLOSED), "shuts");
    Ok(())
}

// Both letters are taken, in order; then each take finds the queue shut and empty.
fn takes_two_and_no_more<R: Wait + Abort, Q: Fifo + Drop>(
    rt: &R,
    office: &Office<Q>,
    receiver: &mut Receiver<Q>,
) -> Result<(), Refusal>
    requires { IsReceiver Q.is_seat Q.permits Q.known office.now receiver.old }
{
    takes(rt, office, receiver, 1, "hello")?;
    takes(rt, office, receiver, 2, "hi")?;
    let first = receiver.try_take(office, TURNS).err();
    let second = receiver.take(rt, office).err();
    let closed = Some(Refusal::Closed);
    same(rt, (first, second), (closed, closed), "takes");
    Ok(())
}

/// After a shut nothing is sent; what was sent before is taken, in order, and then each take finds the queue shut. The queue
/// has seven nodes, and two senders.
pub fn a_shut_ends_an_office<R: Wait + Abort, Q: Fifo + Drop>(
    rt: &R,
    alloc: Global,
    queue: Q,
    seats: Vec<Q::Seat>,
    receiver: Q::Seat,
) -> Result<(), Refusal>
    requires senders { All (CanSend Q.is_seat Q.permits Q.known queue) seats.items }
    requires receiver { CanReceive Q.is_seat Q.permits Q.known queue receiver }
{
    let (office, mut senders, mut receiver) = Office::new(alloc, queue, seats, receiver)?;
    sends_two_and_shuts(rt, alloc, &office, &mut senders)?;
    takes_two_and_no_more(rt, &office, &mut receiver)
}

// Two letters of a sender, on a queue whose Tail is worn out by the first one: both shuts are refused.
fn shuts_in_vain<R: Wait + Abort, Q: Fifo + Drop>(
    rt: &R,
    alloc: Global,
    office: &Office<Q>,
    senders: &mut Vec<Sender<Q>>,
) -> Result<(), Refusal>
    requires { All (IsSender Q.is_seat Q.permits Q.known office.now) senders.old.items }
{
    let mut sender = last(office, senders)?;
    sends(rt, alloc, office, &mut sender, "hello", TURNS)?;
    sends(rt, alloc, office, &mut sender, "again", TURNS)?;
    let first = sender.try_shut(office, TURNS);
    let second = sender.shut(rt, office);
    let worn = Err(Refusal::WornOut(WornWord::Tail));
    same(rt, (first, second), (worn, worn), "");
    Ok(())
}

/// On a queue whose Tail lags and is worn out each shut is refused so, and the letter in front of it is taken. The queue is
/// the non-blocking one, with four nodes, the greatest count 1, and one sender.
pub fn a_worn_tail_refuses_the_shut_of_an_office<R: Wait + Abort, Q: Fifo + Drop>(
    rt: &R,
    alloc: Global,
    queue: Q,
    seats: Vec<Q::Seat>,
    receiver: Q::Seat,
) -> Result<(), Refusal>
    requires senders { All (CanSend Q.is_seat Q.permits Q.known queue) seats.items }
    requires receiver { CanReceive Q.is_seat Q.permits Q.known queue receiver }
{
    let (office, mut senders, mut receiver) = Office::new(alloc, queue, seats, receiver)?;
    shuts_in_vain(rt, alloc, &office, &mut senders)?;
    takes(rt, &office, &mut receiver, 1, "hello")?;
    let worn = receiver.try_take(&office, TURNS).err();
    same(rt, worn, Some(Refusal::WornOut(WornWord::Tail)), "");
    Ok(())
}
