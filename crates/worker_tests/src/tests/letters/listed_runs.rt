//! Sends, takes and shuts on a queue with no room, whose calls go by a list.
ghost use Rattle.std.specs.Prelude.{IfOk};
ghost use Rattle.mailbox.specs.Openings.{CanSend, CanReceive};
ghost use Rattle.mailbox.specs.Offices.{IsSender, IsReceiver};

use super::letters::{last, parts, sends};
use crate::tests::comparisons::same;
use history::{Fifo, Refusal, WornWord};
use mailbox::{Office, Receiver, Sender};
use mock_queues::{Listed, Planned, full_of_numbers};
use std::alloc::Global;
use std::process::Abort;
use std::sync::Wait;
use std::test::Fail;

/// The turns of a call, and what it is refused; none where the queue itself answers.
type Call = (u32, Option<Refusal>);

/// Pushes with each refusal, twice in a row where others are in the way.
const PUSHES: [Call; 9] = [
    (1, Some(Refusal::Busy)),
    (2, None),
    (7, Some(Refusal::WornOut(WornWord::Free))),
    (8, Some(Refusal::Busy)),
    (9, Some(Refusal::Busy)),
    (1000, Some(Refusal::WornOut(WornWord::Tail))),
    (3, Some(Refusal::NoNode)),
    (u32::MAX, Some(Refusal::WornOut(WornWord::Head))),
    (1, None),
];

/// Pops, refused or not.
const POPS: [Call; 6] = [
    (1, Some(Refusal::Busy)),
    (2, None),
    (7, Some(Refusal::WornOut(WornWord::Head))),
    (8, Some(Refusal::Busy)),
    (1000, None),
    (u32::MAX, Some(Refusal::Busy)),
];

/// Shuts, refused or not. One that isn't the one due is refused by a worn Tail, so each with turns of its own is wanted busy.
const SHUTS: [Call; 7] = [
    (1, Some(Refusal::Busy)),
    (2, None),
    (7, Some(Refusal::Busy)),
    (8, Some(Refusal::Busy)),
    (9, Some(Refusal::Busy)),
    (u32::MAX, Some(Refusal::Busy)),
    (1, None),
];

// An office over this queue with its one sender, by this seat.
fn opened<Q: Fifo + Drop>(
    alloc: Global,
    queue: Q,
    seat: Q::Seat,
    receiver: Q::Seat,
) -> Result<(Office<Q>, Sender<Q>), Refusal>
    requires sender { CanSend Q.is_seat Q.permits Q.known queue seat }
    requires receiver { CanReceive Q.is_seat Q.permits Q.known queue receiver }
    ensures { IfOk result (λ r. IsSender Q.is_seat Q.permits Q.known r.0 r.1) }
{
    let mut seats = Vec::new(alloc);
    let Ok(()) = seats.push(seat) else {
        return Err(Refusal::Memory);
    };
    let (office, mut senders, _) = Office::new(alloc, queue, seats, receiver)?;
    let sender = last(&office, &mut senders)?;
    Ok((office, sender))
}

// Sends a letter by each push of the list, over a queue that goes by it and has no room: each send is refused as its push.
fn sends_by_the_list<R: Wait + Abort, Q: Fifo + Drop>(
    rt: &R,
    alloc: Global,
    office: &Office<Q>,
    mut sender: Sender<Q>,
)
    requires { IsSender Q.is_seat Q.permits Q.known office.now sender }
{
    for (turns, refusal) in &PUSHES {
        let sent = sends(rt, alloc, office, &mut sender, "hello", *turns);
        same(rt, sent, Err(refusal.unwrap_or(Refusal::NoNode)), turns);
    }
}

// What is taken in so many turns, 1 or more: its sender and its text. Else `BadSize`.
fn taken<'a, Q: Fifo + Drop>(
    office: &'a Office<Q>,
    receiver: &mut Receiver<Q>,
    turns: u32,
) -> Result<Option<(u16, &'a str)>, Refusal>
    requires { IsReceiver Q.is_seat Q.permits Q.known office.now receiver.old }
    ensures { IsReceiver Q.is_seat Q.permits Q.known office.now receiver.new }
{
    if turns == 0 {
        return Err(Refusal::BadSize);
    }
    let letter = receiver.try_take(office, turns)?;
    Ok(letter.map(parts))
}

// Takes a letter by each pop of the list, over a queue that goes by it and has no room: each take is refused as its pop.
fn takes_by_the_list<Q: Fifo + Drop>(
    rt: &impl Abort,
    alloc: Global,
    queue: Q,
    receiver: Q::Seat,
) -> Result<(), Refusal>
    requires { CanReceive Q.is_seat Q.permits Q.known queue receiver }
{
    let (office, _, mut receiver) = Office::new(alloc, queue, Vec::new(alloc), receiver)?;
    for (turns, refusal) in &POPS {
        let wanted = match refusal {
            Some(cause) => Err(*cause),
            None => Ok(None),
        };
        same(rt, taken(&office, &mut receiver, *turns), wanted, turns);
    }
    Ok(())
}

// Shuts the office in so many turns, 1 or more. Else `BadSize`.
fn shuts<Q: Fifo + Drop>(
    office: &Office<Q>,
    sender: &mut Sender<Q>,
    turns: u32,
) -> Result<(), Refusal>
    requires { IsSender Q.is_seat Q.permits Q.known office.now sender.old }
    ensures { IsSender Q.is_seat Q.permits Q.known office.now sender.new }
{
    if turns == 0 {
        return Err(Refusal::BadSize);
    }
    sender.try_shut(office, turns)
}

// Shuts the office by each shut of the list, over a queue that goes by it and is never shut: each is refused as that of the
// queue, whose own are refused by a worn Tail.
fn shuts_by_the_list<Q: Fifo + Drop>(rt: &impl Abort, office: &Office<Q>, mut sender: Sender<Q>)
    requires { IsSender Q.is_seat Q.permits Q.known office.now sender }
{
    let own = Refusal::WornOut(WornWord::Tail);
    for (turns, refusal) in &SHUTS {
        let shut = shuts(office, &mut sender, *turns);
        same(rt, shut, Err(refusal.unwrap_or(own)), turns);
    }
}

/// A send is one push, in just the turns handed in, and is refused as it is: by `Busy` where that was, and not else.
#[test]
fn a_send_is_one_push_in_these_turns(rt: HostRuntime) -> Result<(), Fail> {
    let (queue, seat) = full_of_numbers();
    let (_, other) = full_of_numbers();
    let queue = Planned::new(queue, Listed::new(&PUSHES));
    let (office, sender) = opened(rt.alloc(), queue, seat, other)?;
    sends_by_the_list(&rt, rt.alloc(), &office, sender);
    Ok(())
}

/// A take is one pop, in just the turns handed in, and is refused as it is.
#[test]
fn a_take_is_one_pop_in_these_turns(rt: HostRuntime) -> Result<(), Fail> {
    let (queue, seat) = full_of_numbers();
    let queue = Planned::new(queue, Listed::new(&POPS));
    takes_by_the_list(&rt, rt.alloc(), queue, seat)?;
    Ok(())
}

/// A shut is one shut of the queue, in just these turns, and is refused as it is.
#[test]
fn a_shut_is_one_shut_in_these_turns(rt: HostRuntime) -> Result<(), Fail> {
    let (queue, seat) = full_of_numbers();
    let (_, other) = full_of_numbers();
    let queue = Planned::new(queue, Listed::new(&SHUTS));
    let (office, sender) = opened(rt.alloc(), queue, seat, other)?;
    shuts_by_the_list(&rt, &office, sender);
    Ok(())
}
