//! Values that come back from queues that take none: such that own memory, have no size, or can't be dropped,
//! and numbers.
use super::calls::Told::{Back, Empty, NoPop, NoShut, Shut};
use super::calls::go;
use super::comparisons::same;
use super::queues::AMPLE;
use super::values::Value;
use carriers::{Carrier, Numbers, Unpushed};
use history::{Refusal, WornWord};
use mock_queues::{FullQueue, Listed, NeverBusy, full_of_numbers};
use node_arena::Role;
use nonblocking::MsQueue;
use std::process::Abort;
use std::test::Fail;

/// A value without `Drop` or `Clone`: it can only be taken apart.
pub struct Ticket {
    pub number: u64,
}

/// The number of a ticket, and why it wasn't pushed.
pub fn told(pushed: Result<(), Unpushed<Ticket>>) -> Option<(Refusal, u64)> {
    match pushed {
        Ok(()) => None,
        Err(
            Unpushed {
                refusal,
                value: Ticket { number },
            },
        ) => Some((refusal, number)),
    }
}

fn come_back<C: Carrier<Item: Value>, R: AllocGlobal + Abort>(
    rt: &R,
    queue: &C,
    seat: C::Seat,
) -> Result<(), Fail> {
    let worn = Refusal::WornOut(WornWord::Tail);
    let mut seats = vec![in rt.alloc(); seat]?;
    for number in [1, 0, 3] {
        go(rt, queue, &mut seats, &[(1, Back(number, Refusal::NoNode))])?;
    }
    go(rt, queue, &mut seats, &[(1, Empty), (1, NoShut(worn))])
}

/// A queue that is full hands each value back.
#[test]
fn values_come_back_from_a_full_queue(rt: HostRuntime) -> Result<(), Fail> {
    let (queue, seat) = full_of_numbers();
    come_back(&rt, &Numbers::new(queue), seat)?;
    let (queue, seat) = FullQueue::<String, _>::new(NeverBusy);
    come_back(&rt, &queue, seat)?;
    let (queue, seat) = FullQueue::<(), _>::new(NeverBusy);
    come_back(&rt, &queue, seat)
}

/// So does one that is shut.
#[test]
fn numbers_come_back_from_a_shut_queue(rt: HostRuntime) -> Result<(), Fail> {
    let (queue, mut seats) = MsQueue::new(rt.alloc(), 2, AMPLE, &[Role::Both])?;
    let closed = Refusal::Closed;
    let calls = [
        (1, Shut),
        (1, Back(42, closed)),
        (1, NoPop(closed)),
        (1, NoShut(closed)),
    ];
    go(&rt, &Numbers::new(queue), &mut seats, &calls)
}

/// What isn't pushed has to come back, or the program isn't one.
#[test]
fn tickets_come_back(rt: HostRuntime) -> Result<(), Fail> {
    let (queue, mut seat) = FullQueue::new(NeverBusy);
    let first = told(queue.try_push(&mut seat, Ticket { number: 7 }, 3));
    same(&rt, first, Some((Refusal::NoNode, 7)), "a push");
    match queue.try_pop(&mut seat, 3) {
        Ok(None) => {}
        Ok(Some(item)) => {
            let Ticket { number } = item.value;
            same(&rt, number, 0, "a ticket that nobody pushed");
        }
        Err(refusal) => same(&rt, refusal, Refusal::Busy, "a pop"),
    }
    let worn = Err(Refusal::WornOut(WornWord::Tail));
    same(&rt, queue.try_shut(&mut seat, 3), worn, "a shut");
    Ok(())
}

/// The tries of a push that waits, each with its turns.
const TRIES: [(u32, Option<Refusal>); 3] = [
    (8, Some(Refusal::Busy)),
    (8, Some(Refusal::Busy)),
    (8, None),
];

#[test]
fn a_push_that_waits_hands_its_ticket_back(rt: HostRuntime) -> Result<(), Fail> {
    let (queue, mut seat) = FullQueue::new(Listed::new(&TRIES));
    let pushed = told(queue.push(&rt, &mut seat, Ticket { number: 9 }));
    same(&rt, pushed, Some((Refusal::NoNode, 9)), "");
    Ok(())
}
