//! A queue of any kind, and two threads that call it.
ghost use Rattle.std.specs.Prelude.{◌≡◌, IfOk, IfErr, OnOk};
ghost use Rattle.shared_queue.specs.Queues.{numbers_in};
ghost use Rattle.two_threads.specs.Duos.{IsDuo, IsOnePusher, IsOnePopper};
ghost use Rattle.two_threads.specs.Duos.{HasPushed, HasGiven, HasTaken, EndsRun, EndsTaking, values_to};

use carriers::{Carrier, Numbers};
use history::{Body, Fifo, Refusal, Taken};
use shared_queue::SharedQueue;
use std::alloc::Global;
use std::sync::Wait;
use std::thread::{Threads, join};

// Pushes 1, 2 and so on to `most`.
fn push_all<R: Wait, Q: Fifo>(
    rt: &R,
    queue: &SharedQueue<Numbers<Q>>,
    seat: &mut Q::Seat,
    most: u64,
) -> Result<(), Refusal>
    requires { IsOnePusher Q.is_seat Q.permits Q.known (numbers_in queue.now) seat.old }
    ensures seat { Q.is_seat (numbers_in queue.now) seat.new }
    ensures number { (Q.known seat.new).number ≡ (Q.known seat.old).number }
    ensures pushed { OnOk result (HasPushed (Q.known seat.old) most (Q.known seat.new)) }
    ensures refusal { IfErr result (EndsRun most) }
{
    for count in 0..most {
        let Some(body) = Body::new(count + 1) else {
            return Err(Refusal::BadSize);
        };
        if let Err(unpushed) = queue.send(rt, seat, body) {
            return Err(unpushed.refusal);
        }
    }
    Ok(())
}

// Pushes 1, 2 and so on to `most`, and then shuts the queue, also where a push was refused: so who takes ends.
fn give<R: Wait, Q: Fifo>(
    rt: &R,
    queue: &SharedQueue<Numbers<Q>>,
    mut seat: Q::Seat,
    most: u64,
) -> Result<Q::Seat, Refusal>
    requires { IsOnePusher Q.is_seat Q.permits Q.known (numbers_in queue.now) seat }
    ensures given { IfOk result (HasGiven Q.is_seat Q.known (numbers_in queue.now) seat most) }
    ensures refusal { IfErr result (EndsRun most) }
{
    let pushed = push_all(rt, queue, &mut seat, most);
    let shut = queue.shut(rt, &mut seat);
    pushed?;
    shut?;
    Ok(seat)
}

// Takes values until the queue is shut and empty.
fn pop_all<R: Wait, Q: Fifo>(
    rt: &R,
    alloc: Global,
    queue: &SharedQueue<Numbers<Q>>,
    mut seat: Q::Seat,
) -> Result<(Q::Seat, Vec<Taken>), Refusal>
    requires { IsOnePopper Q.is_seat Q.permits Q.known (numbers_in queue.now) seat }
    ensures taken { IfOk result
        (λ r. HasTaken Q.is_seat Q.known (numbers_in queue.now) seat r.0 r.1.items) }
    ensures refusal { IfErr result EndsTaking }
{
    let mut taken = Vec::new(alloc);
    for _ in rt.forever() {
        match queue.recv(rt, &mut seat) {
            Ok(front) => {
                let Ok(()) = taken.push(front.into_taken()) else {
                    return Err(Refusal::Memory);
                };
            }
            Err(Refusal::Closed) => return Ok((seat, taken)),
            Err(refusal) => return Err(refusal),
        }
    }
    unreachable!()
}

// The two threads: the values that the one took, and the seat of the other.
fn both<R: Threads + Wait + Sync, Q: Fifo + Sync>(
    rt: &R,
    alloc: Global,
    queue: &SharedQueue<Numbers<Q>>,
    giver: Q::Seat,
    taker: Q::Seat,
    most: u64,
) -> (
    Result<(Q::Seat, Vec<Taken>), Refusal>,
    Result<Q::Seat, Refusal>,
)
    requires giver { IsOnePusher Q.is_seat Q.permits Q.known (numbers_in queue.now) giver }
    requires taker { IsOnePopper Q.is_seat Q.permits Q.known (numbers_in queue.now) taker }
    ensures taken { IfOk result.0
        (λ r. HasTaken Q.is_seat Q.known (numbers_in queue.now) taker r.0 r.1.items) }
    ensures untaken { IfErr result.0 EndsTaking }
    ensures given { IfOk result.1
        (HasGiven Q.is_seat Q.known (numbers_in queue.now) giver most) }
    ensures ungiven { IfErr result.1 (EndsRun most) }
{
    join(
        rt,
        || -> Result<(Q::Seat, Vec<Taken>), Refusal>
            requires { IsOnePopper Q.is_seat Q.permits Q.known (numbers_in queue.now) taker }
            ensures taken { IfOk result (λ r.
                HasTaken Q.is_seat Q.known (numbers_in queue.entry.now) taker r.0 r.1.items) }
            ensures refusal { IfErr result EndsTaking }
        { pop_all(rt, alloc, queue, taker) },
        || -> Result<Q::Seat, Refusal>
            requires { IsOnePusher Q.is_seat Q.permits Q.known (numbers_in queue.now) giver }
            ensures given { IfOk result
                (HasGiven Q.is_seat Q.known (numbers_in queue.entry.now) giver most) }
            ensures refusal { IfErr result (EndsRun most) }
        { give(rt, queue, giver, most) },
    )
}

/// One thread pushes 1, 2 and so on to `most`, another takes as many values: these, in that order.
///
/// The queue is shut behind the pushes, or behind the one that was refused, and so the other thread ends.
///
/// Refusals: `Memory`, `WornOut`, and `BadSize` where `most` is no body's number; a push waits for a node and a pop for a
/// value. Where no thread can be made the pushes come first, so the queue needs room for all of them. Takes memory for the
/// values.
pub fn run<R: Threads + Wait + Sync, Q: Fifo + Sync + Drop>(
    rt: &R,
    alloc: Global,
    queue: Q,
    giver: Q::Seat,
    taker: Q::Seat,
    most: u64,
) -> Result<Vec<Taken>, Refusal>
    requires { IsDuo Q.is_seat Q.permits Q.known queue giver taker }
    //= callers/any_queue (taken, refusal): On any `Fifo` where one seat alone may push, another alone may pop, and neither
    //=   has done anything, 1 to `most` are handed over.
    ensures taken { IfOk result (λ values. values.items ≡ values_to (Q.known giver).number most) }
    ensures refusal { IfErr result (EndsRun most) }
{
    let numbers = Numbers::new(queue);
    let queue = SharedQueue::new(numbers);
    let (taken, given) = both(rt, alloc, &queue, giver, taker, most);
    let (mut taker, values) = taken?;
    let mut giver = given?;
    queue.meet(&mut giver, &mut taker);
    Ok(values)
}
