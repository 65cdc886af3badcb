//! What each thread does, over any queue.
ghost use Rattle.std.specs.Prelude.{IfSome};
ghost use Rattle.std.specs.List.{All};
ghost use Rattle.std.specs.Thread.{IsSync};
ghost use Rattle.first_threads.specs.Seats.{IsGiver, IsTaker, AreGivers, AreThree};

use crossbeam_utils::Backoff;
use history::{Body, Fifo};
use std::sync::Wait;
use std::thread::{Threads, join};

/// How many numbers each of the two pushes, from 1 on.
const EACH: u64 = 1000;

/// The last three of these seats, where the first two of them may push and the third may pop.
pub fn three_of<Q: Fifo>(queue: &Q, mut seats: Vec<Q::Seat>) -> Option<(Q::Seat, Q::Seat, Q::Seat)>
    requires { All (Q.is_seat queue.now) seats.items }
    ensures { IfSome result
        (λ t. AreThree Q.is_seat Q.permits Q.known queue.now t.0 t.1 t.2) }
{
    let taker = seats.pop()?;
    let other = seats.pop()?;
    let one = seats.pop()?;
    if queue.may_push(&one) && queue.may_push(&other) && queue.may_pop(&taker) {
        Some((one, other, taker))
    } else {
        None
    }
}

// Pushes 1, 2 and so on. Each push waits while other threads are in the way.
fn push_all<R: Wait, Q: Fifo>(rt: &R, queue: &Q, mut seat: Q::Seat)
    requires { IsGiver Q.is_seat Q.permits Q.known queue.now seat }
{
    for number in 1..=EACH {
        if let Some(body) = Body::new(number)
            && queue.push(rt, &mut seat, body).is_err()
        {
            return;
        }
    }
}

// Pops as many numbers as both push, and waits while none is there; their sum.
fn pop_all<R: Wait, Q: Fifo>(rt: &R, queue: &Q, mut seat: Q::Seat) -> u64
    requires { IsTaker Q.is_seat Q.permits Q.known queue.now seat }
{
    let mut left = 2 * EACH;
    let mut sum = 0u64;
    let backoff = Backoff::new();
    for _ in rt.forever() {
        match queue.pop(rt, &mut seat) {
            Ok(Some(taken)) => {
                sum = sum.wrapping_add(taken.body.number());
                left = left.saturating_sub(1);
                if left == 0 {
                    return sum;
                }
            }
            Ok(None) => backoff.snooze(),
            Err(_) => return sum,
        }
    }
    sum
}

// Two threads push.
fn push_both<R: Threads + Wait + Sync, Q: Fifo + Sync>(
    rt: &R,
    queue: &Q,
    one: Q::Seat,
    other: Q::Seat,
)
    requires one { IsGiver Q.is_seat Q.permits Q.known queue.now one }
    requires other { IsGiver Q.is_seat Q.permits Q.known queue.now other }
{
    join(
        rt,
        || -> ()
            requires { IsGiver Q.is_seat Q.permits Q.known queue.now one }
        { push_all(rt, queue, one) },
        || -> ()
            requires { IsGiver Q.is_seat Q.permits Q.known queue.now other }
        { push_all(rt, queue, other) },
    );
}

/// The sum of what one thread pops while two others push.
pub fn run<R: Threads + Wait + Sync, Q: Fifo + Sync>(
    rt: &R,
    queue: &Q,
    one: Q::Seat,
    other: Q::Seat,
    taker: Q::Seat,
) -> u64
    requires { AreThree Q.is_seat Q.permits Q.known queue.now one other taker }
{
    let (sum, ()) = join(
        rt,
        || -> u64
            requires { IsTaker Q.is_seat Q.permits Q.known queue.now taker }
        { pop_all(rt, queue, taker) },
        || -> ()
            requires { IsSync R.row × AreGivers Q.is_seat Q.permits Q.known queue.now one other }
        { push_both(rt, queue, one, other) },
    );
    sum
}
