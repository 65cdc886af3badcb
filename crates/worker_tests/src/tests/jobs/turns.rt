//! Turns of one worker, on one thread.
ghost use Rattle.std.specs.List.{All};

use super::gates::Open;
use super::queues::{non_blocking_of, two_lock_of};
use super::seats::sums;
use crate::tests::comparisons::same;
use dispatcher::{Worked, work_one};
use history::{Body, Fifo, Refusal, WornWord};
use job_results::{Job, JobResult};
use mock_queues::{Listed, Planned, full_of_numbers};
use std::alloc::Global;
use std::process::Abort;
use std::test::Fail;

/// How many turns each call of a worker alone has.
const TURNS: u32 = 3;

/// Pops of many numbers of turns, refused or not.
const POPS: [(u32, Option<Refusal>); 6] = [
    (1, Some(Refusal::Busy)),
    (2, None),
    (7, Some(Refusal::WornOut(WornWord::Head))),
    (8, Some(Refusal::Busy)),
    (1000, None),
    (u32::MAX, Some(Refusal::Busy)),
];

// Pushes a small body, by a seat that may push. Else `BadSize`, which no queue answers.
fn push<Q: Fifo>(queue: &Q, seat: &mut Q::Seat, body: u64) -> Result<(), Refusal>
    requires { Q.is_seat queue.now seat.old }
    ensures { Q.is_seat queue.now seat.new }
{
    if !queue.may_push(seat) {
        return Err(Refusal::BadSize);
    }
    let Some(body) = Body::new(body) else {
        return Err(Refusal::BadSize);
    };
    queue.try_push(seat, body, TURNS)
}

// Shuts the queue, by a seat that may push. Else `BadSize`, which no queue answers.
fn shut<Q: Fifo>(queue: &Q, seat: &mut Q::Seat) -> Result<(), Refusal>
    requires { Q.is_seat queue.now seat.old }
    ensures { Q.is_seat queue.now seat.new }
{
    if !queue.may_push(seat) {
        return Err(Refusal::BadSize);
    }
    queue.try_shut(seat, TURNS)
}

// A turn of a worker whose seat may pop, in one turn of the queue or more. Else `BadSize`, which `work_one` never answers.
fn turn<'a, Q: Fifo>(
    queue: &Q,
    seat: &mut Q::Seat,
    jobs: &'a [Job],
    out: &mut Vec<JobResult<'a>>,
    turns: u32,
) -> Result<Worked, Refusal>
    requires { Q.is_seat queue.now seat.old }
    ensures { Q.is_seat queue.now seat.new }
{
    if !queue.may_pop(seat) || turns == 0 {
        return Err(Refusal::BadSize);
    }
    work_one(queue, seat, jobs, &Open, out, turns)
}

// A worker alone takes one value a turn, and does its job: it is never busy. Once the queue is shut, it tells so. Two seats:
// one that pops, and one that pushes.
fn takes_one_value_a_turn<Q: Fifo>(
    rt: &impl Abort,
    alloc: Global,
    queue: &Q,
    mut seats: Vec<Q::Seat>,
) -> Result<(), Fail>
    requires { All (Q.is_seat queue.now) seats.items }
{
    let jobs = sums(alloc, 2)?;
    let (Some(mut giver), Some(mut taker)) = (seats.pop(), seats.pop()) else {
        return Err(Refusal::BadSize.into());
    };
    let mut out = Vec::new(alloc);
    let turns = [
        (2, Ok(Worked::Did(2))),
        (0, Err(Refusal::Stranger)),
        (3, Err(Refusal::Stranger)),
        (1, Ok(Worked::Did(1))),
    ];
    for (body, wanted) in turns {
        push(queue, &mut giver, body)?;
        let worked = turn(queue, &mut taker, &jobs, &mut out, TURNS);
        assert_eq!(rt; worked, wanted, "body {body}");
    }
    for wanted in [Worked::Empty, Worked::Stop] {
        if wanted == Worked::Stop {
            shut(queue, &mut giver)?;
        }
        let worked = turn(queue, &mut taker, &jobs, &mut out, TURNS);
        same(rt, (worked, out.len()), (Ok(wanted), 2), "no value is left");
    }
    Ok(())
}

/// A worker alone takes one value a turn, on either queue.
#[test]
fn a_worker_takes_one_value_a_turn(rt: HostRuntime) -> Result<(), Fail> {
    let (queue, seats) = two_lock_of(rt.alloc(), 16, 1)?;
    takes_one_value_a_turn(&rt, rt.alloc(), &queue, seats)?;
    let (queue, seats) = non_blocking_of(rt.alloc(), 16, 1)?;
    takes_one_value_a_turn(&rt, rt.alloc(), &queue, seats)
}

// Each turn over a queue that goes by the list is one pop, in just the turns handed in, and is refused as it is. Where it is
// handed on, the queue itself has this answer.
fn turns_are_pops<Q: Fifo + Drop>(
    rt: &impl Abort,
    alloc: Global,
    queue: Q,
    mut seat: Q::Seat,
    answer: Worked,
) -> Result<(), Fail>
    requires { Q.is_seat queue seat }
{
    let queue = Planned::new(queue, Listed::new(&POPS));
    let mut out = Vec::new(alloc);
    for (turns, refusal) in &POPS {
        let worked = turn(&queue, &mut seat, &[], &mut out, *turns);
        let wanted = match refusal {
            Some(cause) => Err(*cause),
            None => Ok(answer),
        };
        same(rt, worked, wanted, turns);
    }
    Ok(())
}

/// A worker's turn is one pop, in just the turns handed in, and is refused as it is; also where the queue was shut.
#[test]
fn a_workers_turn_is_one_pop_in_these_turns(rt: HostRuntime) -> Result<(), Fail> {
    let (queue, seat) = full_of_numbers();
    turns_are_pops(&rt, rt.alloc(), queue, seat, Worked::Empty)?;
    let (queue, mut seats) = two_lock_of(rt.alloc(), 16, 1)?;
    let (Some(mut giver), Some(taker)) = (seats.pop(), seats.pop()) else {
        return Err(Refusal::BadSize.into());
    };
    shut(&queue, &mut giver)?;
    turns_are_pops(&rt, rt.alloc(), queue, taker, Worked::Stop)
}
