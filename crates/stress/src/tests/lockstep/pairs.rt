//! A queue and a world, call by call.
use crate::tests::chance::Chance;
use crate::tests::lockstep::agreement::{has_pocket, has_words};
use crate::tests::lockstep::answers::Answers;
use crate::tests::lockstep::queues::Watched;
use crate::tests::lockstep::world_calls::{
    CHOICES_WITH_SHUTS, MOST_STEPS, call_of, told, told_keeping,
};
use counted_ref::most_count;
use history::{Fifo, Op, Reply};
use nonblocking::MsQueueOf;
use std::alloc::Global;
use std::process::Abort;
use step_machine::WorldOf;
use two_lock::TwoLockQueueOf;

/// How often a queue and a world begin anew.
const ROUNDS: u64 = 400;

/// How many calls are made then.
const CALLS: u64 = 25;

/// What all rounds came to.
#[derive(Clone, Copy, Debug, PartialEq, Eq)]
struct Found {
    /// How many calls were made, each with the same reply, words and pockets afterwards.
    same: u64,
    answers: Answers,
}

// What a queue answers to a call; none where the seat may not make it.
fn answered<Q: Fifo>(queue: &Q, seat: &mut Q::Seat, op: Op, turns: u32) -> Option<Reply> {
    if !queue.may_push(seat) || !queue.may_pop(seat) {
        return None;
    }
    let reply = match op {
        Op::Enq(body) => match queue.try_push(seat, body, turns) {
            Ok(()) => Reply::Done,
            Err(refusal) => Reply::Refused(refusal),
        },
        Op::Deq => match queue.try_pop(seat, turns) {
            Ok(Some(taken)) => Reply::Value(taken),
            Ok(None) => Reply::Empty,
            Err(refusal) => Reply::Refused(refusal),
        },
        Op::Shut => match queue.try_shut(seat, turns) {
            Ok(()) => Reply::Done,
            Err(refusal) => Reply::Refused(refusal),
        },
    };
    Some(reply)
}

// One call by a seat and by the actor of its number; whether the replies are the same.
fn agrees<Q: Watched<B>, const B: u32>(
    queue: &Q,
    seat: &mut Q::Seat,
    world: &mut WorldOf<B>,
    actor: u16,
    chance: &mut Chance,
    answers: &mut Answers,
) -> bool {
    let drawn = chance.below(CHOICES_WITH_SHUTS);
    let turns = if chance.below(2) == 0 { 1 } else { 8 };
    let Some(reply) = answered(queue, seat, call_of(drawn), turns) else {
        return false;
    };
    let wanted = if Q::keeps_nodes(seat) {
        told_keeping(world, actor, call_of(drawn), MOST_STEPS)
    } else {
        told(world, actor, call_of(drawn), MOST_STEPS).map(|(wanted, _)| wanted)
    };
    answers.adds(call_of(drawn), &reply);
    wanted == Some(reply)
}

// The calls of one round, by so many seats, 1 or 2; how many agreed.
fn calls<Q: Watched<B>, const B: u32>(
    queue: &Q,
    mut one: Q::Seat,
    mut other: Q::Seat,
    world: &mut WorldOf<B>,
    seats: u64,
    chance: &mut Chance,
    answers: &mut Answers,
) -> u64 {
    let mut same = 0u64;
    for _ in 0..CALLS {
        let replied = if seats == 1 || chance.below(2) == 0 {
            agrees(queue, &mut one, world, 1, chance, answers)
        } else {
            agrees(queue, &mut other, world, 2, chance, answers)
        };
        if replied
            && has_words(queue, world)
            && has_pocket::<Q, B>(&one, world, 1)
            && has_pocket::<Q, B>(&other, world, 2)
        {
            same = same.wrapping_add(1);
        }
    }
    same
}

// One round: a new queue and a new world of sizes that are drawn.
fn round<Q: Watched<B> + Drop, const B: u32>(
    alloc: Global,
    seats: u64,
    keeps: bool,
    chance: &mut Chance,
    answers: &mut Answers,
) -> Option<u64> {
    let nodes = 2 + chance.below(4) as u32;
    let limit = match chance.below(7) {
        0 => most_count(B),
        limit => limit,
    };
    let (queue, mut dealt) = Q::made(alloc, nodes, limit).ok()?;
    let mut other = dealt.pop()?;
    let mut one = dealt.pop()?;
    if keeps {
        queue.keep_nodes(&mut other);
        queue.keep_nodes(&mut one);
    }
    let mut world = WorldOf::<B>::new(alloc, Q::kind(), nodes, limit, 2).ok()?;
    Some(calls(&queue, one, other, &mut world, seats, chance, answers))
}

// All rounds with calls by so many seats, 1 or 2, which keep their nodes or don't; none where memory is refused.
fn rounds<Q: Watched<B> + Drop, const B: u32>(
    alloc: Global,
    seats: u64,
    keeps: bool,
) -> Option<Found> {
    let mut chance = Chance::new(seats);
    let mut answers = Answers::none();
    let mut same = 0u64;
    for _ in 0..ROUNDS {
        same = same.wrapping_add(round::<Q, B>(alloc, seats, keeps, &mut chance, &mut answers)?);
    }
    Some(Found { same, answers })
}

// All calls are the same, and each answer came.
fn are_the_same<Q: Watched<B> + Drop, const B: u32>(
    rt: &(impl AllocGlobal + Abort),
    seats: u64,
    keeps: bool,
) {
    let due = Found {
        same: ROUNDS * CALLS,
        answers: Answers::all(Q::kind(), keeps),
    };
    let found = rounds::<Q, B>(rt.alloc(), seats, keeps);
    assert_eq!(rt; found, Some(due), "{:?}, {B} bits", Q::kind());
}

// The same of both queues, with each of these numbers of bits for a node.
fn both_are_the_same(rt: &(impl AllocGlobal + Abort), seats: u64, keeps: bool) {
    are_the_same::<TwoLockQueueOf<16>, 16>(rt, seats, keeps);
    are_the_same::<MsQueueOf<16>, 16>(rt, seats, keeps);
    are_the_same::<TwoLockQueueOf<24>, 24>(rt, seats, keeps);
    are_the_same::<MsQueueOf<24>, 24>(rt, seats, keeps);
    are_the_same::<TwoLockQueueOf<32>, 32>(rt, seats, keeps);
    are_the_same::<MsQueueOf<32>, 32>(rt, seats, keeps);
}

#[test]
fn answers_one_seat_as_the_machine_does(rt: HostRuntime) {
    both_are_the_same(&rt, 1, false);
}

#[test]
fn answers_two_seats_as_the_machine_does(rt: HostRuntime) {
    both_are_the_same(&rt, 2, false);
}

#[test]
fn answers_one_seat_that_keeps_its_nodes_as_the_machine_does(rt: HostRuntime) {
    both_are_the_same(&rt, 1, true);
}

#[test]
fn answers_two_seats_that_keep_their_nodes_as_the_machine_does(rt: HostRuntime) {
    both_are_the_same(&rt, 2, true);
}
