//! Long runs of a queue by some actors, with times around each call.
use crate::tests::chance::Chance;
use crate::tests::placements::comparisons::same;
use history::{Body, Op, Reply, Stamped, Taken};
use placing::{Placed, place};
use std::alloc::{AllocError, Global};
use std::collections::VecDeque;
use std::test::Fail;
use waiting_orders::{Found, searched};

// What an actor is in.
#[derive(Clone, Copy, Debug)]
struct Call {
    op: Op,
    first: u64,
    reply: Option<Reply>,
}

// A history of nearly so many operations: at each step an actor begins a call, or its call takes effect, or ends.
fn long_run(
    alloc: Global,
    chance: &mut Chance,
    actors: u16,
    operations: u64,
) -> Result<Vec<Stamped>, AllocError> {
    let mut calls = vec![in alloc; None; actors as usize]?;
    let mut queue = VecDeque::new(alloc);
    let mut history = Vec::new(alloc);
    for time in 1..operations.saturating_mul(3) {
        let actor = u16::try_from(chance.below(u64::from(actors))).unwrap_or(0);
        if let Some(call) = calls.get_mut(actor as usize) {
            let number = actor.saturating_add(1);
            let (next, ended) = gone_on(chance, &mut queue, *call, number, time)?;
            *call = next;
            if let Some(operation) = ended {
                history.push(operation)?;
            }
        }
    }
    Ok(history)
}

// One step of an actor: the call that it is in then, and its operation, if that ended.
fn gone_on(
    chance: &mut Chance,
    queue: &mut VecDeque<Taken>,
    call: Option<Call>,
    actor: u16,
    time: u64,
) -> Result<(Option<Call>, Option<Stamped>), AllocError> {
    let Some(Call { op, first, reply }) = call else {
        return Ok((Some(begun(chance, time)), None));
    };
    let Some(told) = reply else {
        let reply = Some(takes_effect(queue, op, actor)?);
        return Ok((Some(Call { op, first, reply }), None));
    };
    let operation = Stamped {
        actor,
        op,
        first,
        last: Some(time),
        at: None,
        reply: Some(told),
    };
    Ok((None, Some(operation)))
}

fn begun(chance: &mut Chance, time: u64) -> Call {
    let op = match Body::new(time) {
        Some(body) if chance.below(2) == 0 => Op::Enq(body),
        _ => Op::Deq,
    };
    Call {
        op,
        first: time,
        reply: None,
    }
}

fn takes_effect(queue: &mut VecDeque<Taken>, op: Op, actor: u16) -> Result<Reply, AllocError> {
    match op {
        Op::Enq(body) => {
            queue.push_back(Taken { from: actor, body })?;
            Ok(Reply::Done)
        }
        Op::Deq | Op::Shut => match queue.pop_front() {
            Some(value) => Ok(Reply::Value(value)),
            None => Ok(Reply::Empty),
        },
    }
}

#[test]
fn places_long_runs(rt: HostRuntime) -> Result<(), Fail> {
    for (actors, operations) in [(2, 1_000), (8, 1_000), (8, 100_000)] {
        let history = long_run(rt.alloc(), &mut Chance::new(5), actors, operations)?;
        let is_placed = matches!(place(rt.alloc(), &history, 1 << 30)?, Placed::History(_));
        same(&rt, is_placed, true, operations);
    }
    Ok(())
}

#[test]
fn waiting_pushes_place_long_runs(rt: HostRuntime) -> Result<(), Fail> {
    for (actors, operations) in [(8, 2_000), (8, 20_000)] {
        let history = long_run(rt.alloc(), &mut Chance::new(5), actors, operations)?;
        let placed = match searched(rt.alloc(), &history, 1 << 30)? {
            Found::Order(order) => order.len(),
            Found::Nothing | Found::Room => 0,
        };
        same(&rt, placed, history.len(), operations);
    }
    Ok(())
}
