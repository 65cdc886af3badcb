//! An actor that stops for good right before a line, in the runs of the table, while another one goes on.
use crate::tests::lockstep::stopped_actors::{
    DEQUEUE_STEPS, ENQUEUE_STEPS, PAIRS, SHUT_STEPS, lags, line_of, world_of,
};
use crate::tests::lockstep::stops::{ALL_END, Before, Call, NON_BLOCKING, NONE, TWO_LOCK, Told};
use crate::tests::lockstep::world_calls::{goes, told};
use history::{Reply, Verdict, check};
use line_table::{Kind, Line};
use std::alloc::Global;
use std::process::Abort;
use std::test::Fail;
use step_machine::World;

// What comes before the call of actor 1.
fn prepares(world: &mut World, before: Before) -> Option<()> {
    match before {
        Before::Nothing => {}
        Before::Value => {
            told(world, 2, Call::Enq.op()?, ENQUEUE_STEPS)?;
        }
        Before::Freed => {
            told(world, 2, Call::Enq.op()?, ENQUEUE_STEPS)?;
            told(world, 2, Call::Deq.op()?, DEQUEUE_STEPS)?;
        }
        Before::Lag => lags(world)?,
    }
    Some(())
}

// A call of actor 2: its reply, by its steps, or by giving up where it then stays before the line that takes the lock.
fn replied(world: &mut World, call: Call) -> Option<Reply> {
    let (most, lock) = match call {
        Call::Enq => (ENQUEUE_STEPS, Line::A3),
        Call::Deq => (DEQUEUE_STEPS, Line::B1),
        Call::Shut => (SHUT_STEPS, Line::S6),
    };
    if let Some((reply, _)) = told(world, 2, call.op()?, most) {
        return Some(reply);
    }
    if line_of(world, 2) != Some(lock) {
        return None;
    }
    world.give(2).ok()
}

// One run: actor 1 takes so many steps of its call and stops, and actor 2 goes on. None where memory is refused, where
// actor 1 doesn't stand before the line, or where a call of actor 2 has no reply.
fn told_beside(
    alloc: Global,
    world: &mut World,
    (line, before, call, steps): (Line, Before, Call, u32),
) -> Option<Told> {
    prepares(world, before)?;
    world.begin(1, call.op()?).ok()?;
    for _ in 0..steps {
        goes(world, 1);
    }
    let mut all = NONE;
    for _ in 0..PAIRS {
        all.adds(Call::Enq, replied(world, Call::Enq)?);
        all.adds(Call::Deq, replied(world, Call::Deq)?);
    }
    let history = world.history(alloc).ok()?;
    let verdict = check(alloc, &history).ok()?;
    if verdict != Verdict::Yes || line_of(world, 1) != Some(line) {
        return None;
    }
    Some(all)
}

// In a run the calls of actor 2 come to what is due, and the history is judged Yes.
fn comes_to(
    rt: &(impl AllocGlobal + Abort),
    kind: Kind,
    row: (Line, Before, Call, u32),
    due: Told,
) -> Result<(), Fail> {
    let mut world = world_of(rt.alloc(), kind).ok_or("no world")?;
    let told = told_beside(rt.alloc(), &mut world, row);
    assert_eq!(rt; told, Some(due), "{kind:?}, stopped before {:?}", row.0);
    Ok(())
}

#[test]
fn goes_on_beside_one_stopped_before_each_line_of_the_non_blocking_queue(
    rt: HostRuntime,
) -> Result<(), Fail> {
    for row in NON_BLOCKING {
        comes_to(&rt, Kind::NonBlocking, row, ALL_END)?;
    }
    Ok(())
}

#[test]
fn goes_on_but_for_its_locks_beside_one_stopped_before_each_line_of_the_two_lock_queue(
    rt: HostRuntime,
) -> Result<(), Fail> {
    for (line, before, call, steps, due) in TWO_LOCK {
        comes_to(&rt, Kind::TwoLock, (line, before, call, steps), due)?;
    }
    Ok(())
}
