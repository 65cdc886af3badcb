//! Two threads that share a world.
use super::comparisons::same;
use super::expected::Answer::Value;
use super::expected::Call::{self, Deq, Enq};
use super::expected::{op, reply};
use super::trials::{TWO_LOCK, world_of};
use history::{Refusal, Reply, Stamped, Verdict, check};
use std::alloc::Global;
use std::sync::{Mutex, Wait};
use std::test::Fail;
use std::thread::join;
use step_machine::{Bench, Move, Stepped, on_bench, step_in};

/// More steps than any call of this test takes.
const MOST_STEPS: u32 = 20;

/// Begins a call of an actor and takes its steps until it ends, each move under a lock of its own. Answers how many
/// steps it took.
fn whole_call(rt: &impl Wait, bench: &Bench, actor: u16, call: Call) -> Result<u32, Refusal> {
    step_in(&mut on_bench(rt, bench), Move::Begin(actor, op(call)))?;
    for before in 0..MOST_STEPS {
        let stepped = step_in(&mut on_bench(rt, bench), Move::Step(actor))?;
        if let Stepped::Ended(_, _) = stepped {
            return Ok(before + 1);
        }
    }
    Ok(MOST_STEPS)
}

// The history of the world behind a bench, and how many steps it took.
fn seen_on(rt: &impl Wait, alloc: Global, bench: &Bench) -> Result<(Vec<Stamped>, u64), Refusal> {
    let world = on_bench(rt, bench);
    Ok((world.history(alloc)?, world.steps()))
}

// Whether an operation is the push or the pop, and a pop of so many steps: 4 where it finds nothing, and else 9.
fn is_either(operation: &Stamped, popped: u32) -> bool {
    let expected = match (operation.actor, popped) {
        (1, _) => (op(Enq(5)), Reply::Done),
        (_, 4) => (op(Deq), Reply::Empty),
        _ => (op(Deq), reply(Value(1, 5))),
    };
    (operation.op, operation.reply) == (expected.0, Some(expected.1))
}

#[test]
fn two_threads_share_a_world(rt: HostRuntime) -> Result<(), Fail> {
    let bench = Mutex::new(world_of(rt.alloc(), TWO_LOCK)?);
    let (pushed, popped) = join(
        &rt,
        || whole_call(&rt, &bench, 1, Enq(5)),
        || whole_call(&rt, &bench, 2, Deq),
    );
    let (history, steps) = seen_on(&rt, rt.alloc(), &bench)?;
    let popped = popped?;
    let found = (pushed?, history.len(), steps);
    same(&rt, found, (10, 2, u64::from(popped) + 10), popped);
    same(&rt, popped == 4 || popped == 9, true, popped);
    same(&rt, check(rt.alloc(), &history)?, Verdict::Yes, "");
    for operation in &history {
        let is_expected = is_either(operation, popped);
        same(&rt, is_expected, true, (*operation, popped));
    }
    Ok(())
}
