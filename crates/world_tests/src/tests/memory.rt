//! Refused memory: the call says so, changes nothing, and succeeds once there is memory.
use super::expected::Answer::{Done, Value};
use super::expected::Call::{self, Deq, Enq};
use super::expected::{Complete, op};
use super::moves::steps;
use super::trials::{NON_BLOCKING, are, world_of};
use history::{Refusal, Stamped};
use std::alloc::Global;
use std::process::Abort;
use std::test::Fail;
use step_machine::World;

fn world_of_two_actors(alloc: Global) -> Result<World, Refusal> {
    match world_of(alloc, NON_BLOCKING) {
        Err(Refusal::Memory) => world_of(alloc, NON_BLOCKING),
        answer => answer,
    }
}

fn history_of(alloc: Global, world: &World) -> Result<Vec<Stamped>, Refusal> {
    match world.history(alloc) {
        Err(Refusal::Memory) => world.history(alloc),
        answer => answer,
    }
}

/// Begins a call, again where memory was refused; a refused begin leaves the actor idle.
fn begin(rt: &impl Abort, world: &mut World, actor: u16, call: Call) -> Result<(), Refusal> {
    let answer = world.begin(actor, op(call));
    let is_refused = matches!(answer, Err(Refusal::Memory));
    if is_refused {
        assert!(rt; matches!(steps(world, actor, 1), Err(Refusal::IdleActor)));
        return world.begin(actor, op(call));
    }
    answer
}

/// An actor, its call, and how many steps that takes.
const CALLS: [(u16, Call, u32); 3] = [(1, Enq(5), 10), (1, Enq(6), 10), (2, Deq, 9)];

const EXPECTED: [Complete; 3] = [
    Complete(1, Enq(5), (1, 10, 9), Done),
    Complete(1, Enq(6), (11, 20, 19), Done),
    Complete(2, Deq, (21, 29, 26), Value(1, 5)),
];

#[test]
fn refused_memory_is_told_and_changes_nothing(rt: HostRuntime) -> Result<(), Fail> {
    let mut world = world_of_two_actors(rt.alloc())?;
    for (actor, call, count) in &CALLS {
        begin(&rt, &mut world, *actor, *call)?;
        steps(&mut world, *actor, *count)?;
    }
    are(&rt, "", &history_of(rt.alloc(), &world)?, &EXPECTED);
    Ok(())
}
