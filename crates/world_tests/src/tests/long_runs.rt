//! One long run in the greatest queue: no call says that memory is refused where it is there.
use super::comparisons::same;
use super::expected::Answer::{Done, Value};
use super::expected::Call::{Deq, Enq};
use super::expected::{Complete, stamped};
use super::moves::{begin, steps};
use super::trials::{Sizes, world_of};
use history::{Refusal, Stamped, Verdict, check};
use line_table::Kind;
use std::alloc::Global;
use std::test::Fail;
use step_machine::World;

/// How many bodies are pushed, and then taken.
const CALLS: u32 = 100_000;

/// How many step numbers the pushes take, 10 each.
const PUSHED: u64 = 1_000_000;

const GREATEST: Sizes = Sizes {
    kind: Kind::TwoLock,
    nodes: 16_777_214,
    limit: 1_099_511_627_775,
    actors: 65_535,
};

/// A world of the greatest sizes in which one actor pushed the numbers below CALLS, and then took each.
fn pushed_and_popped(alloc: Global) -> Result<World, Refusal> {
    let mut world = world_of(alloc, GREATEST)?;
    for number in 0..CALLS {
        begin(&mut world, 1, Enq(number))?;
        steps(&mut world, 1, 10)?;
    }
    for _ in 0..CALLS {
        begin(&mut world, 1, Deq)?;
        steps(&mut world, 1, 9)?;
    }
    Ok(world)
}

/// The operation at this place of its history, from 0.
fn operation(place: u32) -> Stamped {
    if place < CALLS {
        let before = u64::from(place) * 10;
        let stamps = (before + 1, before + 10, before + 8);
        return stamped(Complete(1, Enq(place), stamps, Done));
    }
    let number = place - CALLS;
    let before = PUSHED + u64::from(number) * 9;
    let stamps = (before + 1, before + 9, before + 5);
    stamped(Complete(1, Deq, stamps, Value(1, number)))
}

#[test]
fn a_long_run_has_the_memory_that_it_takes(rt: HostRuntime) -> Result<(), Fail> {
    let world = pushed_and_popped(rt.alloc())?;
    let history = world.history(rt.alloc())?;
    same(&rt, history.len(), 200_000, "");
    for (place, found) in (0..200_000).zip(&history) {
        same(&rt, *found, operation(place), place);
    }
    same(&rt, check(rt.alloc(), &history)?, Verdict::Yes, "");
    Ok(())
}
