//! Two worlds that nothing tells apart but their histories: neither their words, nor where their actors stand. So a running queue's words and
//! seats alone don't determine a world, and what its seats know of the moves does.
use super::expected::Call::{Deq, Enq};
use super::moves::{begin, give, steps};
use history::{Refusal, Stamped};
use line_table::Kind;
use std::alloc::Global;
use std::process::Abort;
use std::test::Fail;
use step_machine::World;

const NODES: u32 = 4;

/// As many steps as a call takes at most.
const MOST: u32 = 17;

// An actor takes steps until its call ends.
fn ends(world: &mut World, actor: u16) -> Result<(), Refusal> {
    for _ in 0..MOST {
        if world.line(actor).is_some() {
            steps(world, actor, 1)?;
        }
    }
    Ok(())
}

// Two values are pushed, and actor 1 loses the first turn of a dequeue to one of actor 2.
fn one_turn_lost(alloc: Global) -> Result<World, Refusal> {
    let mut world = World::new(alloc, Kind::NonBlocking, NODES, 1000, 2)?;
    begin(&mut world, 2, Enq(5))?;
    ends(&mut world, 2)?;
    begin(&mut world, 2, Enq(6))?;
    ends(&mut world, 2)?;
    begin(&mut world, 1, Deq)?;
    steps(&mut world, 1, 3)?;
    begin(&mut world, 2, Deq)?;
    ends(&mut world, 2)?;
    steps(&mut world, 1, 1)?;
    Ok(world)
}

// Both actors push.
fn both_push(world: &mut World) -> Result<(), Refusal> {
    begin(world, 2, Enq(7))?;
    ends(world, 2)?;
    begin(world, 1, Enq(8))?;
    ends(world, 1)
}

// Actor 1 gives its dequeue up, Busy, and makes another one.
fn of_two_calls(alloc: Global) -> Result<World, Refusal> {
    let mut world = one_turn_lost(alloc)?;
    give(&mut world, 1)?;
    begin(&mut world, 1, Deq)?;
    ends(&mut world, 1)?;
    both_push(&mut world)?;
    Ok(world)
}

// Actor 1 goes on with its dequeue, and actor 2 gives one up before its first line.
fn of_two_turns(alloc: Global) -> Result<World, Refusal> {
    let mut world = one_turn_lost(alloc)?;
    ends(&mut world, 1)?;
    begin(&mut world, 2, Deq)?;
    give(&mut world, 2)?;
    both_push(&mut world)?;
    Ok(world)
}

// What is seen of a world but its history: its words, where its actors stand, and how many numbers it gave.
fn seen(alloc: Global, world: &World) -> Option<Vec<u64>> {
    let mut all = Vec::new(alloc);
    for index in 0..6 + 2 * NODES as usize {
        all.push(world.word(index)?).ok()?;
    }
    for actor in 1..=2 {
        all.push(u64::from(world.line(actor).is_some())).ok()?;
        all.push(world.pocket(actor).map_or(0, |held| u64::from(held.node)))
            .ok()?;
    }
    all.push(world.steps()).ok()?;
    Some(all)
}

#[test]
fn words_and_actors_do_not_determine_a_history(rt: HostRuntime) -> Result<(), Fail> {
    let one = of_two_calls(rt.alloc()).map_err(|_| "no world")?;
    let other = of_two_turns(rt.alloc()).map_err(|_| "no world")?;
    let words = seen(rt.alloc(), &one).ok_or("no words")?;
    assert_eq!(&rt; seen(rt.alloc(), &other), Some(words));
    let history: Vec<Stamped> = one.history(rt.alloc()).map_err(|_| "no history")?;
    let turned: Vec<Stamped> = other.history(rt.alloc()).map_err(|_| "no history")?;
    assert_eq!(&rt; history.len(), turned.len());
    assert_ne!(&rt; history, turned);
    Ok(())
}
