//! Calls of a world, from their begin to their reply.
use history::{Body, Op, Reply};
use line_table::Line;
use step_machine::{Stepped, WorldOf};

/// How many steps a call takes at most where no other actor is in a call.
pub const MOST_STEPS: u32 = 17;

/// How many numbers there are of which each is an enqueue or a dequeue.
pub const CHOICES: u64 = 2000;

/// How many there are of which each is a call; few are shuts.
pub const CHOICES_WITH_SHUTS: u64 = 2040;

/// The call of a number: an enqueue of a small body, from 1,000 on a dequeue, and from 2,000 on a shut.
pub fn call_of(number: u64) -> Op {
    match Body::new(number) {
        Some(body) if number < CHOICES / 2 => Op::Enq(body),
        _ if number < CHOICES => Op::Deq,
        _ => Op::Shut,
    }
}

/// One step of an actor; whether it is in a call.
pub fn goes<const B: u32>(world: &mut WorldOf<B>, actor: u16) -> bool {
    match world.step(actor) {
        Ok(_) => true,
        Err(_) => false,
    }
}

/// Begins a call and takes so many steps of it at most: the reply, and how many steps it took. None where it has no reply
/// by then.
pub fn told<const B: u32>(
    world: &mut WorldOf<B>,
    actor: u16,
    op: Op,
    most: u32,
) -> Option<(Reply, u32)> {
    world.begin(actor, op).ok()?;
    for taken in 1..=most {
        match world.step(actor).ok()? {
            Stepped::Ended(_, reply) => return Some((reply, taken)),
            _ => {}
        }
    }
    None
}

/// Begins a call of an actor that keeps its nodes, and takes so many steps of it at most: the reply. Where a value is taken,
/// the actor gives up in place of freeing the node, which goes to its pocket.
pub fn told_keeping<const B: u32>(
    world: &mut WorldOf<B>,
    actor: u16,
    op: Op,
    most: u32,
) -> Option<Reply> {
    world.begin(actor, op).ok()?;
    for _ in 0..most {
        match world.step(actor).ok()? {
            Stepped::Ended(_, reply) => return Some(reply),
            Stepped::Went(Line::D13 | Line::B6) => return world.give(actor).ok(),
            _ => {}
        }
    }
    None
}
