//! Moves of a world.

use super::events::Act;
use super::expected::{Call, op};
use history::Refusal;
use step_machine::{Move, WorldOf};

pub fn begin<const B: u32>(world: &mut WorldOf<B>, actor: u16, call: Call) -> Result<(), Refusal> {
    world.begin(actor, op(call))
}

pub fn give<const B: u32>(world: &mut WorldOf<B>, actor: u16) -> Result<(), Refusal> {
    world.give(actor)?;
    Ok(())
}

fn step<const B: u32>(world: &mut WorldOf<B>, actor: u16) -> Result<(), Refusal> {
    match world.step(actor) {
        Ok(_) => Ok(()),
        Err(refusal) => Err(refusal),
    }
}

/// Some steps of one actor; stops at the first that is refused.
pub fn steps<const B: u32>(world: &mut WorldOf<B>, actor: u16, count: u32) -> Result<(), Refusal> {
    for _ in 0..count {
        step(world, actor)?;
    }
    Ok(())
}

/// A move, for the call for all moves.
pub fn move_of(act: Act) -> Move {
    match act {
        Act::Begin(actor, call) => Move::Begin(actor, op(call)),
        Act::Step(actor) => Move::Step(actor),
        Act::Give(actor) => Move::Give(actor),
    }
}
