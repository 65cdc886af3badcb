//! Schedules by chance, made of moves that a world could make.
ghost use Rattle.std.specs.Prelude.{◌≤◌};
ghost use Rattle.counted_ref.specs.Ref.{IsSplit};

use history::{Body, Op};
use line_table::Kind;
use rand::RngExt;
use rand_pcg::Pcg32;
use schedule_text::{Event, Schedule, Version};
use std::alloc::Global;
use std::test::Fail;
use step_machine::{Move, Stepped, WorldOf, step_in};

/// Numbers that look like chance, the same each time from one seed.
#[derive(Drop)]
pub struct Chance {
    draws: Pcg32,
}

impl Chance {
    pub fn new(seed: u64) -> Chance {
        Chance {
            draws: Pcg32::new(seed, 0),
        }
    }

    /// A number below a limit, and 0 where that is 0.
    pub fn below(&mut self, limit: u64) -> u64
        ensures { result ≤ limit }
    {
        if limit == 0 {
            0
        } else {
            self.draws.random_range(0..limit)
        }
    }
}

/// A schedule of so many moves, or fewer, over few nodes with a low limit, so that each line is met.
pub fn schedule<const B: u32>(alloc: Global, chance: &mut Chance) -> Result<Schedule, Fail>
    requires { IsSplit B }
{
    let kind = if chance.below(2) == 0 {
        Kind::TwoLock
    } else {
        Kind::NonBlocking
    };
    let nodes = chance.below(4) as u32 + 2;
    let limit = chance.below(6) + 1;
    let actors = chance.below(3) as u16 + 1;
    let mut world = WorldOf::<B>::new(alloc, kind, nodes, limit, u32::from(actors))?;
    let mut events = Vec::new(alloc);
    for _ in 0..40 {
        let one = chosen(chance, actors);
        if let Ok(told) = step_in(&mut world, one) {
            events.push(event(chance, &one, &told))?;
        }
    }
    Ok(Schedule {
        version: Version::Two,
        kind,
        bits: B,
        nodes,
        limit,
        actors,
        events,
    })
}

// A move of some actor, mostly a step.
fn chosen(chance: &mut Chance, actors: u16) -> Move {
    let actor = (chance.below(u64::from(actors)) as u16).saturating_add(1);
    match chance.below(12) {
        0 => Move::Give(actor),
        1 => Move::Begin(actor, Op::Deq),
        2 | 3 => Move::Begin(actor, call(chance)),
        _ => Move::Step(actor),
    }
}

// An enqueue, or seldom a shut.
fn call(chance: &mut Chance) -> Op {
    match Body::new(chance.below(100)) {
        Some(body) if chance.below(15) > 0 => Op::Enq(body),
        _ => Op::Shut,
    }
}

// The event of a move, which for a step names its line now and then.
fn event(chance: &mut Chance, one: &Move, told: &Stepped) -> Event {
    match (*one, *told) {
        (Move::Begin(actor, op), _) => Event::Begin(actor, op),
        (Move::Give(actor), _) => Event::Give(actor),
        (Move::Step(actor), Stepped::Went(line)) if chance.below(2) == 0 => {
            Event::Step(actor, line)
        }
        (Move::Step(actor), _) => Event::Steps(actor, 1),
    }
}
