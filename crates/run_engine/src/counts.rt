//! How far the events of a schedule can be made: how many of them, how many steps these are, and what the next one is refused.
ghost use Rattle.std.specs.Prelude.{◌≡◌, ◌≤◌, None, All, IfOk, IfErr, length, take};
ghost use Rattle.history.specs.declared.refusals.Refusal.TheVariants.{Memory};
ghost use Rattle.run_engine.specs.Runs.{EventsLead, opening_of};
ghost use Rattle.schedule_text.specs.Texts.{IsEventInRange, IsInRange};
ghost use Rattle.run_engine.specs.Extents.{EndsAsCounted, IsCount, IsExtentOf};

use crate::events::make;
use engine_faults::Fault;
use history::Refusal;
use schedule_text::{Event, Schedule};
use std::alloc::Global;
use step_machine::WorldOf;

/// How far the events of a schedule can be made.
#[derive(Clone, Copy)]
pub struct RunExtent {
    /// How many of them can be, one after another.
    pub made: usize,
    /// How many steps these are.
    pub steps: u64,
    /// What the next one is refused, if there is one.
    pub refusal: Option<Refusal>,
}

/// The world of a schedule in which nothing happened yet.
pub fn opening_world<const B: u32>(
    alloc: Global,
    schedule: &Schedule,
) -> Result<WorldOf<B>, Refusal>
    requires range { IsInRange schedule.now }
    requires bits { schedule.now.bits ≡ B }
    ensures ok { IfOk result (λ w. w ≡ opening_of schedule.now) }
    ensures err { IfErr result (λ refusal. refusal ≡ Memory) }
{
    let actors = u32::from(schedule.actors);
    WorldOf::new(alloc, schedule.kind, schedule.nodes, schedule.limit, actors)
}

/// Makes events, as far as they can be made. Where one is refused, the world is whatever the moves of that left.
pub fn make_all<const B: u32>(
    world: &mut WorldOf<B>,
    events: &[Event],
) -> Result<RunExtent, Refusal>
    requires range { All IsEventInRange events.now }
    requires few { length events.now ≤ 1000000 }
    requires left { world.old.steps ≡ 0 }
    ensures ok { IfOk result (IsCount world.old events.now) }
    ensures whole { IfOk result (λ counted. counted.refusal ≡ None
        → EventsLead world.old events.now world.new) }
    ensures err { IfErr result (λ refusal. refusal ≡ Memory) }
{
    let mut made = 0usize;
    for event in events {
        let steps = world.steps();
        match make(world, *event) {
            Ok(()) => made += 1,
            Err(Refusal::Memory) => return Err(Refusal::Memory),
            Err(refusal) => {
                let refusal = Some(refusal);
                return Ok(RunExtent {
                    made,
                    steps,
                    refusal,
                });
            }
        }
    }
    Ok(RunExtent {
        made,
        steps: world.steps(),
        refusal: None,
    })
}

/// The first so many events of a schedule.
pub fn first_events(schedule: &Schedule, made: usize) -> &[Event]
    requires { made ≤ length schedule.now.events }
    ensures { result.now ≡ take made schedule.now.events }
{
    &schedule.events[..made]
}

/// How far the events of a schedule can be made, on a world of their own.
pub(crate) fn count_steps<const B: u32>(
    alloc: Global,
    schedule: &Schedule,
) -> Result<RunExtent, Refusal>
    requires range { IsInRange schedule.now }
    requires bits { schedule.now.bits ≡ B }
    ensures ok { IfOk result (IsExtentOf schedule.now) }
    ensures err { IfErr result (λ refusal. refusal ≡ Memory) }
{
    let mut world = opening_world::<B>(alloc, schedule)?;
    make_all(&mut world, &schedule.events)
}

/// Refuses a schedule as the first of its events is that can't be made, with the line of that; where all can be, it is Ok.
pub fn refuse_at(schedule: &Schedule, counted: &RunExtent) -> Result<(), Fault>
    requires range { IsInRange schedule.now }
    requires count { IsExtentOf schedule.now counted.now }
    ensures { EndsAsCounted schedule.now counted.now result }
{
    match counted.refusal {
        None => Ok(()),
        Some(refusal) => {
            let before = schedule.version.header_lines() + counted.made as u64;
            Err(Fault::at(before + 1, refusal))
        }
    }
}
