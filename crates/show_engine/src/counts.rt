//! Runs a schedule once, to find how far its events can be made, and where its operations take effect.
ghost use Rattle.std.specs.Prelude.{◌≡◌, ◌≤◌, IfOk, IfErr, length, take};
ghost use Rattle.history.specs.declared.refusals.Refusal.TheVariants.{Memory};
ghost use Rattle.run_engine.specs.Extents.{IsExtentOf};
ghost use Rattle.run_engine.specs.Runs.{opening_of, EventsLead};
ghost use Rattle.schedule_text.specs.Texts.{IsInRange};
ghost use Rattle.show_engine.specs.PicturesWritten.{AreEffects, IsCountOf};

use crate::effects::effects_of;
use history::Refusal;
use run_engine::{RunExtent, first_events, make_all, opening_world};
use schedule_text::Schedule;
use std::alloc::Global;
use step_machine::WorldOf;

/// What a run of a schedule leaves for the next one.
#[derive(Drop)]
pub struct Counted {
    /// How far its events can be made.
    pub run: RunExtent,
    /// The numbers at which operations take effect, by rising number.
    pub effects: Vec<u64>,
}

/// The numbers at which operations of a world take effect, by rising number.
fn effects_in<const B: u32>(alloc: Global, world: &WorldOf<B>) -> Result<Vec<u64>, Refusal>
    ensures ok { IfOk result (λ effects. AreEffects world.now.operations effects.items) }
    ensures memory { IfErr result (λ refusal. refusal ≡ Memory) }
{
    let operations = world.history(alloc)?;
    effects_of(alloc, operations.as_slice())
}

/// The world after so many events of a schedule, which were made before. They can be made again, unless memory is refused.
fn made_again<const B: u32>(
    alloc: Global,
    schedule: &Schedule,
    made: usize,
) -> Result<WorldOf<B>, Refusal>
    requires range { IsInRange schedule.now }
    requires bits { schedule.now.bits ≡ B }
    requires within { made ≤ length schedule.now.events }
    ensures ok { IfOk result (λ world.
        EventsLead (opening_of schedule.now) (take made schedule.now.events) world) }
    ensures memory { IfErr result (λ refusal. refusal ≡ Memory) }
{
    let mut world = opening_world::<B>(alloc, schedule)?;
    let again = make_all(&mut world, first_events(schedule, made))?;
    match again.refusal {
        None => Ok(world),
        Some(_) => Err(Refusal::Memory),
    }
}

/// Finds where the operations take effect of a schedule of which it is known how far its events can be made.
pub(crate) fn count_again<const B: u32>(
    alloc: Global,
    schedule: &Schedule,
    run: RunExtent,
) -> Result<Counted, Refusal>
    requires range { IsInRange schedule.now }
    requires bits { schedule.now.bits ≡ B }
    requires run { IsExtentOf schedule.now run }
    ensures ok { IfOk result (IsCountOf schedule.now) }
    ensures same { IfOk result (λ counted. counted.run ≡ run) }
    ensures memory { IfErr result (λ refusal. refusal ≡ Memory) }
{
    let world = made_again::<B>(alloc, schedule, run.made)?;
    let effects = effects_in(alloc, &world)?;
    Ok(Counted { run, effects })
}

/// Makes the events of a schedule, as far as they can be made, on a world of their own. Where one is refused, some of its steps may
/// have been taken, so those before it are made once more.
pub(crate) fn count<const B: u32>(alloc: Global, schedule: &Schedule) -> Result<Counted, Refusal>
    requires range { IsInRange schedule.now }
    requires bits { schedule.now.bits ≡ B }
    ensures ok { IfOk result (IsCountOf schedule.now) }
    ensures memory { IfErr result (λ refusal. refusal ≡ Memory) }
{
    let mut world = opening_world::<B>(alloc, schedule)?;
    let run = make_all(&mut world, &schedule.events)?;
    match run.refusal {
        None => {
            let effects = effects_in(alloc, &world)?;
            Ok(Counted { run, effects })
        }
        Some(_) => {
            drop(world);
            count_again::<B>(alloc, schedule, run)
        }
    }
}
