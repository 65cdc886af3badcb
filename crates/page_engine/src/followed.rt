//! The trace of a schedule, and where its actors stand behind it.
ghost use Rattle.std.specs.Prelude.{◌≡◌, ◌++◌, None, IfErr, IfOk, OnOk};
ghost use Rattle.run_engine.specs.Extents.{IsExtentOf};
ghost use Rattle.run_engine.specs.Runs.{EventsLead, opening_of};
ghost use Rattle.run_engine.specs.Pieces.{actors_text};
ghost use Rattle.run_engine.specs.Stands.{standing_text};
ghost use Rattle.schedule_text.specs.Texts.{IsInRange};
ghost use Rattle.page_engine.specs.Followed.{KeepsFollowed, KeepsLast, KeepsStands};

use crate::kept::KeptText;
use history::Refusal;
use run_engine::{RunExtent, by_bits, make_all, opening_world, stand_line, write_trace};
use schedule_text::Schedule;
use std::alloc::Global;
use step_machine::WorldOf;

/// Keeps where the first so many actors stand.
fn keep_stands<const B: u32>(
    world: &WorldOf<B>,
    actors: u16,
    kept: &mut KeptText,
) -> Result<(), Refusal>
    ensures kept { OnOk result (kept.new.bytes.items
        ≡ kept.old.bytes.items ++ actors_text (standing_text B world.now) actors) }
    ensures only_memory { IfErr result (λ refusal. refusal ≡ Refusal.Memory) }
{
    for index in 0..actors {
        let line = stand_line(world, index + 1);
        kept.put(line.as_slice())?;
    }
    Ok(())
}

/// The world behind the events of a schedule that can be made, and how far they can be. Where one is refused, the world is whatever its
/// moves left.
fn made_world<const B: u32>(
    alloc: Global,
    schedule: &Schedule,
) -> Result<(WorldOf<B>, RunExtent), Refusal>
    requires range { IsInRange schedule.now }
    requires bits { schedule.now.bits ≡ B }
    ensures extent { IfOk result (λ made. IsExtentOf schedule.now made.1) }
    ensures whole { IfOk result (λ made. made.1.refusal ≡ None
        → EventsLead (opening_of schedule.now) schedule.now.events made.0) }
    ensures only_memory { IfErr result (λ refusal. refusal ≡ Refusal.Memory) }
{
    let mut world = opening_world::<B>(alloc, schedule)?;
    let counted = make_all(&mut world, &schedule.events)?;
    Ok((world, counted))
}

/// How far the events of a schedule of `B` bits can be made.
fn extent_with_bits<const B: u32>(alloc: Global, schedule: &Schedule) -> Result<RunExtent, Refusal>
    requires range { IsInRange schedule.now }
    requires bits { schedule.now.bits ≡ B }
    ensures ok { IfOk result (IsExtentOf schedule.now) }
    ensures err { IfErr result (λ refusal. refusal ≡ Refusal.Memory) }
{
    let made = made_world::<B>(alloc, schedule)?;
    Ok(made.1)
}

/// The same of as many bits as the schedule says.
pub(crate) fn extent_of(alloc: Global, schedule: &Schedule) -> Result<RunExtent, Refusal>
    requires { IsInRange schedule.now }
    ensures ok { IfOk result (IsExtentOf schedule.now) }
    ensures err { IfErr result (λ refusal. refusal ≡ Refusal.Memory) }
{
    let bits = schedule.bits;
    by_bits!(bits, extent_with_bits(alloc, schedule))
}

/// Keeps where the actors of a schedule stand behind its events, all of which can be made, as was found before. They can be again,
/// unless memory is refused.
fn keep_stands_of<const B: u32>(
    alloc: Global,
    schedule: &Schedule,
    kept: &mut KeptText,
) -> Result<(), Refusal>
    requires range { IsInRange schedule.now }
    requires bits { schedule.now.bits ≡ B }
    ensures kept { OnOk result (KeepsStands schedule.now kept.old.bytes.items kept.new.bytes.items) }
    ensures only_memory { IfErr result (λ refusal. refusal ≡ Refusal.Memory) }
{
    let made = made_world::<B>(alloc, schedule)?;
    match made.1.refusal {
        None => keep_stands(&made.0, schedule.actors, kept),
        Some(_) => Err(Refusal::Memory),
    }
}

/// The same unless an event is refused: the trace has it then.
fn keep_last_stands<const B: u32>(
    alloc: Global,
    schedule: &Schedule,
    extent: &RunExtent,
    kept: &mut KeptText,
) -> Result<(), Refusal>
    requires range { IsInRange schedule.now }
    requires bits { schedule.now.bits ≡ B }
    ensures kept { OnOk result
        (KeepsLast schedule.now extent.now kept.old.bytes.items kept.new.bytes.items) }
    ensures only_memory { IfErr result (λ refusal. refusal ≡ Refusal.Memory) }
{
    match extent.refusal {
        None => keep_stands_of::<B>(alloc, schedule, kept),
        Some(_) => Ok(()),
    }
}

/// Follows a schedule of `B` bits.
fn follow_with_bits<const B: u32>(
    alloc: Global,
    schedule: &Schedule,
    extent: &RunExtent,
    kept: &mut KeptText,
) -> Result<(), Refusal>
    requires range { IsInRange schedule.now }
    requires bits { schedule.now.bits ≡ B }
    requires extent { IsExtentOf schedule.now extent.now }
    ensures followed { OnOk result
        (KeepsFollowed schedule.now extent.now kept.old.bytes.items kept.new.bytes.items) }
    ensures only_memory { IfErr result (λ refusal. refusal ≡ Refusal.Memory) }
{
    // A sink in memory takes nothing only where that is refused.
    let Ok(()) = write_trace::<B, KeptText>(alloc, schedule, extent, kept) else {
        return Err(Refusal::Memory);
    };
    keep_last_stands::<B>(alloc, schedule, extent, kept)
}

/// Keeps the trace of a schedule and where its actors stand then, behind other bytes. Where an event is refused, its events before that
/// are followed.
pub(crate) fn follow(
    alloc: Global,
    schedule: &Schedule,
    extent: &RunExtent,
    kept: &mut KeptText,
) -> Result<(), Refusal>
    requires range { IsInRange schedule.now }
    requires extent { IsExtentOf schedule.now extent.now }
    ensures followed { OnOk result
        (KeepsFollowed schedule.now extent.now kept.old.bytes.items kept.new.bytes.items) }
    ensures only_memory { IfErr result (λ refusal. refusal ≡ Refusal.Memory) }
{
    let bits = schedule.bits;
    by_bits!(bits, follow_with_bits(alloc, schedule, extent, kept))
}
