//! Makes an event of a schedule on a world.
ghost use Rattle.std.specs.Prelude.{◌≡◌, ◌+◌, ◌^◌, ◌<◌, ◌≤◌, IfOk, IfErr, OnOk, Some, replicate};
ghost use Rattle.step_machine.specs.Calls.{line_of, GiveRefused, StepRefused};
ghost use Rattle.step_machine.specs.Machine.{actor_of, next};
ghost use Rattle.step_machine.specs.declared.actors.Move.TheVariants.{Give, Step};
ghost use Rattle.schedule_text.specs.Texts.{IsEventInRange};
ghost use Rattle.run_engine.specs.Runs.{world_after, EventLeads, StepsRefused, StepAtRefused, EventRefused};
ghost use Rattle.engine_faults.specs.Faults.{IsMoveRefusal};

use history::{Refusal, Reply};
use line_table::Line;
use schedule_text::Event;
use step_machine::{Stepped, WorldOf};

/// Takes one step of an actor, and answers the line at which it was taken.
fn make_step<const B: u32>(world: &mut WorldOf<B>, actor: u16) -> Result<Line, Refusal>
    requires left { world.old.steps + 1 < 2 ^ 64 }
    ensures ok { OnOk result (next world.old (Step actor) ≡ Some world.new) }
    ensures at { IfOk result (λ line. line_of (actor_of world.old actor) ≡ Some line) }
    ensures steps { OnOk result (world.new.steps ≡ world.old.steps + 1) }
    ensures kind { IfErr result IsMoveRefusal }
    ensures refused { IfErr result (StepRefused world.old actor) }
{
    // The check of the call stops unless the type of a reply is named here.
    let _: Option<Reply> = None;
    match world.step(actor)? {
        Stepped::Went(line) | Stepped::Ended(line, _) => Ok(line),
        Stepped::Began => unreachable!(),
    }
}

/// Takes one step of an actor, which has to be one at this line.
fn make_step_at<const B: u32>(world: &mut WorldOf<B>, actor: u16, line: Line) -> Result<(), Refusal>
    requires left { world.old.steps + 1 < 2 ^ 64 }
    ensures ok { OnOk result (EventLeads world.old (Event.Step actor line) world.new) }
    ensures steps { OnOk result (world.new.steps ≡ world.old.steps + 1) }
    ensures kind { IfErr result IsMoveRefusal }
    ensures refused { IfErr result (StepAtRefused world.old actor line) }
{
    if make_step(world, actor)? != line {
        return Err(Refusal::NotHere);
    }
    Ok(())
}

/// Takes so many steps of one actor.
fn make_steps<const B: u32>(world: &mut WorldOf<B>, actor: u16, count: u32) -> Result<(), Refusal>
    requires left { world.old.steps + count + 1 < 2 ^ 64 }
    ensures ok { OnOk result (world_after (replicate count (Step actor)) world.old ≡ Some world.new) }
    ensures steps { OnOk result (world.new.steps ≤ world.old.steps + count) }
    ensures kind { IfErr result IsMoveRefusal }
    ensures refused { IfErr result (StepsRefused world.old actor count) }
{
    for _ in 0..count {
        make_step(world, actor)?;
    }
    Ok(())
}

/// Gives up the call of an actor.
fn give_up<const B: u32>(world: &mut WorldOf<B>, actor: u16) -> Result<(), Refusal>
    requires left { world.old.steps + 1 < 2 ^ 64 }
    ensures ok { OnOk result (next world.old (Give actor) ≡ Some world.new) }
    ensures steps { OnOk result (world.new.steps ≡ world.old.steps + 1) }
    ensures kind { IfErr result IsMoveRefusal }
    ensures refused { IfErr result (GiveRefused world.old actor) }
{
    // The check of the call stops unless the type of a reply is named here.
    let _: Option<Reply> = None;
    world.give(actor)?;
    Ok(())
}

/// Makes the moves of an event. Where the event is refused, the world is whatever its moves left. A begin takes memory;
/// it doesn't wait.
pub fn make<const B: u32>(world: &mut WorldOf<B>, event: Event) -> Result<(), Refusal>
    requires range { IsEventInRange event }
    requires left { world.old.steps + 1000001 < 2 ^ 64 }
    ensures ok { OnOk result (EventLeads world.old event world.new) }
    ensures steps { OnOk result (world.new.steps ≤ world.old.steps + 1000000) }
    ensures kind { IfErr result IsMoveRefusal }
    ensures refused { IfErr result (EventRefused world.old event) }
{
    match event {
        Event::Begin(actor, op) => world.begin(actor, op),
        Event::Step(actor, line) => make_step_at(world, actor, line),
        Event::Steps(actor, count) => make_steps(world, actor, count),
        Event::Give(actor) => give_up(world, actor),
    }
}
