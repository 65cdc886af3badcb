//! Lets an actor take steps until it stands before a line, or until its call ends.
ghost use Rattle.std.specs.Prelude.{◌≡◌, ◌≢◌, ◌+◌, ◌^◌, ◌<◌, ◌≤◌, Some, None, true, false, IfOk, IfErr, OnOk};
ghost use Rattle.step_machine.specs.Calls.{IsBusy};
ghost use Rattle.step_machine.specs.Machine.{actor_of, next};
ghost use Rattle.step_machine.specs.declared.actors.Move.TheVariants.{Step};
ghost use Rattle.engine_faults.specs.Faults.{IsMoveRefusal};
ghost use Rattle.expand_engine.specs.Walks.{ComesTo, EndsCall, FinishRefused, IsStanding, UntilRefused};

use history::{Refusal, Reply};
use line_table::Line;
use step_machine::WorldOf;

/// How many steps an actor takes at most.
const MOST_STEPS: u32 = 64;

/// The line before which an actor stands; none where it has no call.
fn standing<const B: u32>(world: &WorldOf<B>, actor: u16) -> Result<Option<Line>, Refusal>
    ensures ok { IfOk result (λ line. IsStanding world.now actor line) }
    ensures err { IfErr result (λ refusal. (refusal ≡ Refusal.NoSuchActor)
        × (actor_of world.now actor ≡ None)) }
{
    if actor == 0 || usize::from(actor) > world.actors() {
        return Err(Refusal::NoSuchActor);
    }
    Ok(world.line(actor))
}

/// Whether both are one line.
fn is_same(at: Line, line: Line) -> bool
    ensures yes { result ≡ true → at ≡ line }
    ensures no { result ≡ false → at ≢ line }
{
    at == line
}

/// Takes a step of an actor that has a call.
fn walk<const B: u32>(world: &mut WorldOf<B>, actor: u16)
    requires busy { IsBusy world.old actor }
    requires left { world.old.steps + 1 < 2 ^ 64 }
    ensures next { next world.old (Step actor) ≡ Some world.new }
    ensures steps { world.new.steps ≡ world.old.steps + 1 }
{
    // The check of the call stops unless the type of a reply is named here.
    let _: Option<Reply> = None;
    if world.step(actor).is_err() {
        unreachable!()
    }
}

/// Takes the least number of steps of an actor after which it stands before a line, and answers how many.
pub(crate) fn walk_until<const B: u32>(
    world: &mut WorldOf<B>,
    actor: u16,
    line: Line,
) -> Result<u32, Refusal>
    requires left { world.old.steps + 65 < 2 ^ 64 }
    ensures ok { IfOk result (λ count. ComesTo world.old actor line count world.new) }
    ensures steps { OnOk result (world.new.steps ≤ world.old.steps + 64) }
    ensures kind { IfErr result IsMoveRefusal }
    ensures refused { IfErr result (UntilRefused world.old actor line) }
{
    let Some(mut at) = standing(world, actor)? else {
        return Err(Refusal::IdleActor);
    };
    for count in 0..MOST_STEPS {
        if is_same(at, line) {
            return Ok(count);
        }
        walk(world, actor);
        let Some(next) = standing(world, actor)? else {
            return Err(Refusal::NotHere);
        };
        at = next;
    }
    if is_same(at, line) {
        return Ok(MOST_STEPS);
    }
    Err(Refusal::NotHere)
}

/// Takes the least number of steps of an actor after which its call has ended, and answers how many.
pub(crate) fn walk_to_end<const B: u32>(world: &mut WorldOf<B>, actor: u16) -> Result<u32, Refusal>
    requires left { world.old.steps + 65 < 2 ^ 64 }
    ensures ok { IfOk result (λ count. EndsCall world.old actor count world.new) }
    ensures steps { OnOk result (world.new.steps ≤ world.old.steps + 64) }
    ensures kind { IfErr result IsMoveRefusal }
    ensures refused { IfErr result (FinishRefused world.old actor) }
{
    if standing(world, actor)?.is_none() {
        return Err(Refusal::IdleActor);
    }
    for count in 0..MOST_STEPS {
        walk(world, actor);
        if standing(world, actor)?.is_none() {
            return Ok(count + 1);
        }
    }
    Err(Refusal::ActorBusy)
}
