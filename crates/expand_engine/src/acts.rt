//! Does the acts of a recipe, and tells the events that they stand for.
ghost use Rattle.std.specs.Prelude.{◌≡◌, ◌≢◌, ◌+◌, ◌^◌, ◌<◌, ◌≤◌, ◌++◌, ◌∷◌, [], None, true, false, All, IfOk, IfErr, OnOk, length};
ghost use Rattle.history.specs.declared.refusals.Refusal.TheVariants.{Memory};
ghost use Rattle.engine_faults.specs.Faults.{IsMoveRefusal};
ghost use Rattle.expand_engine.specs.Recipes.{IsActInRange, is_act};
ghost use Rattle.expand_engine.specs.Expansions.{ActRefused, ActsLead, DoesAct, EndsAs, IsActOf, IsDone, refused_event};
ghost use Rattle.expand_engine.specs.Walks.{steps_told};

use crate::recipes::{Act, Said};
use crate::walks::{walk_to_end, walk_until};
use engine_faults::Fault;
use history::{Op, Refusal};
use run_engine::make;
use schedule_text::Event;
use std::alloc::Global;
use step_machine::WorldOf;

/// Adds an event at the end.
pub(crate) fn push_event(events: &mut Vec<Event>, event: Event) -> Result<(), Refusal>
    ensures ok { OnOk result (events.new.items ≡ events.old.items ++ event ∷ []) }
    ensures err { IfErr result (λ refusal. refusal ≡ Memory) }
{
    // The check of the push stops unless the type of a call is named here.
    let _: Option<Op> = None;
    match events.push(event) {
        Ok(()) => Ok(()),
        Err(_) => Err(Refusal::Memory),
    }
}

/// Adds so many steps of an actor, where there are any.
fn push_steps(events: &mut Vec<Event>, actor: u16, count: u32) -> Result<(), Refusal>
    ensures ok { OnOk result (events.new.items ≡ events.old.items ++ steps_told actor count) }
    ensures err { IfErr result (λ refusal. refusal ≡ Memory) }
{
    if count == 0 {
        return Ok(());
    }
    push_event(events, Event::Steps(actor, count))
}

/// An act that is refused, and its cause.
#[derive(Clone, Copy)]
pub struct Stop {
    pub act: Act,
    pub refusal: Refusal,
}

/// How far acts were done: the events that they stand for, how many steps these are, and the act that is refused, if one is.
#[derive(Drop)]
pub struct Done {
    pub events: Vec<Event>,
    pub steps: u64,
    pub stop: Option<Stop>,
}

/// Refuses acts as the one is at which they stop, with the line of that; where they don't, it is Ok.
pub(crate) fn refuse_stop(stop: Option<Stop>) -> Result<(), Fault>
    ensures { EndsAs stop result }
{
    match stop {
        None => Ok(()),
        Some(stop) => Err(Fault {
            refusal: stop.refusal,
            line: Some(stop.act.line),
        }),
    }
}

/// Does an act, and adds the events that it stands for.
fn act<const B: u32>(
    world: &mut WorldOf<B>,
    said: Said,
    events: &mut Vec<Event>,
) -> Result<(), Refusal>
    requires act { is_act said ≡ true }
    requires range { IsActInRange said }
    requires left { world.old.steps + 1000001 < 2 ^ 64 }
    ensures ok { OnOk result (DoesAct world.old said events.old.items events.new.items world.new) }
    ensures steps { OnOk result (world.new.steps ≤ world.old.steps + 1000000) }
    ensures kind { IfErr result IsMoveRefusal }
    ensures refused { IfErr result (λ refusal. refusal ≢ Memory
        → ActRefused world.old said refusal) }
    ensures kept { IfErr result (λ refusal. refusal ≢ Memory
        → events.new.items ≡ events.old.items) }
{
    match said {
        Said::Happens(event) => {
            let made: Event = event;
            make(world, made)?;
            push_event(events, event)
        }
        Said::Until(actor, line) => {
            let count = walk_until(world, actor, line)?;
            push_steps(events, actor, count)
        }
        Said::Finish(actor) => {
            let count = walk_to_end(world, actor)?;
            push_steps(events, actor, count)
        }
        _ => unreachable!(),
    }
}

/// Whether memory was refused.
fn is_memory(refusal: Refusal) -> bool
    ensures yes { result ≡ true → refusal ≡ Memory }
    ensures no { result ≡ false → refusal ≢ Memory }
{
    match refusal {
        Refusal::Memory => true,
        _ => false,
    }
}

/// An event that is refused just where an act is, for the same cause.
pub(crate) fn refused_event(said: Said, refusal: Refusal) -> Event
    requires { is_act said ≡ true }
    ensures { result ≡ refused_event said refusal }
{
    match said {
        Said::Happens(event) => event,
        Said::Until(actor, line) => Event::Step(actor, line),
        Said::Finish(actor) => match refusal {
            Refusal::ActorBusy => Event::Begin(actor, Op::Deq),
            _ => Event::Steps(actor, 1),
        },
        _ => unreachable!(),
    }
}

/// Does acts as far as they can be done, and answers the events that they stand for.
pub(crate) fn act_all<const B: u32>(
    alloc: Global,
    world: &mut WorldOf<B>,
    acts: &[Act],
) -> Result<Done, Refusal>
    requires range { All IsActOf acts.now }
    requires few { length acts.now ≤ 1000000 }
    requires left { world.old.steps ≡ 0 }
    ensures ok { IfOk result (IsDone world.old acts.now) }
    ensures whole { IfOk result (λ done. done.stop ≡ None
        → ActsLead world.old acts.now done.events.items world.new) }
    ensures err { IfErr result (λ refusal. refusal ≡ Memory) }
{
    let mut events = Vec::new(alloc);
    for one in acts {
        let steps = world.steps();
        match act(world, one.said, &mut events) {
            Ok(()) => {}
            Err(refusal) => {
                if is_memory(refusal) {
                    return Err(Refusal::Memory);
                }
                let stop = Some(Stop { act: *one, refusal });
                return Ok(Done {
                    events,
                    steps,
                    stop,
                });
            }
        }
    }
    Ok(Done {
        events,
        steps: world.steps(),
        stop: None,
    })
}
