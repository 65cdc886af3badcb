//! What a recipe stands for.
ghost use Rattle.std.specs.Prelude.{◌≡◌, ◌≤◌, true, false, All, IfOk, IfErr, IfSome, length, option_map};
ghost use Rattle.expand_engine.specs.Recipes.{IsRecipe, is_act};
ghost use Rattle.expand_engine.specs.declared.acts.Stop.{Stop};
ghost use Rattle.schedule_text.specs.Texts.{IsTold};
ghost use Rattle.schedule_text.specs.declared.schedules.Version.TheVariants.{One};
ghost use Rattle.expand_engine.specs.Expansions.{AreSizesInRange, EndsAs, IsActOf, IsDone, IsVersionOf, StandsFor, opening_with, with_refused};

use crate::acts::{Done, Stop, act_all, push_event, refuse_stop, refused_event};
use crate::recipes::{Act, Recipe, Sizes};
use crate::unrolled_acts::acts_of;
use engine_faults::Fault;
use history::{Op, Refusal};
use line_table::Section;
use run_engine::{RunExtent, by_bits};
use schedule_text::{Event, Schedule, Version};
use std::alloc::Global;
use step_machine::WorldOf;

/// The world of these sizes in which nothing happened yet.
pub(crate) fn opening_world<const B: u32>(
    alloc: Global,
    sizes: &Sizes,
) -> Result<WorldOf<B>, Refusal>
    requires range { AreSizesInRange sizes.now }
    requires bits { sizes.now.bits ≡ B }
    ensures ok { IfOk result (λ w. w ≡ opening_with sizes.now) }
    ensures err { IfErr result (λ refusal. refusal ≡ Refusal.Memory) }
{
    let actors = u32::from(sizes.actors);
    WorldOf::new(alloc, sizes.kind, sizes.nodes, sizes.limit, actors)
}

/// Acts, done on a world of `B` bits as far as they can be.
fn do_with_bits<const B: u32>(alloc: Global, sizes: &Sizes, acts: &[Act]) -> Result<Done, Refusal>
    requires range { AreSizesInRange sizes.now }
    requires bits { sizes.now.bits ≡ B }
    requires acts { All IsActOf acts.now }
    requires few { length acts.now ≤ 1000000 }
    ensures ok { IfOk result (IsDone (opening_with sizes.now) acts.now) }
    ensures err { IfErr result (λ refusal. refusal ≡ Refusal.Memory) }
{
    let mut world = opening_world::<B>(alloc, sizes)?;
    act_all(alloc, &mut world, acts)
}

/// The same on a world of as many bits as the sizes say.
fn do_acts(alloc: Global, sizes: &Sizes, acts: &[Act]) -> Result<Done, Refusal>
    requires range { AreSizesInRange sizes.now }
    requires acts { All IsActOf acts.now }
    requires few { length acts.now ≤ 1000000 }
    ensures ok { IfOk result (IsDone (opening_with sizes.now) acts.now) }
    ensures err { IfErr result (λ refusal. refusal ≡ Refusal.Memory) }
{
    let bits = sizes.bits;
    by_bits!(bits, do_with_bits(alloc, sizes, acts))
}

/// Whether an event can be told in version 1.
fn is_in_one(event: Event) -> bool
    ensures yes { result ≡ true → IsTold One event }
    ensures no { result ≡ false → ¬ IsTold One event }
{
    match event {
        Event::Begin(_, Op::Shut) => false,
        Event::Step(_, line) => match line.section() {
            Section::Shut | Section::LockedShut => false,
            _ => true,
        },
        _ => true,
    }
}

/// The version of the text of events, where so many bits hold a node: 1 where it has one.
fn version_of(bits: u32, events: &[Event]) -> Version
    ensures { IsVersionOf bits events.now result }
{
    if bits != 24 {
        return Version::Two;
    }
    for event in events {
        if !is_in_one(*event) {
            return Version::Two;
        }
    }
    Version::One
}

/// Events, and behind them one that is refused as the act is at which acts stop, if they do.
fn with_refused(events: Vec<Event>, stop: Option<Stop>) -> Result<Vec<Event>, Refusal>
    requires { IfSome stop (λ stop. is_act stop.act.said ≡ true) }
    ensures ok { IfOk result (λ all. all.items ≡ with_refused events.items stop) }
    ensures err { IfErr result (λ refusal. refusal ≡ Refusal.Memory) }
{
    let mut events = events;
    if let Some(stop) = stop {
        push_event(&mut events, refused_event(stop.act.said, stop.refusal))?;
    }
    Ok(events)
}

/// What acts are refused, if they stop at one.
fn refusal_of(stop: &Option<Stop>) -> Option<Refusal>
    ensures { result ≡ option_map (λ (stop : Stop). stop.refusal) stop.now }
{
    match stop {
        Some(stop) => Some(stop.refusal),
        None => None,
    }
}

/// What a recipe stands for: the schedule of its acts, as far as these can be done, and how far its events can be made.
///
/// Where an act is refused, the schedule's last event is one that is refused there for the same cause.
#[derive(Drop)]
pub struct Expansion {
    pub schedule: Schedule,
    pub extent: RunExtent,
    /// The act that is refused.
    pub stop: Option<Stop>,
}

impl Expansion {
    /// Refuses a recipe as the first of its acts is that is refused, with the line of that; where none is, it is Ok. Takes no
    /// memory and doesn't wait.
    pub fn refuse(&self) -> Result<(), Fault>
        ensures { EndsAs self.now.stop result }
    {
        refuse_stop(self.stop)
    }
}

/// What a recipe stands for.
pub fn expansion_of(alloc: Global, recipe: &Recipe) -> Result<Expansion, Refusal>
    requires { IsRecipe recipe.now.text.items recipe.now.sizes recipe.now.lines.items }
    ensures ok { IfOk result (StandsFor recipe.now.sizes recipe.now.lines.items) }
    ensures err { IfErr result (λ refusal. refusal ≡ Refusal.Memory) }
{
    let sizes = recipe.sizes;
    let acts = acts_of(alloc, &recipe.lines)?;
    let done = do_acts(alloc, &sizes, &acts)?;
    let Done {
        events,
        steps,
        stop,
    } = done;
    let extent = RunExtent {
        made: events.len(),
        steps,
        refusal: refusal_of(&stop),
    };
    let events = with_refused(events, stop)?;
    let schedule = Schedule {
        version: version_of(sizes.bits, &events),
        kind: sizes.kind,
        bits: sizes.bits,
        nodes: sizes.nodes,
        limit: sizes.limit,
        actors: sizes.actors,
        events,
    };
    Ok(Expansion {
        schedule,
        extent,
        stop,
    })
}
