//! A world that is led through a list of events, and compared with each.
ghost use Rattle.counted_ref.specs.Ref.{IsSplit};

use super::comparisons::same;
use super::events::{Event, Telling};
use super::expected::{Complete, Word, closed_end, contents, reply, stamped, taken, word_in};
use super::moves::{begin, give, move_of, steps};
use super::queries::{line_of, next_of, parts, place_of, pocket_of, value_of};
use history::{Refusal, Stamped, Verdict, check};
use line_table::Kind;
use std::alloc::Global;
use std::process::Abort;
use std::test::Fail;
use step_machine::{Stepped, WorldOf, step_in};

/// What a world is made of.
#[derive(Clone, Copy)]
pub struct Sizes {
    pub kind: Kind,
    pub nodes: u32,
    pub limit: u64,
    pub actors: u32,
}

/// The sizes of most runs of the non-blocking queue.
pub const NON_BLOCKING: Sizes = Sizes {
    kind: Kind::NonBlocking,
    nodes: 3,
    limit: 100,
    actors: 2,
};

/// The sizes of most runs of the two-lock queue.
pub const TWO_LOCK: Sizes = Sizes {
    kind: Kind::TwoLock,
    nodes: 3,
    limit: 100,
    actors: 2,
};

/// A worked run: what a new world goes through, and the history that it then has.
#[derive(Clone, Copy)]
pub struct Run {
    pub name: &'static str,
    pub sizes: Sizes,
    pub events: &'static [Event],
    pub expected: &'static [Complete],
}

/// A new world of these sizes. Each call of its own of `WorldOf::new` would cost seconds of a proof.
pub fn world_of<const B: u32>(alloc: Global, sizes: Sizes) -> Result<WorldOf<B>, Refusal>
    requires split { IsSplit B }
{
    let Sizes {
        kind,
        nodes,
        limit,
        actors,
    } = sizes;
    WorldOf::new(alloc, kind, nodes, limit, actors)
}

/// A world, with a name for what is tried on it.
#[derive(Drop)]
pub struct TrialOf<const B: u32> {
    name: &'static str,
    pub world: WorldOf<B>,
}

/// With 24 bits for the number of a node.
pub type Trial = TrialOf<24>;

// Each of these runs is as it says.
fn all_go<const B: u32>(rt: &impl Abort, alloc: Global, runs: &[Run]) -> Result<(), Refusal>
    requires split { IsSplit B }
{
    for one in runs {
        let mut trial = TrialOf::<B>::new(alloc, one.name, one.sizes)?;
        trial.goes(rt, one.events);
        trial.shows(rt, alloc, one.expected)?;
    }
    Ok(())
}

/// Each of these runs is as it says with the fewest bits for the number of a node, with the usual ones and with the most.
pub fn all_go_in_each_split(rt: &impl Abort, alloc: Global, runs: &[Run]) -> Result<(), Fail> {
    all_go::<16>(rt, alloc, runs)?;
    all_go::<24>(rt, alloc, runs)?;
    all_go::<32>(rt, alloc, runs)?;
    Ok(())
}

/// A history is this list.
pub fn are(rt: &impl Abort, name: &str, history: &[Stamped], expected: &[Complete]) {
    same(rt, history.len(), expected.len(), (name, history));
    for (found, shown) in history.iter().zip(expected) {
        same(rt, *found, stamped(*shown), name);
    }
}

// What `step_in` answers that tells this.
fn answer_of(telling: Telling) -> Result<Stepped, Refusal> {
    match telling {
        Telling::Began => Ok(Stepped::Began),
        Telling::Went(line) => Ok(Stepped::Went(line)),
        Telling::Ended(line, answer) => Ok(Stepped::Ended(line, reply(answer))),
        Telling::Refused(refusal) => Err(refusal),
    }
}

impl<const B: u32> TrialOf<B> {
    pub fn new(alloc: Global, name: &'static str, sizes: Sizes) -> Result<TrialOf<B>, Refusal>
        requires split { IsSplit B }
    {
        let world = world_of(alloc, sizes)?;
        Ok(TrialOf { name, world })
    }

    /// Each of these events is as it says.
    pub fn goes(&mut self, rt: &impl Abort, events: &[Event]) {
        for event in events {
            self.goes_through(rt, *event);
        }
    }

    /// Its history is this list, and is one of a queue by the verdict.
    pub fn shows(
        &self,
        rt: &impl Abort,
        alloc: Global,
        expected: &[Complete],
    ) -> Result<(), Refusal> {
        let history = self.world.history(alloc)?;
        are(rt, self.name, &history, expected);
        same(rt, check(alloc, &history)?, Verdict::Yes, self.name);
        Ok(())
    }

    /// Its words are these, and there are no more.
    pub fn tells(&self, rt: &impl Abort, words: &[Word]) {
        for (index, word) in words.iter().enumerate() {
            let wanted = word_in::<B>(*word);
            same(rt, self.world.word(index), Some(wanted), (self.name, index));
        }
        same(rt, self.world.word(words.len()), None, self.name);
    }

    // Makes the move of an event, or looks at what it names: it is as the event says.
    fn goes_through(&mut self, rt: &impl Abort, event: Event) {
        let world = &mut self.world;
        let tried = (self.name, event);
        match event {
            Event::Begin(actor, call) => same(rt, begin(world, actor, call), Ok(()), tried),
            Event::Steps(actor, count) => same(rt, steps(world, actor, count), Ok(()), tried),
            Event::Give(actor) => same(rt, give(world, actor), Ok(()), tried),
            Event::Told(act, telling) => {
                same(rt, step_in(world, move_of(act)), answer_of(telling), tried);
            }
            Event::Touch(actor, ..) => {
                self.touches(rt, event);
                same(rt, steps(&mut self.world, actor, 1), Ok(()), tried);
            }
            Event::Idle(_) | Event::Holds(..) => self.touches(rt, event),
            _ => self.sees(rt, event),
        }
    }

    // The next step of an actor, and what a word holds, are as the event says.
    fn touches(&self, rt: &impl Abort, event: Event) {
        let world = &self.world;
        let tried = (self.name, event);
        match event {
            Event::Touch(actor, line, word, expected, held) => {
                same(rt, line_of(world, actor), Some(line), tried);
                same(rt, world.touches(actor), Some(word), tried);
                same(rt, world.expects(actor), expected.map(contents), tried);
                same(rt, world.holds(word), contents(held), tried);
            }
            Event::Idle(actor) => {
                same(rt, world.touches(actor), None, tried);
                same(rt, world.expects(actor), None, tried);
            }
            Event::Holds(word, held) => same(rt, world.holds(word), contents(held), tried),
            _ => (),
        }
    }

    // What an event looks at is as it says; one that moves looks at nothing.
    fn sees(&self, rt: &impl Abort, event: Event) {
        let world = &self.world;
        let tried = (self.name, event);
        match event {
            Event::Free(node, count) => same(rt, parts(world.free()), (node, count), tried),
            Event::Head(node, count) => same(rt, parts(world.head()), (node, count), tried),
            Event::Tail(node, count) => same(rt, parts(world.tail()), (node, count), tried),
            Event::Fresh(count) => same(rt, world.fresh(), count, tried),
            Event::Taken(count) => same(rt, world.steps(), count, tried),
            Event::At(actor, line) => same(rt, line_of(world, actor), line, tried),
            Event::Pocket(actor, held) => same(rt, pocket_of(world, actor), held, tried),
            Event::Next(node, next, count) => {
                same(rt, next_of(world, node), Some((next, count)), tried);
            }
            Event::Closed(node, count) => {
                let wanted = (closed_end::<B>(), count);
                same(rt, next_of(world, node), Some(wanted), tried);
            }
            Event::Placed(node, place) => same(rt, place_of(world, node), Some(place), tried),
            Event::Value(node, from, number) => {
                same(rt, value_of(world, node), Some(taken(from, number)), tried);
            }
            _ => (),
        }
    }
}
