//! An actor of the non-blocking queue that stops for good in the midst of a call, while another one goes on.
use crate::tests::chance::Chance;
use crate::tests::lockstep::world_calls::{CHOICES, MOST_STEPS, call_of, goes, told};
use history::{Body, Op, Refusal, Reply, Verdict, check};
use line_table::{Kind, Line};
use std::alloc::Global;
use std::test::Fail;
use step_machine::World;

/// How many runs there are, and as many with shuts.
const RUNS: u64 = 2000;

/// How many numbers there are in those with shuts of which each is a call; a fifth are shuts.
const MANY_SHUTS: u64 = 2500;

const NODES: u32 = 6;

const LIMIT: u64 = 100;

const ACTORS: u32 = 3;

/// How often the actor that goes on enqueues and dequeues.
pub const PAIRS: u32 = 10;

/// How many steps an enqueue takes at most where no other actor takes any.
pub const ENQUEUE_STEPS: u32 = 15;

/// The same of a dequeue.
pub const DEQUEUE_STEPS: u32 = 17;

/// The same of a shut.
pub const SHUT_STEPS: u32 = 8;

/// What all runs came to.
#[derive(Clone, Copy)]
struct Stopped {
    /// Before which lines the actor stopped, in the order of `Line::ALL`.
    before: [bool; 45],
    /// How many enqueues were done within their steps.
    enqueues: u64,
    /// How many dequeues gave a value within theirs.
    dequeues: u64,
    /// How many shuts were done within theirs.
    shuts: u64,
    /// How many of all these calls ended within their steps: done, with a value, or since the queue was shut.
    ended: u64,
}

impl Stopped {
    // Nothing yet.
    fn none() -> Stopped {
        Stopped {
            before: [false; 45],
            enqueues: 0,
            dequeues: 0,
            shuts: 0,
            ended: 0,
        }
    }

    // The actor stopped before this line.
    fn adds(&mut self, line: Line) {
        for (seen, each) in self.before.iter_mut().zip(Line::ALL) {
            if each == line {
                *seen = true;
            }
        }
    }

    // The other actor's call was told this reply within its steps.
    fn hears(&mut self, op: Op, told: Option<(Reply, u32)>) {
        match told {
            Some((Reply::Done, _)) => match op {
                Op::Enq(_) => self.enqueues = self.enqueues.wrapping_add(1),
                Op::Shut => self.shuts = self.shuts.wrapping_add(1),
                Op::Deq => {}
            },
            Some((Reply::Value(_), _)) => self.dequeues = self.dequeues.wrapping_add(1),
            Some((Reply::Refused(Refusal::Closed), _)) => {}
            _ => return,
        }
        self.ended = self.ended.wrapping_add(1);
    }

    // Before how many lines the actor stopped.
    fn lines(&self) -> u64 {
        let mut lines = 0u64;
        for before in self.before {
            lines = lines.wrapping_add(u64::from(before));
        }
        lines
    }
}

/// The line before which an actor stands; none where it has no call or isn't there.
pub fn line_of(world: &World, actor: u16) -> Option<Line> {
    if actor == 0 || usize::from(actor) > world.actors() {
        return None;
    }
    world.line(actor)
}

/// A world of the sizes of all these runs; none where memory is refused.
pub fn world_of(alloc: Global, kind: Kind) -> Option<World> {
    World::new(alloc, kind, NODES, LIMIT, ACTORS).ok()
}

/// Actor 3 enqueues and stops before E17, so that Tail lags; where the queue is shut its enqueue is refused.
pub fn lags(world: &mut World) -> Option<()> {
    world.begin(3, Op::Enq(Body::new(0)?)).ok()?;
    for _ in 0..MOST_STEPS {
        if let Some(Line::E17) | None = line_of(world, 3) {
            return Some(());
        }
        goes(world, 3);
    }
    None
}

// Actor 1 begins a call and takes some steps of it; it may end.
fn goes_some(world: &mut World, chance: &mut Chance, choices: u64) -> Option<()> {
    world.begin(1, call_of(chance.below(choices))).ok()?;
    for _ in 0..chance.below(u64::from(MOST_STEPS) + 1) {
        goes(world, 1);
    }
    Some(())
}

// What comes before the stop: up to two calls of actor 1, perhaps one that it gives up, and a Tail that may lag.
fn stops(world: &mut World, chance: &mut Chance, choices: u64) -> Option<()> {
    for _ in 0..chance.below(3) {
        told(world, 1, call_of(chance.below(choices)), MOST_STEPS)?;
    }
    let lagging = chance.below(3);
    if lagging == 1 {
        lags(world)?;
    }
    goes_some(world, chance, choices)?;
    if chance.below(4) == 0 && world.give(1).is_ok() {
        goes_some(world, chance, choices)?;
    }
    if lagging == 2 {
        lags(world)?;
    }
    Some(())
}

// The calls of actor 2: ten enqueues and ten dequeues by turns, and a shut.
fn goes_on(world: &mut World, stopped: &mut Stopped) -> Option<()> {
    let body = Body::new(7)?;
    for _ in 0..PAIRS {
        let enqueued = told(world, 2, Op::Enq(body), ENQUEUE_STEPS);
        stopped.hears(Op::Enq(body), enqueued);
        let dequeued = told(world, 2, Op::Deq, DEQUEUE_STEPS);
        stopped.hears(Op::Deq, dequeued);
    }
    let shut = told(world, 2, Op::Shut, SHUT_STEPS);
    stopped.hears(Op::Shut, shut);
    Some(())
}

// One run, with calls of so many choices; none where memory is refused, or a call that meets no other doesn't end.
fn run(alloc: Global, chance: &mut Chance, choices: u64, stopped: &mut Stopped) -> Option<World> {
    let mut world = world_of(alloc, Kind::NonBlocking)?;
    stops(&mut world, chance, choices)?;
    if let Some(line) = line_of(&world, 1) {
        stopped.adds(line);
    }
    goes_on(&mut world, stopped)?;
    Some(world)
}

// All runs without shuts, but for a last one; none where one of them didn't come to its end.
fn runs(alloc: Global) -> Option<Stopped> {
    let mut chance = Chance::new(36);
    let mut stopped = Stopped::none();
    for _ in 0..RUNS {
        run(alloc, &mut chance, CHOICES, &mut stopped)?;
    }
    Some(stopped)
}

// All runs with shuts, and how many of their histories are judged Yes; none where one of them didn't come to its end.
fn runs_with_shuts(alloc: Global) -> Option<(Stopped, u64)> {
    let mut chance = Chance::new(45);
    let mut stopped = Stopped::none();
    let mut right = 0u64;
    for _ in 0..RUNS {
        let world = run(alloc, &mut chance, MANY_SHUTS, &mut stopped)?;
        let history = world.history(alloc).ok()?;
        if check(alloc, &history).ok()? == Verdict::Yes {
            right = right.wrapping_add(1);
        }
    }
    Some((stopped, right))
}

#[test]
fn ends_each_call_beside_an_actor_that_stopped(rt: HostRuntime) -> Result<(), Fail> {
    let stopped = runs(rt.alloc()).ok_or("a run didn't end")?;
    let done = (stopped.enqueues, stopped.dequeues, stopped.shuts);
    assert_eq!(rt; (stopped.lines(), done), (23, (20_000, 20_000, 2_000)));
    Ok(())
}

#[test]
fn ends_each_call_among_shuts_beside_an_actor_that_stopped(rt: HostRuntime) -> Result<(), Fail> {
    let (stopped, right) = runs_with_shuts(rt.alloc()).ok_or("a run didn't end")?;
    assert_eq!(rt; (stopped.ended, right), (42_000, 2_000));
    Ok(())
}
