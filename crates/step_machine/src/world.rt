//! A world, which makes one move at a time.
ghost use Rattle.std.specs.Prelude.{◌≡◌, ◌+◌, ◌-◌, ◌<◌, ◌≤◌, ◌^◌, ◌≢◌, min, Some, OnOk, OnErr, IfOk, IfErr, IfSome, IsSome, length};
ghost use Rattle.counted_ref.specs.Ref.{IsSplit};
ghost use Rattle.line_steps.specs.Memory.{Fresh, Free, Head, Tail, Next, Value_of, content};
ghost use Rattle.step_machine.specs.declared.actors.Move.TheVariants.{Begin, Step, Give};
ghost use Rattle.step_machine.specs.Machine.{opening, next, actor_of, IsSized, IsMade};
ghost use Rattle.line_table.specs.declared.lines.Line.TheVariants.{N1};
ghost use Rattle.step_machine.specs.Calls.{setup_from, NewRefused, BeginRefused, StepRefused, GiveRefused, stepped_at, step_answer, giving_up, reply_of, line_of};
ghost use Rattle.step_machine.specs.Solo.{EndsAlone};

use crate::actors::{Move, Stepped};
use crate::commits::{Call, actor_at, commit, idle_actors, put_actor, take_step};
use counted_ref::{CountedRefOf, most_count, most_node};
use history::{MOST_ACTOR, Op, Refusal, Reply, Stamped, Taken};
use line_steps::{ActorOf, Held, MemoryOf, Setup, begin, give_up};
use line_table::{Kind, Line};
use std::alloc::Global;
use std::marker::Model;

/// A world with 24 bits for the number of a node.
pub type World = WorldOf<24>;

mod node_places;
mod queries;

/// Both ends of a queue, its free list and the actors, in plain memory: the machine after some list of moves.
///
/// `B` is how many bits of a reference hold the number of its node, 16 to 32; the others hold its count. Memory grows with
/// the nodes that were used, the actors and the operations, and not with the number of nodes.
#[derive(Drop)]
pub struct WorldOf<const B: u32> {
    setup: Setup,
    steps: u64,
    memory: MemoryOf<B>,
    actors: Vec<ActorOf<B>>,
    operations: Vec<Stamped>,
}

impl<const B: u32> Model for WorldOf<B> {
    ghost use Rattle.step_machine.specs.Machine.{World as Worlds};

    ghost Value = { Worlds };

    ghost use Rattle.step_machine.specs.Stored.{world, StoredInvariant};

    ghost view = { world B };

    ghost invariant = { StoredInvariant B };
}

/// What a step at a line with this reply is told as.
#[inline(always)]
fn answer_at(line: Line, reply: &Option<Reply>) -> Stepped
    ensures { result ≡ stepped_at line reply.now }
{
    match *reply {
        None => Stepped::Went(line),
        Some(reply) => Stepped::Ended(line, reply),
    }
}

/// For how many nodes there is to be room, if there are so many, before an actor stands before a line: where it looks for a
/// node, those used and one for each actor, since each may look for one.
fn nodes_wanted(line: Option<Line>, fresh: u32, actors: usize) -> usize
    ensures looks { line ≡ Some N1 → result ≡ min (fresh + actors) (2 ^ 64 - 1) }
    ensures not { line ≢ Some N1 → result ≡ 0 }
{
    match line {
        Some(Line::N1) => (fresh as usize).saturating_add(actors),
        _ => 0,
    }
}

impl<const B: u32> WorldOf<B> {
    /// The line before which an actor stands; none where it has no call or isn't there.
    pub(crate) fn line_before(&self, actor: u16) -> Option<Line>
        ensures { result ≡ line_of (actor_of self.now actor) }
    {
        match actor_at(&self.actors, actor) {
            Some(a) => a.line,
            None => None,
        }
    }

    /// Does nothing, and says that the world is one that its moves led to.
    pub(crate) fn is_made(&self)
        ensures { IsMade self.now }
    {
        // A body knows the type's invariant where it uses a field.
        let _ = &self.setup;
    }

    /// A world in which nothing happened yet: `nodes` is 2 to `most_node(B)`, the greatest count `limit` 1 to
    /// `most_count(B)`, and `actors` 1 to 65,535.
    ///
    /// Refusals: `BadSize` where one of them is out of its range, else `Memory`. Takes memory for the actors and for
    /// one node.
    ///
    /// ```rust
    /// let world = World::new(alloc, Kind::TwoLock, 3, 100, 2)?;
    /// assert!(world.steps() == 0);
    /// ```
    pub fn new(
        alloc: Global,
        kind: Kind,
        nodes: u32,
        limit: u64,
        actors: u32,
    ) -> Result<WorldOf<B>, Refusal>
        requires split { IsSplit B }
        //= worlds/opening (ok, sized, refused): A new world is the opening one of its setup. Sized.
        ensures ok { IfOk result (λ w. w ≡ opening (setup_from B kind nodes limit) actors) }
        ensures sized { OnOk result (IsSized (setup_from B kind nodes limit) actors) }
        ensures refused { IfErr result (NewRefused (setup_from B kind nodes limit) actors) }
    {
        if nodes < 2 || nodes > most_node(B) {
            return Err(Refusal::BadSize);
        }
        if limit < 1 || limit > most_count(B) {
            return Err(Refusal::BadSize);
        }
        if actors < 1 || u64::from(actors) > MOST_ACTOR {
            return Err(Refusal::BadSize);
        }
        let setup = Setup {
            kind,
            bits: B,
            size: nodes,
            limit,
        };
        let Ok(memory) = MemoryOf::new(alloc, nodes) else {
            return Err(Refusal::Memory);
        };
        let Ok(actors) = idle_actors(alloc, actors as usize) else {
            return Err(Refusal::Memory);
        };
        Ok(WorldOf {
            setup,
            steps: 0,
            memory,
            actors,
            operations: Vec::new(alloc),
        })
    }

    /// Begins a call of the actor, 1 to 65,535. Takes no step number.
    ///
    /// In the non-blocking queue, where no other move is made, the actor's steps then end an enqueue within 15, a dequeue
    /// within 17 and a shut within 8, while step numbers are left.
    ///
    /// Refusals, in this order: `NoSuchActor`, `ActorBusy`, `Memory`. Makes room for the call's operation and, of an
    /// enqueue, for one node more, so that steps take no memory.
    ///
    /// ```rust
    /// world.begin(1, Op::Enq(body))?;
    /// assert!(world.begin(1, Op::Deq) == Err(Refusal::ActorBusy));
    /// ```
    pub fn begin(&mut self, actor: u16, op: Op) -> Result<(), Refusal>
        //= worlds/moves
        //= worlds/refusals (ok, numbered, refused)
        ensures ok { OnOk result (next self.old (Begin actor op) ≡ Some self.new) }
        ensures numbered { OnOk result (self.new.steps < 2 ^ 64) }
        //= both/alone
        ensures alone { OnOk result (EndsAlone self.new actor op) }
        //= worlds/unchanged
        ensures err { OnErr result (self.new ≡ self.old) }
        ensures refused { IfErr result (BeginRefused self.old actor) }
    {
        let Some(a) = actor_at(&self.actors, actor) else {
            return Err(Refusal::NoSuchActor);
        };
        if a.line.is_some() {
            return Err(Refusal::ActorBusy);
        }
        let actors = self.actors.len();
        let kind = self.setup.kind;
        let mut begun = *a;
        begin(kind, actor, op, &mut begun);
        let enough = nodes_wanted(begun.line, self.memory.fresh(), actors);
        let Ok(()) = self.operations.reserve(actors) else {
            return Err(Refusal::Memory);
        };
        let Ok(()) = self.memory.grow(enough) else {
            return Err(Refusal::Memory);
        };
        put_actor(&mut self.actors, actor, begun);
        Ok(())
    }

    /// Takes one step of the actor, 1 to 65,535, at the line before which it stands, and the next step number.
    ///
    /// Refusals, in this order: `NoSuchActor`, `IdleActor`, `BadSize` where all 2^64 - 1 step numbers are used. Takes no
    /// memory.
    ///
    /// ```rust
    /// world.begin(1, Op::Enq(body))?;
    /// assert!(world.step(1) == Ok(Stepped::Went(Line::N1)));
    /// ```
    #[inline(always)]
    pub fn step(&mut self, actor: u16) -> Result<Stepped, Refusal>
        //= worlds/moves (ok, told)
        //= worlds/refusals (ok, numbered, refused)
        ensures ok { OnOk result (next self.old (Step actor) ≡ Some self.new) }
        ensures numbered { OnOk result (self.new.steps < 2 ^ 64) }
        ensures told { IfOk result (λ s. step_answer self.old actor (actor_of self.old actor) ≡ Some s) }
        //= worlds/unchanged
        ensures err { OnErr result (self.new ≡ self.old) }
        ensures refused { IfErr result (StepRefused self.old actor) }
    {
        let Some(a) = actor_at(&self.actors, actor) else {
            return Err(Refusal::NoSuchActor);
        };
        let Some(line) = a.line else {
            return Err(Refusal::IdleActor);
        };
        if self.steps == u64::MAX {
            return Err(Refusal::BadSize);
        }
        let now = self.steps + 1;
        let setup = self.setup;
        let Some(a) = self.actors.get_mut(actor as usize - 1) else {
            unreachable!()
        };
        let place = take_step(
            &mut self.memory,
            a,
            &mut self.operations,
            setup,
            now,
            actor,
            line,
        );
        self.steps = now;
        let Some(operation) = self.operations.get(place) else {
            unreachable!()
        };
        Ok(answer_at(line, &operation.reply))
    }

    /// Gives up the actor's call, 1 to 65,535, which stands at the start of a turn, and takes the next step number. Answers
    /// Busy, or the value taken where one was.
    ///
    /// Refusals, in this order: `NoSuchActor`, `IdleActor`, `NotHere` where no turn begins at its line, `BadSize` where all
    /// 2^64 - 1 step numbers are used. Takes no memory.
    ///
    /// ```rust
    /// // Actor 2 stands before B1, where a turn begins.
    /// world.begin(2, Op::Deq)?;
    /// assert!(world.give(2) == Ok(Reply::Refused(Refusal::Busy)));
    /// ```
    pub fn give(&mut self, actor: u16) -> Result<Reply, Refusal>
        //= worlds/moves (ok, told)
        //= worlds/refusals (ok, numbered, refused)
        ensures ok { OnOk result (next self.old (Give actor) ≡ Some self.new) }
        ensures numbered { OnOk result (self.new.steps < 2 ^ 64) }
        ensures told { IfOk result (λ r. reply_of (giving_up self.old (actor_of self.old actor)) ≡ Some r) }
        //= worlds/unchanged
        ensures err { OnErr result (self.new ≡ self.old) }
        ensures refused { IfErr result (GiveRefused self.old actor) }
    {
        let Some(a) = actor_at(&self.actors, actor) else {
            return Err(Refusal::NoSuchActor);
        };
        let Some(line) = a.line else {
            return Err(Refusal::IdleActor);
        };
        let now = self.steps.saturating_add(1);
        let call = Call {
            actor,
            op: a.op,
            entry: a.entry,
        };
        let mut left = *a;
        let Some(told) = give_up(now, &mut left, line) else {
            return Err(Refusal::NotHere);
        };
        if self.steps == u64::MAX {
            return Err(Refusal::BadSize);
        }
        let reply = told.reply;
        let Some(reply) = reply else { unreachable!() };
        commit(
            &mut self.memory,
            &mut self.actors,
            &mut self.operations,
            call,
            now,
            left,
            told,
        );
        self.steps = now;
        Ok(reply)
    }
}
