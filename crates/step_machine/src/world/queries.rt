//! What can be asked of a world. No query takes memory but `history`.
ghost use Rattle.std.specs.Prelude.{◌≡◌, ◌≤◌, ◌<◌, ◌^◌, IfOk, IfErr, IfSome, IsSome, length, option_map, slice_get};
ghost use Rattle.history.specs.declared.refusals.Refusal.TheVariants.{Memory};
ghost use Rattle.history.specs.History.{Placement, IsLegal};
ghost use Rattle.history.specs.Linearizability.{IsLinearizable};
ghost use Rattle.line_steps.specs.Memory.{Free, Head, Tail, Next, Value_of, content};
ghost use Rattle.step_machine.specs.Accesses.{contents_in, expected_by, touched_by, word_named};
ghost use Rattle.step_machine.specs.Machine.{actor_of, IsMade, IsReached};
ghost use Rattle.step_machine.specs.Words.{memory_words};
ghost use Rattle.step_machine.specs.TakingEffect.{HavePlacesByItsEffects};

use crate::accesses::{Contents, WordName, expected_at, told, word_at};
use crate::commits::actor_at;
use crate::world::WorldOf;
use counted_ref::CountedRefOf;
use history::{Refusal, Stamped, Taken};
use line_steps::{Held, Setup};
use line_table::Line;
use std::alloc::Global;

/// The places of the locks among the words.
const TAIL_LOCK: usize = 4;

const HEAD_LOCK: usize = 5;

impl<const B: u32> WorldOf<B> {
    /// The operations with at least one number, by rising first number: the world's history. It is linearizable. It is
    /// placed and legal too, which says more: the places are linearization points. An operation has a place where it is
    /// completed, or where its E9, D13, A5 or B5 has succeeded.
    ///
    /// Refusal: `Memory`. Takes memory for the list.
    ///
    /// ```rust
    /// // Actor 1 enqueued in ten steps, and linked its node in the eighth.
    /// let history = world.history(alloc)?;
    /// assert!(history[0].last == Some(10) && history[0].at == Some(8));
    /// ```
    pub fn history(&self, alloc: Global) -> Result<Vec<Stamped>, Refusal>
        //= worlds/history
        ensures ok { IfOk result (λ v. v.items ≡ self.now.operations) }
        //= worlds/reachable: Each world is reachable by its calls from the opening of its setup, whose sizes are in
        //=   range.
        ensures made { IsMade self.now }
        //= histories/placed_and_legal (placed, legal)
        //= histories/places (placed, effects)
        ensures placed { IfOk result (λ v. Placement v.items) }
        ensures legal { IfOk result (λ v. IsLegal v.items) }
        //= histories/linearizable
        ensures linearizable { IfOk result (λ v. IsLinearizable v.items) }
        ensures effects { IfOk result (λ v. HavePlacesByItsEffects self.now v.items) }
        ensures refused { IfErr result (λ refusal. refusal ≡ Memory) }
    {
        match Vec::from_slice(alloc, self.operations.as_slice()) {
            Ok(operations) => Ok(operations),
            Err(_) => Err(Refusal::Memory),
        }
    }

    /// The line before which an actor stands, 1 to the number of actors; none where it has no call.
    ///
    /// ```rust
    /// world.begin(1, Op::Enq(body))?;
    /// assert!(world.line(1) == Some(Line::N1) && world.line(2).is_none());
    /// ```
    pub fn line(&self, actor: u16) -> Option<Line>
        requires { IsSome (actor_of self.now actor) }
        //= worlds/queries: A world tells its setup, the number of its actors, the line and pocket of each, and each
        //=   word: as the table's number and, but for locks, as a number, a reference or a value.
        ensures { IfSome (actor_of self.now actor) (λ a. result ≡ a.line) }
    {
        match actor_at(&self.actors, actor) {
            Some(a) => a.line,
            None => unreachable!(),
        }
    }

    /// The node in the pocket of an actor, 1 to the number of actors, with its mark.
    ///
    /// ```rust
    /// let world = World::new(alloc, Kind::TwoLock, 3, 100, 2)?;
    /// assert!(world.pocket(1).is_none());
    /// ```
    pub fn pocket(&self, actor: u16) -> Option<Held>
        requires { IsSome (actor_of self.now actor) }
        //= worlds/queries
        ensures { IfSome (actor_of self.now actor) (λ a. result ≡ a.pocket) }
    {
        match actor_at(&self.actors, actor) {
            Some(a) => a.pocket,
            None => unreachable!(),
        }
    }

    /// The word that the next step of an actor touches; none where it has no call or isn't there.
    ///
    /// ```rust
    /// // N1 loads Fresh.
    /// world.begin(1, Op::Enq(body))?;
    /// assert!(world.touches(1) == Some(WordName::Fresh) && world.touches(2).is_none());
    /// ```
    pub fn touches(&self, actor: u16) -> Option<WordName>
        //= worlds/touches: A world tells which word an actor's next step touches, as the line table has it, and what a
        //=   word holds: a number, a reference, a closed end or a value.
        ensures { option_map word_named result ≡ touched_by self.now actor (actor_of self.now actor) }
    {
        match actor_at(&self.actors, actor) {
            Some(a) => match a.line {
                Some(line) => Some(word_at(a, line)),
                None => None,
            },
            None => None,
        }
    }

    /// What the next step of an actor expects to find, if it is a compare-exchange; none where it is another access, and where the
    /// actor has no call or isn't there.
    ///
    /// ```rust
    /// // N5 exchanges Fresh, which was 1 as N1 read it.
    /// world.begin(1, Op::Enq(body))?;
    /// world.step(1)?;
    /// world.step(1)?;
    /// assert!(world.expects(1) == Some(Contents::Number(1)) && world.expects(2).is_none());
    /// ```
    pub fn expects(&self, actor: u16) -> Option<Contents>
        //= worlds/expects: A world tells what an actor's next step expects to find, if it is a compare-exchange, as the line
        //=   table has it.
        ensures { result ≡ expected_by B self.now actor (actor_of self.now actor) }
    {
        match actor_at(&self.actors, actor) {
            Some(a) => match a.line {
                Some(line) => expected_at(a, line),
                None => None,
            },
            None => None,
        }
    }

    /// What a word holds.
    ///
    /// ```rust
    /// let world = World::new(alloc, Kind::TwoLock, 3, 100, 2)?;
    /// assert!(world.holds(WordName::Head) == Contents::Reference(1, 0));
    /// ```
    #[inline(always)]
    pub fn holds(&self, word: WordName) -> Contents
        //= worlds/touches
        ensures { result ≡ contents_in B (word_named word) self.now.shared }
    {
        match word {
            WordName::Fresh => Contents::Number(u64::from(self.memory.fresh())),
            WordName::Free => told(self.memory.free()),
            WordName::Head => told(self.memory.head()),
            WordName::Tail => told(self.memory.tail()),
            WordName::TailLock => Contents::Number(self.memory.word(TAIL_LOCK).unwrap_or(0)),
            WordName::HeadLock => Contents::Number(self.memory.word(HEAD_LOCK).unwrap_or(0)),
            WordName::Next(node) => told(self.memory.next_of(node)),
            WordName::Value(node) => Contents::Value(self.memory.value_of(node)),
        }
    }

    /// The kind of queue, how many bits of a reference hold a node, the number of nodes and the greatest count, as `new`
    /// was given them.
    ///
    /// ```rust
    /// let world = World::new(alloc, Kind::TwoLock, 3, 100, 2)?;
    /// assert!(world.setup().size == 3 && world.setup().limit == 100);
    /// ```
    pub fn setup(&self) -> Setup
        //= worlds/queries (value, bits)
        ensures value { result ≡ self.now.setup }
        ensures bits { result.bits ≡ B }
    {
        self.setup
    }

    /// How many actors there are, numbered from 1.
    ///
    /// ```rust
    /// let world = World::new(alloc, Kind::TwoLock, 3, 100, 2)?;
    /// assert!(world.actors() == 2);
    /// ```
    pub fn actors(&self) -> usize
        //= worlds/queries
        ensures { result ≡ length self.now.actors }
    {
        self.actors.len()
    }

    /// How many step numbers were given. The world is one that begins, steps and give moves led to, so every law of worlds
    /// holds of it.
    ///
    /// ```rust
    /// let world = World::new(alloc, Kind::TwoLock, 3, 100, 2)?;
    /// assert!(world.steps() == 0);
    /// ```
    pub fn steps(&self) -> u64
        ensures value { result ≡ self.now.steps }
        //= worlds/reachable (made, reached)
        ensures made { IsMade self.now }
        ensures reached { IsReached self.now }
    {
        self.steps
    }

    /// How many nodes were ever used, from 1 on.
    ///
    /// ```rust
    /// let world = World::new(alloc, Kind::TwoLock, 3, 100, 2)?;
    /// assert!(world.fresh() == 1);
    /// ```
    pub fn fresh(&self) -> u32
        //= worlds/queries
        ensures { result ≡ self.now.shared.fresh }
    {
        self.memory.fresh()
    }

    /// The first node of the free list.
    ///
    /// ```rust
    /// let world = World::new(alloc, Kind::TwoLock, 3, 100, 2)?;
    /// assert!(world.free().is_null());
    /// ```
    pub fn free(&self) -> CountedRefOf<B>
        //= worlds/queries
        ensures { result ≡ content Free self.now.shared }
    {
        self.memory.free()
    }

    /// The first node of the queue, the dummy.
    ///
    /// ```rust
    /// let world = World::new(alloc, Kind::TwoLock, 3, 100, 2)?;
    /// assert!(world.head() == CountedRef::new(1, 0));
    /// ```
    pub fn head(&self) -> CountedRefOf<B>
        //= worlds/queries
        ensures { result ≡ content Head self.now.shared }
    {
        self.memory.head()
    }

    /// The node that is taken for the last one of the queue.
    ///
    /// ```rust
    /// let world = World::new(alloc, Kind::TwoLock, 3, 100, 2)?;
    /// assert!(world.tail() == CountedRef::new(1, 0));
    /// ```
    pub fn tail(&self) -> CountedRefOf<B>
        //= worlds/queries
        ensures { result ≡ content Tail self.now.shared }
    {
        self.memory.tail()
    }

    /// The shared word at an index: 0 Fresh, 1 Free, 2 Head, 3 Tail, 4 the lock of Tail, 5 the lock of Head, and of node n its
    /// `next` at 4 + 2n and its value at 5 + 2n. None above 5 + 2N, where N is the number of nodes; 0 for a node never used.
    ///
    /// ```rust
    /// let world = World::new(alloc, Kind::TwoLock, 3, 100, 2)?;
    /// assert!(world.word(0) == Some(1) && world.word(12).is_none());
    /// ```
    pub fn word(&self, index: usize) -> Option<u64>
        //= worlds/queries
        ensures { result ≡ slice_get (memory_words B self.now.shared) index }
    {
        self.memory.word(index)
    }

    /// The `next` of a node, 1 to the number of nodes.
    ///
    /// ```rust
    /// let world = World::new(alloc, Kind::TwoLock, 3, 100, 2)?;
    /// assert!(world.next_of(1).is_null());
    /// ```
    pub fn next_of(&self, node: u32) -> CountedRefOf<B>
        requires some { 1 ≤ node }
        requires within { node ≤ self.now.setup.size }
        //= worlds/queries
        ensures { result ≡ content (Next node) self.now.shared }
    {
        self.memory.next_of(node)
    }

    /// The value of a node, 1 to the number of nodes.
    ///
    /// ```rust
    /// // Actor 1 enqueued `body` in node 2.
    /// assert!(world.value_of_node(2) == Taken { from: 1, body });
    /// ```
    pub fn value_of_node(&self, node: u32) -> Taken
        requires some { 1 ≤ node }
        requires within { node ≤ self.now.setup.size }
        //= worlds/queries
        ensures { result ≡ content (Value_of node) self.now.shared }
    {
        self.memory.value_of(node)
    }
}
