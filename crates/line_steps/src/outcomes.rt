//! What a step makes of its actor, by the words of the line table.
ghost use Rattle.std.specs.Prelude.{◌≡◌, ◌-◌, ◌<◌, ◌≤◌, ◌^◌, Some, None, IfSome, false};
ghost use Rattle.line_steps.specs.Lines as lines;
ghost use Rattle.history.specs.declared.operations.Reply.TheVariants.{Done, Refused};
ghost use Rattle.history.specs.declared.refusals.Refusal.TheVariants.{WornOut, Closed};
ghost use Rattle.line_steps.specs.Outcomes.{settled, with_told};
ghost use Rattle.line_steps.specs.Ready.{IsCounted};
ghost use Rattle.line_steps.specs.Rooms.{aside_after};
ghost use Rattle.line_steps.specs.Said as outcomes;
ghost use Rattle.line_steps.specs.Said.{numbered, nothing, end_of, freed_actor, freed_said, unlocked_actor, unlocked_said};
ghost use Rattle.line_steps.specs.Said.{left_said, left_with_node_actor};

use crate::actors::{ActorOf, Held, Setup, Told};
use crate::memory::MemoryOf;
use counted_ref::{CountedRefOf, shut_node};
use history::{Refusal, Reply, Stamped, WornWord};
use line_table::{Kind, Line};

/// When an operation takes effect, as a row says it, which knows no numbers of steps.
#[derive(Clone, Copy)]
pub enum When {
    /// This step settles nothing.
    Open,
    /// Here.
    Here,
    /// Here, if the queue turns out to be empty: the actor notes the number of the step.
    Noted,
    /// Where the actor noted.
    AsNoted,
}

/// What a row says beside what it makes of its actor.
#[derive(Clone, Copy)]
pub struct Said {
    pub effect: When,
    /// The reply, where the call ends.
    pub reply: Option<Reply>,
    /// The node set aside.
    pub aside: Option<u32>,
}

/// Puts the number of the step to what a row said.
#[inline(always)]
pub fn settle<const B: u32>(now: u64, actor: &mut ActorOf<B>, said: Said) -> Told
    ensures { settled actor.new result ≡ numbered now actor.old said }
{
    let at = match said.effect {
        When::Open => None,
        When::Here => Some(now),
        When::Noted => {
            actor.empty_at = now;
            None
        }
        When::AsNoted => Some(actor.empty_at),
    };
    Told {
        at,
        reply: said.reply,
        aside: said.aside,
    }
}

/// Tells an operation what became of a step.
#[inline(always)]
fn tell(now: u64, told: &Told, operation: &mut Stamped)
    ensures { operation.new ≡ with_told now told.now operation.old }
{
    if told.at.is_some() {
        operation.at = told.at;
    }
    // Most steps end no call, and find an operation that has no reply yet: nothing is then written.
    if told.reply.is_some() {
        operation.last = Some(now);
        operation.reply = told.reply;
    } else if operation.last.is_some() || operation.reply.is_some() {
        operation.last = None;
        operation.reply = None;
    }
}

/// Puts down what a step told: its operation, and the node set aside, for which there is room. Answers the reply, where the
/// call ends. Takes no memory.
#[inline(always)]
pub fn put_down<const B: u32>(
    memory: &mut MemoryOf<B>,
    now: u64,
    operation: &mut Stamped,
    told: Told,
) -> Option<Reply>
    requires { IfSome told.aside (λ n. n - 1 < memory.old.room) }
    ensures memory { memory.new ≡ record memory.old { aside = aside_after memory.old.aside told.aside } }
    ensures operation { operation.new ≡ with_told now told operation.old }
    ensures reply { result ≡ told.reply }
{
    tell(now, &told, operation);
    memory.set_aside(told.aside);
    told.reply
}

pub fn goes<const B: u32>(line: Line, actor: &mut ActorOf<B>) -> Said
    ensures actor { actor.new ≡ record actor.old { line = Some line } }
    ensures said { result ≡ nothing }
{
    actor.line = Some(line);
    Said {
        effect: When::Open,
        reply: None,
        aside: None,
    }
}

/// Where a call takes effect that ends with this reply.
fn effect_of(reply: &Reply) -> When
    ensures { result ≡ outcomes.effect_of reply.now }
{
    match reply {
        Reply::Done | Reply::Value(_) => When::Open,
        Reply::Empty => When::AsNoted,
        Reply::Refused(_) => When::Here,
    }
}

pub fn ends<const B: u32>(reply: Reply, actor: &mut ActorOf<B>) -> Said
    ensures actor { actor.new ≡ record actor.old { line = None } }
    ensures said { result ≡ end_of reply }
{
    let effect = effect_of(&reply);
    actor.line = None;
    Said {
        effect,
        reply: Some(reply),
        aside: None,
    }
}

pub fn worn<const B: u32>(word: WornWord, actor: &mut ActorOf<B>) -> Said
    ensures actor { actor.new ≡ record actor.old { line = None } }
    ensures said { result ≡ end_of (Refused (WornOut word)) }
{
    ends(Reply::Refused(Refusal::WornOut(word)), actor)
}

/// The node in hand goes to the pocket, and a word is worn out.
pub fn worn_with_node<const B: u32>(word: WornWord, actor: &mut ActorOf<B>) -> Said
    ensures actor { actor.new ≡ record (lines.to_pocket actor.old) { line = None } }
    ensures said { result ≡ end_of (Refused (WornOut word)) }
{
    actor.to_pocket();
    worn(word, actor)
}

/// The queue is shut.
pub fn closed<const B: u32>(actor: &mut ActorOf<B>) -> Said
    ensures actor { actor.new ≡ record actor.old { line = None } }
    ensures said { result ≡ end_of (Refused Closed) }
{
    ends(Reply::Refused(Refusal::Closed), actor)
}

/// The node in hand goes to the pocket, and the queue is shut.
pub fn closed_with_node<const B: u32>(actor: &mut ActorOf<B>) -> Said
    ensures actor { actor.new ≡ record (lines.to_pocket actor.old) { line = None } }
    ensures said { result ≡ end_of (Refused Closed) }
{
    actor.to_pocket();
    closed(actor)
}

/// The lock of the tail is free: a shut that found the queue shut is refused, any other one is done.
pub fn left<const B: u32>(actor: &mut ActorOf<B>) -> Said
    ensures actor { actor.new ≡ record actor.old { line = None } }
    ensures said { result ≡ left_said actor.old.due }
{
    match actor.due {
        Some(Reply::Refused(refusal)) => ends(Reply::Refused(refusal), actor),
        _ => ends(Reply::Done, actor),
    }
}

/// The same of an enqueue, whose node goes to the pocket where it is refused.
pub fn left_with_node<const B: u32>(actor: &mut ActorOf<B>) -> Said
    ensures actor { actor.new ≡ left_with_node_actor actor.old }
    ensures said { result ≡ left_said actor.old.due }
{
    match actor.due {
        Some(Reply::Refused(refusal)) => {
            actor.to_pocket();
            ends(Reply::Refused(refusal), actor)
        }
        _ => ends(Reply::Done, actor),
    }
}

/// The node in hand is set aside, and a word is worn out.
pub fn worn_aside<const B: u32>(word: WornWord, actor: &mut ActorOf<B>) -> Said
    ensures actor { actor.new ≡ record actor.old { line = None; holds = false } }
    ensures said { result ≡ record (end_of (Refused (WornOut word))) { aside = Some actor.old.node } }
{
    let node = actor.node;
    actor.empties_hand();
    let said = worn(word, actor);
    Said {
        aside: Some(node),
        ..said
    }
}

/// The operation takes effect here.
pub fn effect(said: Said) -> Said
    ensures { result ≡ record said { effect = When.Here } }
{
    Said {
        effect: When::Here,
        ..said
    }
}

/// The operation takes effect here, if the queue turns out to be empty.
pub fn notes(said: Said) -> Said
    ensures { result ≡ record said { effect = When.Noted } }
{
    Said {
        effect: When::Noted,
        ..said
    }
}

impl<const B: u32> ActorOf<B> {
    pub(crate) fn fills_hand(&mut self, node: u32, mark: u64)
        ensures { self.new ≡ lines.fills_hand node mark self.old }
    {
        self.node = node;
        self.mark = mark;
        self.holds = true;
    }

    pub(crate) fn empties_hand(&mut self)
        ensures { self.new ≡ lines.empties_hand self.old }
    {
        self.holds = false;
    }

    /// The node in hand is in the queue.
    pub(crate) fn links(&mut self)
        ensures { self.new ≡ record self.old { due = Some Done; holds = false } }
    {
        self.due = Some(Reply::Done);
        self.holds = false;
    }

    pub(crate) fn to_pocket(&mut self)
        ensures { self.new ≡ lines.to_pocket self.old }
    {
        self.holds = false;
        self.pocket = Some(Held {
            node: self.node,
            mark: self.mark,
        });
    }
}

pub fn with_node(kind: Kind) -> Line
    ensures { result ≡ lines.with_node kind }
{
    match kind {
        Kind::NonBlocking => Line::E2,
        Kind::TwoLock => Line::A1,
    }
}

pub fn dequeues(kind: Kind) -> Line
    ensures { result ≡ lines.dequeues kind }
{
    match kind {
        Kind::NonBlocking => Line::D2,
        Kind::TwoLock => Line::B1,
    }
}

pub fn shuts(kind: Kind) -> Line
    ensures { result ≡ lines.shuts kind }
{
    match kind {
        Kind::NonBlocking => Line::S1,
        Kind::TwoLock => Line::S6,
    }
}

/// The node in hand is free: a call with a reply ends, a dequeue that freed its pocket first begins.
pub fn frees<const B: u32>(kind: Kind, actor: &mut ActorOf<B>) -> Said
    ensures actor { actor.new ≡ freed_actor kind actor.old }
    ensures said { result ≡ freed_said actor.old.due }
{
    actor.empties_hand();
    match actor.due {
        None => goes(dequeues(kind), actor),
        Some(reply) => ends(reply, actor),
    }
}

/// The same where the node in hand is set aside.
pub fn frees_aside<const B: u32>(kind: Kind, actor: &mut ActorOf<B>) -> Said
    ensures actor { actor.new ≡ freed_actor kind actor.old }
    ensures said { result ≡ record (freed_said actor.old.due) { aside = Some actor.old.node } }
{
    let node = actor.node;
    let said = frees(kind, actor);
    Said {
        aside: Some(node),
        ..said
    }
}

pub fn raised<const B: u32>(setup: Setup, old: CountedRefOf<B>, to: u32) -> CountedRefOf<B>
    requires bits { setup.bits ≡ B }
    requires counted { IsCounted setup }
    requires node { to < 2 ^ B }
    requires count { old.count ≤ setup.limit }
    ensures { result ≡ lines.raised setup old.entry to }
{
    if to == shut_node(B) {
        old
    } else {
        old.raised(to, setup.limit).unwrap_or(old)
    }
}

/// The closed end with the count of a reference raised.
pub fn raised_end<const B: u32>(setup: Setup, old: CountedRefOf<B>) -> CountedRefOf<B>
    requires bits { setup.bits ≡ B }
    requires counted { IsCounted setup }
    requires count { old.count ≤ setup.limit }
    ensures { result ≡ lines.raised_end setup old.entry }
{
    if old.count() == setup.limit {
        old
    } else {
        CountedRefOf::shut(old.count() + 1)
    }
}

/// The lock of the head is free: a call that took a value frees the node, any other one ends with its reply.
pub fn unlocked<const B: u32>(actor: &mut ActorOf<B>) -> Said
    ensures actor { actor.new ≡ unlocked_actor actor.old }
    ensures said { result ≡ unlocked_said actor.old.due }
{
    match actor.due {
        None | Some(Reply::Value(_)) => goes(Line::F1, actor),
        Some(reply) => ends(reply, actor),
    }
}
