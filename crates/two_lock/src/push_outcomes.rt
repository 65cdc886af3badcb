//! What a running push remembers.
ghost use Rattle.std.specs.Prelude.{◌≡◌, Some};
ghost use Rattle.two_lock.specs.Pushes.{registers_of, has_lock, left_as};

use counted_ref::CountedRefOf;
use free_list::{Reply, RowOutcome};
use line_table::Line;
use node_arena::{ArenaOf, Held};
use std::marker::Model;

/// The registers of a running push.
#[derive(Clone, Copy)]
pub(crate) struct ActorOf<const B: u32> {
    pub(crate) node: u32,
    pub(crate) mark: u64,
    /// The word of its value: the number of the seat in the upper bits, the body in the 48 lower ones.
    pub(crate) val: u64,
    pub(crate) tail: CountedRefOf<B>,
    pub(crate) due: Option<Reply>,
}

impl<const B: u32> Model for ActorOf<B> {
    ghost use Rattle.two_lock.specs.Pushes.{Running};

    ghost Value = { Running };

    ghost view = { λ a. record { node = a.node; mark = a.mark; val = a.val; tail = a.tail; due = a.due } };

    ghost inverse = { λ a. record { node = a.node; mark = a.mark; val = a.val; tail = a.tail; due = a.due } };
}

/// Registers with this node and this word of a value.
pub(crate) fn registers<const B: u32, T>(arena: &ArenaOf<B, T>, held: Held, val: u64) -> ActorOf<B>
    ensures { result ≡ registers_of held val }
{
    ActorOf {
        node: held.node,
        mark: held.mark,
        val,
        tail: arena.null(),
        due: None,
    }
}

impl<const B: u32> ActorOf<B> {
    /// The node is in the queue.
    pub(crate) fn links(&mut self)
        ensures { self.new ≡ record self.old { due = Some Reply.Done } }
    {
        self.due = Some(Reply::Done);
    }
}

/// The lock was let go: a push that found the queue shut is refused.
pub(crate) fn left_with_node<const B: u32>(a: ActorOf<B>) -> RowOutcome<ActorOf<B>>
    ensures { result ≡ left_as a.entry.due }
{
    match a.due {
        Some(Reply::Refused(refusal)) => RowOutcome::Ends(Reply::Refused(refusal)),
        _ => RowOutcome::Ends(Reply::Done),
    }
}

/// Whether a try of the lock got it.
pub(crate) fn got_lock<const B: u32>(outcome: RowOutcome<ActorOf<B>>) -> bool
    ensures { result ≡ has_lock outcome.entry }
{
    match outcome {
        RowOutcome::Goes(Line::A4, _) => true,
        RowOutcome::Goes(..) | RowOutcome::Ends(_) => false,
    }
}
