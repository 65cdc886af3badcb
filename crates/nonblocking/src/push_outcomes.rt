//! What a running push remembers, and what its turns come to.
ghost use Rattle.std.specs.Prelude.{◌≡◌, Some};
ghost use Rattle.nonblocking.specs.Pushes.{registers_of};

use counted_ref::CountedRefOf;
use free_list::Reply;
use history::Refusal;
use node_arena::{ArenaOf, Held};
use std::marker::Model;

/// The registers of a running push.
#[derive(Clone, Copy)]
pub(crate) struct ActorOf<const B: u32> {
    pub(crate) node: u32,
    pub(crate) mark: u64,
    /// The word of its value: the number of the seat in the upper bits, the body in the 48 lower ones.
    pub(crate) val: u64,
    pub(crate) tail: CountedRefOf<B>,
    pub(crate) next: CountedRefOf<B>,
    pub(crate) due: Option<Reply>,
}

impl<const B: u32> Model for ActorOf<B> {
    ghost use Rattle.nonblocking.specs.Pushes.{Running};

    ghost Value = { Running };

    ghost view = { λ a. record { node = a.node; mark = a.mark; val = a.val; tail = a.tail; next = a.next; due = a.due } };

    ghost inverse = { λ a. record { node = a.node; mark = a.mark; val = a.val; tail = a.tail; next = a.next; due = a.due } };
}

/// What a turn comes to.
#[derive(Drop)]
pub(crate) enum Turn {
    /// The body was pushed.
    Pushed,
    /// The turn failed.
    Failed,
    /// The call ends with a refusal.
    Refused(Refusal),
}

/// Registers with this node and this word of a value.
pub(crate) fn registers<const B: u32, T>(arena: &ArenaOf<B, T>, held: Held, val: u64) -> ActorOf<B>
    ensures { result ≡ registers_of held val }
{
    let null = arena.null();
    ActorOf {
        node: held.node,
        mark: held.mark,
        val,
        tail: null,
        next: null,
        due: None,
    }
}

impl<const B: u32> ActorOf<B> {
    /// The node is in the queue.
    pub(crate) fn links(&mut self)
        ensures { self.new ≡ record self.old { due = Some Reply.Done } }
    {
        self.due = Some(Reply::Done);
    }
}
