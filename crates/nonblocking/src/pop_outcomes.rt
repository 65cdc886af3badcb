//! What a running pop remembers, and what its turns come to.
ghost use Rattle.std.specs.Prelude.{◌≡◌};
ghost use Rattle.nonblocking.specs.Pops.{turn_of};

use counted_ref::CountedRefOf;
use free_list::{Reply, RowOutcome};
use history::Refusal;
use line_table::Line;
use node_arena::{ArenaOf, Held};
use std::marker::Model;

/// The registers of a running pop.
#[derive(Clone, Copy)]
pub(crate) struct ActorOf<const B: u32> {
    pub(crate) head: CountedRefOf<B>,
    pub(crate) tail: CountedRefOf<B>,
    pub(crate) next: CountedRefOf<B>,
    /// The word of the value that it takes.
    pub(crate) val: u64,
    pub(crate) node: u32,
    pub(crate) mark: u64,
    pub(crate) due: Option<Reply>,
}

impl<const B: u32> Model for ActorOf<B> {
    ghost use Rattle.nonblocking.specs.Pops.{Running};

    ghost Value = { Running };

    ghost view = { λ a. record { head = a.head; tail = a.tail; next = a.next; val = a.val; node = a.node; mark = a.mark; due = a.due } };

    ghost inverse = { λ a. record { head = a.head; tail = a.tail; next = a.next; val = a.val; node = a.node; mark = a.mark; due = a.due } };
}

/// What a turn comes to.
#[derive(Drop)]
pub(crate) enum Turn {
    /// The value of this word was taken, and the node that comes free is in the hand.
    Took(u64, Held),
    /// The turn failed.
    Failed,
    /// The queue was empty.
    Empty,
    /// The call ends with a refusal.
    Refused(Refusal),
}

/// Registers that hold nothing yet.
pub(crate) fn blank<const B: u32, T>(arena: &ArenaOf<B, T>) -> ActorOf<B> {
    let null = arena.null();
    ActorOf {
        head: null,
        tail: null,
        next: null,
        val: 0,
        node: 0,
        mark: 0,
        due: None,
    }
}

impl<const B: u32> ActorOf<B> {
    pub(crate) fn fills_hand(&mut self, node: u32, mark: u64)
        ensures { self.new ≡ record self.old { node = node; mark = mark } }
    {
        self.node = node;
        self.mark = mark;
    }
}

/// The turn that ends so.
pub(crate) fn turned<const B: u32>(outcome: RowOutcome<ActorOf<B>>) -> Turn
    ensures { result ≡ turn_of outcome.entry }
{
    match outcome {
        RowOutcome::Goes(Line::F1, a) => Turn::Took(
            a.val,
            Held {
                node: a.node,
                mark: a.mark,
            },
        ),
        RowOutcome::Ends(Reply::Empty) => Turn::Empty,
        RowOutcome::Ends(Reply::Refused(refusal)) => Turn::Refused(refusal),
        RowOutcome::Goes(..) | RowOutcome::Ends(_) => Turn::Failed,
    }
}
