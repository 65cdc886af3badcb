//! What a running pop remembers, and where it goes once its lock is let go.
ghost use Rattle.std.specs.Prelude.{◌≡◌};
ghost use Rattle.two_lock.specs.Pops.{has_lock, unlocked_as};

use counted_ref::CountedRefOf;
use free_list::{Reply, RowOutcome};
use line_table::Line;
use node_arena::ArenaOf;
use std::marker::Model;

/// The registers of a running pop.
#[derive(Clone, Copy)]
pub(crate) struct ActorOf<const B: u32> {
    pub(crate) head: CountedRefOf<B>,
    pub(crate) next: CountedRefOf<B>,
    /// The word of the value that it takes.
    pub(crate) val: u64,
    pub(crate) node: u32,
    pub(crate) mark: u64,
    pub(crate) due: Option<Reply>,
}

impl<const B: u32> Model for ActorOf<B> {
    ghost use Rattle.two_lock.specs.Pops.{Running};

    ghost Value = { Running };

    ghost view = { λ a. record { head = a.head; next = a.next; val = a.val; node = a.node; mark = a.mark; due = a.due } };

    ghost inverse = { λ a. record { head = a.head; next = a.next; val = a.val; node = a.node; mark = a.mark; due = a.due } };
}

/// Registers that hold nothing yet.
pub(crate) fn blank<const B: u32, T>(arena: &ArenaOf<B, T>) -> ActorOf<B> {
    let null = arena.null();
    ActorOf {
        head: null,
        next: null,
        val: 0,
        node: 0,
        mark: 0,
        due: None,
    }
}

impl<const B: u32> ActorOf<B> {
    pub(crate) fn fills_hand(&mut self, node: u32, mark: u64)
        ensures { self.new ≡ record self.old { node = node; mark = mark } }
    {
        self.node = node;
        self.mark = mark;
    }
}

pub(crate) fn unlocked<const B: u32>(a: ActorOf<B>) -> RowOutcome<ActorOf<B>>
    ensures { result ≡ unlocked_as a.entry.due a.entry }
{
    match a.due {
        None | Some(Reply::Value(_)) => RowOutcome::Goes(Line::F1, a),
        Some(reply) => RowOutcome::Ends(reply),
    }
}

/// Whether a try of the lock got it.
pub(crate) fn got_lock<const B: u32>(outcome: RowOutcome<ActorOf<B>>) -> bool
    ensures { result ≡ has_lock outcome.entry }
{
    match outcome {
        RowOutcome::Goes(Line::B2, _) => true,
        RowOutcome::Goes(..) | RowOutcome::Ends(_) => false,
    }
}
