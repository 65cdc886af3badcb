//! What a running call remembers, and what its turns come to.
ghost use Rattle.std.specs.Prelude.{◌≡◌};
ghost use Rattle.free_list.specs.Runs.{in_hand, turn_of, gave_of};

use crate::{Reply, RowOutcome};
use counted_ref::CountedRefOf;
use history::Refusal;
use line_table::Line;
use node_arena::{ArenaOf, Held};
use std::marker::Model;

/// The registers of a running call.
#[derive(Clone, Copy)]
pub(crate) struct ActorOf<const B: u32> {
    pub(crate) f: u32,
    pub(crate) top: CountedRefOf<B>,
    pub(crate) next: CountedRefOf<B>,
    pub(crate) node: u32,
    pub(crate) mark: u64,
}

impl<const B: u32> Model for ActorOf<B> {
    ghost use Rattle.free_list.specs.Registers.{Running};

    ghost Value = { Running };

    ghost view = { λ a. record { f = a.f; top = a.top; next = a.next; node = a.node; mark = a.mark } };

    ghost inverse = { λ a. record { f = a.f; top = a.top; next = a.next; node = a.node; mark = a.mark } };
}

/// What a turn of a take comes to.
#[derive(Drop)]
pub(crate) enum Turn {
    /// A node came into the hand.
    Took(Held),
    /// The turn failed.
    Failed,
    /// The call ends with a refusal.
    Refused(Refusal),
}

/// What a turn of a give back comes to.
#[derive(Drop)]
pub(crate) enum Gave {
    /// The node is free, or set aside.
    Back,
    /// The turn failed.
    Again,
}

/// Registers with this node and mark, and nothing read.
pub(crate) fn registers<const B: u32, T>(arena: &ArenaOf<B, T>, node: u32, mark: u64) -> ActorOf<B>
    ensures { in_hand result ≡ record { node = node; mark = mark } }
{
    let null = arena.null();
    ActorOf {
        f: 0,
        top: null,
        next: null,
        node,
        mark,
    }
}

impl<const B: u32> ActorOf<B> {
    pub(crate) fn fills_hand(&mut self, node: u32, mark: u64)
        ensures { self.new ≡ record self.old { node = node; mark = mark } }
    {
        self.node = node;
        self.mark = mark;
    }
}

/// The turn of a take that ends so.
pub(crate) fn turned<const B: u32>(outcome: RowOutcome<ActorOf<B>>) -> Turn
    ensures { result ≡ turn_of outcome.entry }
{
    match outcome {
        RowOutcome::Goes(Line::N1, _) => Turn::Failed,
        RowOutcome::Goes(_, a) => Turn::Took(Held {
            node: a.node,
            mark: a.mark,
        }),
        RowOutcome::Ends(Reply::Refused(refusal)) => Turn::Refused(refusal),
        RowOutcome::Ends(_) => Turn::Failed,
    }
}

/// The turn of a give back that ends so.
pub(crate) fn given<const B: u32>(outcome: RowOutcome<ActorOf<B>>) -> Gave
    ensures { result ≡ gave_of outcome.entry }
{
    match outcome {
        RowOutcome::Ends(_) => Gave::Back,
        RowOutcome::Goes(..) => Gave::Again,
    }
}
