//! What a running shut remembers, and what its turns come to.
ghost use Rattle.std.specs.Prelude.{◌≡◌};
ghost use Rattle.nonblocking.specs.Shuts.{turn_of};

use counted_ref::CountedRefOf;
use free_list::{Reply, RowOutcome};
use history::Refusal;
use node_arena::ArenaOf;
use std::marker::Model;

/// The registers of a running shut.
#[derive(Clone, Copy)]
pub(crate) struct ActorOf<const B: u32> {
    pub(crate) tail: CountedRefOf<B>,
    pub(crate) next: CountedRefOf<B>,
}

impl<const B: u32> Model for ActorOf<B> {
    ghost use Rattle.nonblocking.specs.Shuts.{Running};

    ghost Value = { Running };

    ghost view = { λ a. record { tail = a.tail; next = a.next } };

    ghost inverse = { λ a. record { tail = a.tail; next = a.next } };
}

/// What a turn comes to.
#[derive(Drop)]
pub(crate) enum Turn {
    /// The queue is shut now.
    Shut,
    /// The turn failed.
    Failed,
    /// The call ends with a refusal.
    Refused(Refusal),
}

/// Registers that hold nothing yet.
pub(crate) fn blank<const B: u32, T>(arena: &ArenaOf<B, T>) -> ActorOf<B> {
    let null = arena.null();
    ActorOf {
        tail: null,
        next: null,
    }
}

/// The turn that ends so.
pub(crate) fn turned<const B: u32>(outcome: RowOutcome<ActorOf<B>>) -> Turn
    ensures { result ≡ turn_of outcome.entry }
{
    match outcome {
        RowOutcome::Ends(Reply::Done) => Turn::Shut,
        RowOutcome::Ends(Reply::Refused(refusal)) => Turn::Refused(refusal),
        RowOutcome::Goes(..) | RowOutcome::Ends(_) => Turn::Failed,
    }
}
