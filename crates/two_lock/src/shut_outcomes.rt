//! What a running shut remembers, and what it answers.
ghost use Rattle.std.specs.Prelude.{◌≡◌};
ghost use Rattle.two_lock.specs.Shuts.{has_lock, answer_of};

use counted_ref::CountedRefOf;
use free_list::{Reply, RowOutcome};
use history::Refusal;
use line_table::Line;
use node_arena::ArenaOf;
use std::marker::Model;

/// The registers of a running shut.
#[derive(Clone, Copy)]
pub(crate) struct ActorOf<const B: u32> {
    pub(crate) tail: CountedRefOf<B>,
    pub(crate) due: Option<Reply>,
}

impl<const B: u32> Model for ActorOf<B> {
    ghost use Rattle.two_lock.specs.Shuts.{Running};

    ghost Value = { Running };

    ghost view = { λ a. record { tail = a.tail; due = a.due } };

    ghost inverse = { λ a. record { tail = a.tail; due = a.due } };
}

/// Registers that hold nothing yet.
pub(crate) fn blank<const B: u32, T>(arena: &ArenaOf<B, T>) -> ActorOf<B> {
    ActorOf {
        tail: arena.null(),
        due: None,
    }
}

/// The lock was let go: a shut that found the queue shut is refused.
pub(crate) fn left<const B: u32>(a: ActorOf<B>) -> Result<(), Refusal>
    ensures { result ≡ answer_of a.entry.due }
{
    match a.due {
        Some(Reply::Refused(refusal)) => Err(refusal),
        _ => Ok(()),
    }
}

/// Whether a try of the lock got it.
pub(crate) fn got_lock<const B: u32>(outcome: RowOutcome<ActorOf<B>>) -> bool
    ensures { result ≡ has_lock outcome.entry }
{
    match outcome {
        RowOutcome::Goes(Line::S7, _) => true,
        RowOutcome::Goes(..) | RowOutcome::Ends(_) => false,
    }
}
