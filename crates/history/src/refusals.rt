//! What a call may be refused, in the order of the refusals' numbers.
use crate::text_causes::TextCause;
use std::fmt;
use thiserror::Error;

/// The counted word whose count is at the limit.
#[derive(Clone, Copy, Debug, PartialEq, Eq)]
pub enum WornWord {
    /// The head of the free list.
    Free,
    /// The `next` of the node in hand.
    Next,
    /// The queue's tail.
    Tail,
    /// The queue's head.
    Head,
}

impl fmt::Display for WornWord {
    ghost use Rattle.std.specs.Prelude.{Some};
    ghost use Rattle.history.specs.WornWords.{word_text};

    ghost output = { λ word. Some (word_text word) };

    fn fmt<W: fmt::Write>(&self, f: &mut fmt::Formatter<W>) -> fmt::Result {
        f.write_str(match self {
            WornWord::Free => "Free",
            WornWord::Next => "Next",
            WornWord::Tail => "Tail",
            WornWord::Head => "Head",
        })
    }
}

/// Why a call is refused. The message is the line that the program writes, less the schedule's line.
#[derive(Clone, Copy, Debug, PartialEq, Eq, Error)]
pub enum Refusal {
    /// At one step every node was in use and the free list was empty.
    #[error("fault 1 NoNode")]
    NoNode,
    /// The word's count is the greatest one, and is never raised.
    #[error("fault 2 WornOut {0}")]
    WornOut(WornWord),
    /// The actor gave up.
    #[error("fault 3 Busy")]
    Busy,
    /// A growth or a new thread was refused during this call.
    #[error("fault 4 Memory")]
    Memory,
    /// A size is out of its range, or all step numbers are used.
    #[error("fault 5 BadSize")]
    BadSize,
    /// The actor has no call.
    #[error("fault 6 IdleActor")]
    IdleActor,
    /// The actor has a call.
    #[error("fault 7 ActorBusy")]
    ActorBusy,
    /// The actor's next line isn't the one named, or isn't the start of a turn.
    #[error("fault 8 NotHere")]
    NotHere,
    /// The number is 0 or above the number of actors.
    #[error("fault 9 NoSuchActor")]
    NoSuchActor,
    /// The text isn't in its grammar: its first faulty line, counted from 1, and what is wrong with it.
    #[error("fault 10 Text line {0} {1}")]
    Text(u64, TextCause),
    /// The reader failed in this call.
    #[error("fault 11 Read")]
    Read,
    /// The writer failed, or took nothing, in this call.
    #[error("fault 12 Write")]
    Write,
    /// The job or its number isn't in the list.
    #[error("fault 13 Stranger")]
    Stranger,
    /// This job's result is there already.
    #[error("fault 14 Double")]
    Double,
    /// A job has no result, or a letter isn't shown.
    #[error("fault 15 Lost")]
    Lost,
    /// The queue is shut.
    #[error("fault 16 Closed")]
    Closed,
}
