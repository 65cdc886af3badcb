//! What a test does with a world, and what it expects to see there: constants, so with bodies as numbers.
use super::expected::{Answer, Call, Content};
use history::Refusal;
use line_table::Line;
use step_machine::{Held, Place, WordName};

/// A move of a world.
#[derive(Clone, Copy, Debug)]
pub enum Act {
    Begin(u16, Call),
    Step(u16),
    Give(u16),
}

/// What `step_in` tells of a move.
#[derive(Clone, Copy, Debug)]
pub enum Telling {
    Began,
    Went(Line),
    Ended(Line, Answer),
    Refused(Refusal),
}

/// What is done with a world, or what stands there. References are told by their node and count.
#[derive(Clone, Copy, Debug)]
pub enum Event {
    /// An actor begins a call.
    Begin(u16, Call),
    /// An actor takes some steps.
    Steps(u16, u32),
    /// An actor gives up.
    Give(u16),
    /// A move is made by `step_in`, which tells this.
    Told(Act, Telling),
    /// The next step of an actor is at this line and touches this word, which it expects to hold the first content, if it is a
    /// compare-exchange, and which holds the second one. Then it is taken.
    Touch(u16, Line, WordName, Option<Content>, Content),
    /// An actor has no next step: it touches no word, and expects nothing.
    Idle(u16),
    /// A word holds this.
    Holds(WordName, Content),
    /// What Free, Head and Tail name.
    Free(u32, u64),
    Head(u32, u64),
    Tail(u32, u64),
    /// How many nodes were used.
    Fresh(u32),
    /// How many step numbers were taken.
    Taken(u64),
    /// The next line of an actor; none where it has no call.
    At(u16, Option<Line>),
    /// The pocket of an actor.
    Pocket(u16, Option<Held>),
    /// The `next` of a node.
    Next(u32, u32, u64),
    /// The `next` of a node is the closed end with this count.
    Closed(u32, u64),
    /// Where a node is.
    Placed(u32, Place),
    /// The value of a node: the actor that pushed it, and its body.
    Value(u32, u16, u32),
}
