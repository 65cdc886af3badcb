//! What actors of a world do: their moves, and what a move did.
use history::{Op, Reply};
use line_table::Line;

/// A move of a world: an actor begins a call, takes one step, or gives up where a turn begins.
#[derive(Clone, Copy, Debug, PartialEq, Eq)]
pub enum Move {
    Begin(u16, Op),
    Step(u16),
    Give(u16),
}

/// What a move did.
#[derive(Clone, Copy, Debug, PartialEq, Eq)]
pub enum Stepped {
    /// A call began.
    Began,
    /// The step of this line was taken, and the call goes on.
    Went(Line),
    /// The call ended at this line with this reply.
    Ended(Line, Reply),
}
