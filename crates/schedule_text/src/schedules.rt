//! Schedules: a machine, and what its actors do.
use history::Op;
use line_table::{Kind, Line};
use std::marker::Model;

/// The version of a schedule's text.
#[derive(Clone, Copy, Debug, PartialEq, Eq)]
pub enum Version {
    /// 24 bits hold a node, and no queue is shut.
    One,
    /// The text says how many bits hold a node, and queues may be shut.
    Two,
}

impl Version {
    ghost use Rattle.std.specs.Prelude.{◌≡◌};
    ghost use Rattle.text_io.specs.Numerals.{IsWithin};
    ghost use Rattle.schedule_text.specs.Schedules.{header_lines, tells_shuts};

    /// How many lines stand before the events. Takes no memory and doesn't wait.
    pub fn header_lines(self) -> u64
        ensures count { result ≡ header_lines self }
        ensures range { IsWithin 6 7 result }
    {
        match self {
            Version::One => 6,
            Version::Two => 7,
        }
    }

    /// Whether a text of this version may tell of shuts. Takes no memory and doesn't wait.
    pub fn tells_shuts(self) -> bool
        ensures { result ≡ tells_shuts self }
    {
        match self {
            Version::One => false,
            Version::Two => true,
        }
    }
}

/// One event of a schedule. Actors have numbers from 1.
#[derive(Clone, Copy, Debug, PartialEq, Eq)]
pub enum Event {
    /// This actor begins this call.
    Begin(u16, Op),
    /// This actor takes one step, and its next line is this one.
    Step(u16, Line),
    /// This actor takes so many steps.
    Steps(u16, u32),
    /// This actor gives up its call.
    Give(u16),
}

/// A schedule: the version of its text, the queue with its sizes and how many bits hold a node, the
/// number of actors, and the events in their order.
#[derive(Debug, Drop)]
pub struct Schedule {
    pub version: Version,
    pub kind: Kind,
    /// How many of a word's bits hold a node, 16 to 32; 24 in version 1, whose text doesn't say it.
    pub bits: u32,
    /// How many nodes the queue has.
    pub nodes: u32,
    /// The greatest count of a reference.
    pub limit: u64,
    pub actors: u16,
    pub events: Vec<Event>,
}

impl Model for Schedule {
    ghost use Rattle.schedule_text.specs.Schedules.{Schedule};

    ghost Value = { Schedule };

    ghost view = { λ s. record {
      version = s.version;
      kind = s.kind;
      bits = s.bits;
      nodes = s.nodes;
      limit = s.limit;
      actors = s.actors;
      events = s.events.items;
    } };
}
