//! What a step is made of: an actor with its registers, a node, and what the step makes of its actor.
use counted_ref::CountedRefOf;
use history::{Op, Reply, Taken};
use line_table::{Kind, Line};
use std::marker::Model;

/// Which queue runs, how many nodes it has, and the greatest count of a reference.
#[derive(Clone, Copy, Debug, PartialEq, Eq)]
pub struct Setup {
    pub kind: Kind,
    pub bits: u32,
    pub size: u32,
    pub limit: u64,
}

/// A node that an actor holds, and the count of the node's `next`.
#[derive(Clone, Copy, Debug, PartialEq, Eq)]
pub struct Held {
    pub node: u32,
    pub mark: u64,
}

/// An actor: its call, its next line and its registers.
#[derive(Clone, Copy)]
pub struct ActorOf<const B: u32> {
    /// None where the actor has no call.
    pub line: Option<Line>,
    /// Whether `node` and `mark` are in the actor's hand.
    pub holds: bool,
    pub f: u32,
    pub node: u32,
    pub op: Op,
    pub top: CountedRefOf<B>,
    pub mark: u64,
    pub tail: CountedRefOf<B>,
    pub head: CountedRefOf<B>,
    pub next: CountedRefOf<B>,
    pub val: Taken,
    /// The number of the step at which an empty reply would fall: the last D4, or the B3 that found null.
    pub empty_at: u64,
    /// What the call will answer, where that is settled.
    pub due: Option<Reply>,
    pub pocket: Option<Held>,
    /// Where the call's operation stands in the history, once the call has a number.
    pub entry: Option<usize>,
}

impl<const B: u32> Model for ActorOf<B> {
    ghost use Rattle.line_steps.specs.Actors.{Actor};

    ghost Value = { Actor };

    ghost view = { λ a. record {
      line = a.line;
      holds = a.holds;
      f = a.f;
      node = a.node;
      op = a.op;
      top = a.top;
      mark = a.mark;
      tail = a.tail;
      head = a.head;
      next = a.next;
      val = a.val;
      empty_at = a.empty_at;
      due = a.due;
      pocket = a.pocket;
      entry = a.entry;
    } };

    ghost inverse = { λ a. record {
      line = a.line;
      holds = a.holds;
      f = a.f;
      node = a.node;
      op = a.op;
      top = a.top;
      mark = a.mark;
      tail = a.tail;
      head = a.head;
      next = a.next;
      val = a.val;
      empty_at = a.empty_at;
      due = a.due;
      pocket = a.pocket;
      entry = a.entry;
    } };
}

/// What a step tells beside what it makes of its actor.
#[derive(Clone, Copy, Debug, PartialEq, Eq)]
pub struct Told {
    /// The number at which the operation takes effect, where this step settles it.
    pub at: Option<u64>,
    /// The reply, where the call ends.
    pub reply: Option<Reply>,
    /// The node set aside.
    pub aside: Option<u32>,
}
