//! The runs in which actor 1 stops for good, one right before each line of each queue, worked out by hand.
use history::{Body, Op, Refusal, Reply};
use line_table::Line;

/// What comes before the call of actor 1.
#[derive(Clone, Copy)]
pub enum Before {
    Nothing,
    /// Actor 2 enqueues, so that a value is there.
    Value,
    /// Actor 2 enqueues and dequeues, so that a node is free.
    Freed,
    /// Actor 3 enqueues and stops before E17, so that Tail lags.
    Lag,
}

/// What actor 1 calls.
#[derive(Clone, Copy)]
pub enum Call {
    Enq,
    Deq,
    Shut,
}

/// What ten enqueues and ten dequeues of actor 2 come to, by turns.
#[derive(Clone, Copy, Debug, PartialEq, Eq)]
pub struct Told {
    pub done: u32,
    pub no_node: u32,
    /// Enqueues that stay before A3, and give up.
    pub held_enqueues: u32,
    pub values: u32,
    pub empty: u32,
    /// Calls that are refused since the queue is shut.
    pub closed: u32,
    /// Dequeues that stay before B1, and give up.
    pub held_dequeues: u32,
}

/// None yet.
pub const NONE: Told = Told {
    done: 0,
    no_node: 0,
    held_enqueues: 0,
    values: 0,
    empty: 0,
    closed: 0,
    held_dequeues: 0,
};

/// Each enqueue is done, and each dequeue gives a value.
pub const ALL_END: Told = Told {
    done: 10,
    values: 10,
    ..NONE
};

/// Actor 1 holds Tail's lock, and has not linked its node.
const TAIL_HELD: Told = Told {
    held_enqueues: 10,
    empty: 10,
    ..NONE
};

/// Actor 1 holds Tail's lock, and has linked its node.
const TAIL_HELD_LINKED: Told = Told {
    held_enqueues: 10,
    values: 1,
    empty: 9,
    ..NONE
};

/// Actor 1 holds Tail's lock, and has shut the queue.
const TAIL_HELD_SHUT: Told = Told {
    held_enqueues: 10,
    closed: 10,
    ..NONE
};

/// Actor 1 holds Head's lock. Of six nodes one is the dummy.
const HEAD_HELD: Told = Told {
    done: 5,
    no_node: 5,
    held_dequeues: 10,
    ..NONE
};

/// The same where another node has a value, or had it and is the dummy.
const HEAD_HELD_VALUE: Told = Told {
    done: 4,
    no_node: 6,
    held_dequeues: 10,
    ..NONE
};

/// The lines of the non-blocking queue: the line, what comes before, what actor 1 calls, and how many steps it takes.
pub const NON_BLOCKING: [(Line, Before, Call, u32); 28] = [
    (Line::N1, Before::Nothing, Call::Enq, 0),
    (Line::N2, Before::Nothing, Call::Enq, 1),
    (Line::N3, Before::Freed, Call::Enq, 2),
    (Line::N4, Before::Freed, Call::Enq, 3),
    (Line::N5, Before::Nothing, Call::Enq, 2),
    (Line::F1, Before::Value, Call::Deq, 6),
    (Line::F2, Before::Value, Call::Deq, 7),
    (Line::F3, Before::Value, Call::Deq, 8),
    (Line::E2, Before::Nothing, Call::Enq, 3),
    (Line::E3, Before::Nothing, Call::Enq, 4),
    (Line::E5, Before::Nothing, Call::Enq, 5),
    (Line::E6, Before::Nothing, Call::Enq, 6),
    (Line::E7, Before::Nothing, Call::Enq, 7),
    (Line::E9, Before::Nothing, Call::Enq, 8),
    (Line::E13, Before::Lag, Call::Enq, 8),
    (Line::E17, Before::Nothing, Call::Enq, 9),
    (Line::D2, Before::Nothing, Call::Deq, 0),
    (Line::D3, Before::Nothing, Call::Deq, 1),
    (Line::D4, Before::Nothing, Call::Deq, 2),
    (Line::D5, Before::Nothing, Call::Deq, 3),
    (Line::D10, Before::Lag, Call::Deq, 4),
    (Line::D12, Before::Value, Call::Deq, 4),
    (Line::D13, Before::Value, Call::Deq, 5),
    (Line::S1, Before::Nothing, Call::Shut, 0),
    (Line::S2, Before::Nothing, Call::Shut, 1),
    (Line::S3, Before::Nothing, Call::Shut, 2),
    (Line::S4, Before::Nothing, Call::Shut, 3),
    (Line::S5, Before::Lag, Call::Shut, 3),
];

/// The lines of the two-lock queue, and what then comes of the calls of actor 2.
pub const TWO_LOCK: [(Line, Before, Call, u32, Told); 25] = [
    (Line::N1, Before::Nothing, Call::Enq, 0, ALL_END),
    (Line::N2, Before::Nothing, Call::Enq, 1, ALL_END),
    (Line::N3, Before::Freed, Call::Enq, 2, ALL_END),
    (Line::N4, Before::Freed, Call::Enq, 3, ALL_END),
    (Line::N5, Before::Nothing, Call::Enq, 2, ALL_END),
    (Line::F1, Before::Value, Call::Deq, 6, ALL_END),
    (Line::F2, Before::Value, Call::Deq, 7, ALL_END),
    (Line::F3, Before::Value, Call::Deq, 8, ALL_END),
    (Line::A1, Before::Nothing, Call::Enq, 3, ALL_END),
    (Line::A2, Before::Nothing, Call::Enq, 4, ALL_END),
    (Line::A3, Before::Nothing, Call::Enq, 5, ALL_END),
    (Line::A4, Before::Nothing, Call::Enq, 6, TAIL_HELD),
    (Line::A5, Before::Nothing, Call::Enq, 7, TAIL_HELD),
    (Line::A6, Before::Nothing, Call::Enq, 8, TAIL_HELD_LINKED),
    (Line::A7, Before::Nothing, Call::Enq, 9, TAIL_HELD_LINKED),
    (Line::B1, Before::Nothing, Call::Deq, 0, ALL_END),
    (Line::B2, Before::Nothing, Call::Deq, 1, HEAD_HELD),
    (Line::B3, Before::Nothing, Call::Deq, 2, HEAD_HELD),
    (Line::B4, Before::Value, Call::Deq, 3, HEAD_HELD_VALUE),
    (Line::B5, Before::Value, Call::Deq, 4, HEAD_HELD_VALUE),
    (Line::B6, Before::Value, Call::Deq, 5, HEAD_HELD_VALUE),
    (Line::S6, Before::Nothing, Call::Shut, 0, ALL_END),
    (Line::S7, Before::Nothing, Call::Shut, 1, TAIL_HELD),
    (Line::S8, Before::Nothing, Call::Shut, 2, TAIL_HELD),
    (Line::S9, Before::Nothing, Call::Shut, 3, TAIL_HELD_SHUT),
];

impl Call {
    /// The operation, an enqueue of a small body.
    pub fn op(self) -> Option<Op> {
        match self {
            Call::Enq => Some(Op::Enq(Body::new(5)?)),
            Call::Deq => Some(Op::Deq),
            Call::Shut => Some(Op::Shut),
        }
    }
}

impl Told {
    /// A call of actor 2 got this reply.
    pub fn adds(&mut self, call: Call, reply: Reply) {
        let count = match (call, reply) {
            (_, Reply::Done) => &mut self.done,
            (_, Reply::Value(_)) => &mut self.values,
            (_, Reply::Empty) => &mut self.empty,
            (_, Reply::Refused(Refusal::NoNode)) => &mut self.no_node,
            (_, Reply::Refused(Refusal::Closed)) => &mut self.closed,
            (Call::Enq, Reply::Refused(Refusal::Busy)) => &mut self.held_enqueues,
            (Call::Deq, Reply::Refused(Refusal::Busy)) => &mut self.held_dequeues,
            _ => return,
        };
        *count = count.wrapping_add(1);
    }
}
