//! Which answers came.
use history::{Op, Refusal, Reply, WornWord};
use line_table::Kind;

/// Which answers came. A call that meets no other is never Busy. Where no seat keeps its nodes, no node's next is worn out
/// before Free is.
#[derive(Clone, Copy, Debug, PartialEq, Eq)]
pub struct Answers {
    pub done: bool,
    pub value: bool,
    pub empty: bool,
    pub no_node: bool,
    pub worn_free: bool,
    pub worn_next: bool,
    pub worn_head: bool,
    pub worn_tail: bool,
    pub closed_push: bool,
    pub closed_pop: bool,
    pub closed_shut: bool,
    pub other: bool,
}

impl Answers {
    /// None yet.
    pub fn none() -> Answers {
        Answers {
            done: false,
            value: false,
            empty: false,
            no_node: false,
            worn_free: false,
            worn_next: false,
            worn_head: false,
            worn_tail: false,
            closed_push: false,
            closed_pop: false,
            closed_shut: false,
            other: false,
        }
    }

    /// All that can come to calls that meet no other, of seats that keep their nodes or don't.
    pub fn all(kind: Kind, keeps: bool) -> Answers {
        Answers {
            done: true,
            value: true,
            empty: true,
            no_node: true,
            worn_free: true,
            worn_next: keeps && kind == Kind::NonBlocking,
            worn_head: kind == Kind::TwoLock,
            worn_tail: kind == Kind::NonBlocking,
            closed_push: true,
            closed_pop: true,
            closed_shut: true,
            other: false,
        }
    }

    /// A reply to a call came.
    pub fn adds(&mut self, op: Op, reply: &Reply) {
        match *reply {
            Reply::Done => self.done = true,
            Reply::Value(_) => self.value = true,
            Reply::Empty => self.empty = true,
            Reply::Refused(Refusal::NoNode) => self.no_node = true,
            Reply::Refused(Refusal::WornOut(WornWord::Free)) => self.worn_free = true,
            Reply::Refused(Refusal::WornOut(WornWord::Next)) => self.worn_next = true,
            Reply::Refused(Refusal::WornOut(WornWord::Head)) => self.worn_head = true,
            Reply::Refused(Refusal::WornOut(WornWord::Tail)) => self.worn_tail = true,
            Reply::Refused(Refusal::Closed) => match op {
                Op::Enq(_) => self.closed_push = true,
                Op::Deq => self.closed_pop = true,
                Op::Shut => self.closed_shut = true,
            },
            Reply::Refused(_) => self.other = true,
        }
    }
}
