//! What changes nothing goes first, where it may.
ghost use Rattle.std.specs.Prelude.{◌≡◌, true, IfOk, IfSome, slice_get};
ghost use Rattle.waiting_orders.specs.Nodes as next;
ghost use Rattle.waiting_orders.specs.Nodes.{view, views};

use crate::lines::Pick;
use crate::nodes::Node;
use crate::operations::{is_open_at, leaves};
use crate::steps::{Front, push};
use history::{Op, Reply};
use std::alloc::{AllocError, Global};

impl Node {
    /// The place of an operation that changes nothing and may go first, if there is one.
    pub(crate) fn first_quiet(&self, front: &Front, ways: &[Pick]) -> Option<usize>
        ensures { IfSome result (λ at.
            next.is_first_at (view self.now) front.now (slice_get ways.now at) ≡ true) }
    {
        for at in 0..ways.len() {
            if self.is_first_at(front, ways, at) {
                return Some(at);
            }
        }
        None
    }

    fn is_first_at(&self, front: &Front, ways: &[Pick], at: usize) -> bool
        ensures { result ≡ next.is_first_at (view self.now) front.now (slice_get ways.now at) }
    {
        match ways.get(at) {
            Some(way) => self.is_first(front, way),
            None => false,
        }
    }

    // Whether an operation changes nothing and may go first.
    fn is_first(&self, front: &Front, way: &Pick) -> bool
        ensures { result ≡ next.is_first way.now.operation.reply way.now.operation.op
            (view self.now) front.now way.now }
    {
        match way.operation.reply {
            Some(Reply::Empty) => match way.operation.op {
                Op::Deq => {
                    let time = self.time_of(way);
                    !self.is_shut
                        && is_open_at(time, front.limit)
                        && is_open_at(time, front.push_limit)
                }
                Op::Enq(_) | Op::Shut => false,
            },
            Some(Reply::Refused(refusal)) => leaves(refusal),
            None | Some(Reply::Done) | Some(Reply::Value(_)) => false,
        }
    }

    /// The state behind an operation that changes nothing.
    pub(crate) fn quiet_step(
        &self,
        alloc: Global,
        ways: &[Pick],
        at: usize,
    ) -> Result<Vec<Node>, AllocError>
        ensures { IfOk result (λ new.
            views new.items ≡ next.quiet_at (view self.now) (slice_get ways.now at)) }
    {
        let mut new = Vec::new(alloc);
        match ways.get(at) {
            Some(way) => {
                let time = self.quiet_time(way);
                push(&mut new, alloc, way, &self.pushes, self.is_shut, time)?;
                Ok(new)
            }
            None => Ok(new),
        }
    }

    fn quiet_time(&self, way: &Pick) -> u64
        ensures { result ≡ next.quiet_time way.now.operation.reply (view self.now) way.now }
    {
        match way.operation.reply {
            Some(Reply::Empty) => self.time_of(way),
            None | Some(Reply::Done) | Some(Reply::Value(_)) | Some(Reply::Refused(_)) => self.time,
        }
    }
}
