//! Pending pops wait until a push that ended is in the way of a pop that was told a reply.
ghost use Rattle.std.specs.Prelude.{◌≡◌, ◌++◌, ◌&&◌, not, false, IfOk, OnOk, length, slice_get, is_some};
ghost use Rattle.waiting_orders.specs.Lines as lines;
ghost use Rattle.waiting_orders.specs.Nodes as next;
ghost use Rattle.waiting_orders.specs.Nodes.{view, views};

use crate::lines::Pick;
use crate::nodes::Node;
use crate::operations::{fits, is_closed, is_open_at};
use crate::steps::Front;
use history::{Op, Reply, Stamped, Taken};
use std::alloc::{AllocError, Global};

impl Node {
    /// The pushes that began by the limit of the others, if one of these operations is a pending pop.
    pub(crate) fn behind(
        &self,
        alloc: Global,
        pushes: &[Stamped],
        limit: Option<u64>,
        ways: &[Pick],
    ) -> Result<Vec<Pick>, AllocError>
        requires { lines.IsRising pushes.now }
        ensures { IfOk result (λ behind. next.none_pending ways.now ≡ false
            → lines.ArePicks pushes.now (view self.now).pushes limit
            (lines.view_picks behind.items)) }
    {
        if none_pending(ways) {
            return Ok(Vec::new(alloc));
        }
        let behind = self.pushes.picks(alloc, pushes, limit)?;
        Ok(behind)
    }

    /// Pushes the states behind the pending pops that began first, where a push that ended is in the way of another pop.
    pub(crate) fn push_pending(
        &self,
        new: &mut Vec<Node>,
        alloc: Global,
        front: &Front,
        behind: &[Pick],
        ways: &[Pick],
    ) -> Result<(), AllocError>
        ensures { OnOk result (views new.new.items ≡ views new.old.items
            ++ next.pending_of (view self.now) front.now behind.now ways.now) }
    {
        if self.is_needed(front, behind, ways) {
            self.push_all_pending(new, alloc, front, ways)?;
        }
        Ok(())
    }

    fn push_all_pending(
        &self,
        new: &mut Vec<Node>,
        alloc: Global,
        front: &Front,
        ways: &[Pick],
    ) -> Result<(), AllocError>
        ensures { OnOk result (views new.new.items ≡ views new.old.items
            ++ next.pending_to (length ways.now) (view self.now) front.now ways.now) }
    {
        for at in 0..ways.len() {
            self.push_pending_at(new, alloc, front, ways, at)?;
        }
        Ok(())
    }

    // Whether a push that ended is in the way of a pop.
    fn is_needed(&self, front: &Front, behind: &[Pick], ways: &[Pick]) -> bool
        ensures { result ≡ is_some front.now.push_limit && not (next.all_free (view self.now).shut
            front.now.push_limit behind.now ways.now) }
    {
        let limit = front.push_limit;
        limit.is_some() && !all_free(self.is_shut, limit, behind, ways)
    }

    fn push_pending_at(
        &self,
        new: &mut Vec<Node>,
        alloc: Global,
        front: &Front,
        ways: &[Pick],
        at: usize,
    ) -> Result<(), AllocError>
        ensures { OnOk result (views new.new.items ≡ views new.old.items
            ++ next.pending_at (view self.now) front.now ways.now (slice_get ways.now at)) }
    {
        match ways.get(at) {
            Some(way) => self.push_first(new, alloc, front, ways, way),
            None => Ok(()),
        }
    }

    // Pushes the states behind an operation, where that is a pending pop and none began before it.
    fn push_first(
        &self,
        new: &mut Vec<Node>,
        alloc: Global,
        front: &Front,
        ways: &[Pick],
        way: &Pick,
    ) -> Result<(), AllocError>
        ensures { OnOk result (views new.new.items ≡ views new.old.items
            ++ next.takes_where (next.is_pending way.now
            && next.goes_first way.now.operation.first ways.now)
            (view self.now) front.now way.now) }
    {
        if is_pending(way) && goes_first(way.operation.first, ways) {
            self.push_takes(new, alloc, front, way, &None)?;
        }
        Ok(())
    }
}

fn is_pending(way: &Pick) -> bool
    ensures { result ≡ next.is_pending way.now }
{
    match way.operation.op {
        Op::Deq => match way.operation.reply {
            None => true,
            Some(_) => false,
        },
        Op::Enq(_) | Op::Shut => false,
    }
}

fn none_pending(ways: &[Pick]) -> bool
    ensures { result ≡ next.none_pending ways.now }
{
    ways.iter().all(|way| !is_pending(way))
}

// Whether no pending pop of several began before a number.
fn goes_first(first: u64, ways: &[Pick]) -> bool
    ensures { result ≡ next.goes_first first ways.now }
{
    ways.iter()
        .all(|way| !is_pending(way) || first <= way.operation.first)
}

// Whether no push that ended first is in the way of one of several operations.
fn all_free(is_shut: bool, limit: Option<u64>, behind: &[Pick], ways: &[Pick]) -> bool
    ensures { result ≡ next.all_free is_shut limit behind.now ways.now }
{
    ways.iter().all(|way| is_free(is_shut, limit, behind, way))
}

// Whether no push that ended first is in the way of an operation.
fn is_free(is_shut: bool, limit: Option<u64>, behind: &[Pick], way: &Pick) -> bool
    ensures { result ≡ next.is_free is_shut limit behind.now way.now.operation.op
        way.now.operation.reply }
{
    match way.operation.op {
        Op::Deq => match way.operation.reply {
            Some(Reply::Value(value)) => none_behind(limit, &value, behind),
            Some(Reply::Empty) => is_shut,
            Some(Reply::Refused(refusal)) => !(is_closed(refusal) && is_shut),
            None | Some(Reply::Done) => true,
        },
        Op::Enq(_) | Op::Shut => true,
    }
}

// Whether none of these pushes is of a value and began after a number.
fn none_behind(limit: Option<u64>, value: &Taken, behind: &[Pick]) -> bool
    ensures { result ≡ next.none_behind limit value.now behind.now }
{
    behind.iter().all(|push| !is_behind(limit, value, push))
}

fn is_behind(limit: Option<u64>, value: &Taken, push: &Pick) -> bool
    ensures { result ≡ next.is_behind limit value.now push.now }
{
    fits(value, &push.operation) && !is_open_at(push.operation.first, limit)
}
