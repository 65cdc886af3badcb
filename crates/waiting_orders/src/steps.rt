//! The steps from a state of a search for orders in which pushes wait.
ghost use Rattle.std.specs.Prelude.{◌≡◌, ◌++◌, ◌&&◌, ◌||◌, not, IfOk, OnOk, length, slice_get, max, is_some};
ghost use Rattle.std.specs.List.{AllByRecursion};
ghost use Rattle.waiting_orders.specs.Lines as lines;
ghost use Rattle.waiting_orders.specs.Nodes as next;
ghost use Rattle.waiting_orders.specs.Nodes.{view, views};
ghost use Rattle.waiting_orders.specs.Orders.{AreBehindOver};
ghost use Rattle.waiting_orders.specs.Reached.{Leads};

use crate::alone::first_empty;
use crate::lines::{Pick, Rest};
use crate::nodes::Node;
use crate::operations::{is_closed, is_open_at, leaves};
use crate::staying::{all_may_go, staying};
use crate::taking::suits;
use history::{Op, Refusal, Reply, Stamped, Taken};
use std::alloc::{AllocError, Global};

/// How far the orders from a state may come at once: the least last numbers of the others and of the pushes that are
/// left, and the pushes that may be taken.
#[derive(Drop)]
pub(crate) struct Front {
    pub(crate) limit: Option<u64>,
    pub(crate) push_limit: Option<u64>,
    pub(crate) takes: Vec<Pick>,
    /// The least first number of the pops told that the queue is empty, of those that may be placed.
    pub(crate) empty: Option<u64>,
}

impl Node {
    /// The states to which one step leads, of a history with these operations.
    pub(crate) fn steps_over(
        &self,
        alloc: Global,
        others: &[Stamped],
        pushes: &[Stamped],
    ) -> Result<Vec<Node>, AllocError>
        requires others { lines.IsRising others.now }
        requires pushes { lines.IsRising pushes.now }
        ensures all { IfOk result (λ new.
            next.HasStepsOver others.now pushes.now (view self.now) (views new.items)) }
        ensures each { IfOk result (λ new.
            AllByRecursion (Leads others.now pushes.now (view self.now)) (views new.items)) }
        ensures behind { IfOk result (λ new.
            AreBehindOver others.now pushes.now (view self.now) (views new.items)) }
    {
        let limit = self.others.limit(others);
        let push_limit = self.pushes.limit(pushes);
        let ways = self.others.picks(alloc, others, limit)?;
        let takes = self.pushes.picks(alloc, pushes, push_limit)?;
        let empty = first_empty(&ways);
        let front = Front {
            limit,
            push_limit,
            takes,
            empty,
        };
        match self.first_quiet(&front, &ways) {
            Some(at) => {
                let new = self.quiet_step(alloc, &ways, at)?;
                Ok(new)
            }
            None => match self.first_alone(others, pushes, &front, &ways) {
                Some(alone) => {
                    let new = self.alone_step(alloc, &front, &ways, alone)?;
                    Ok(new)
                }
                None => {
                    let behind = self.behind(alloc, pushes, limit, &ways)?;
                    let new = self.all_steps(alloc, pushes, &front, &behind, &ways)?;
                    Ok(new)
                }
            },
        }
    }

    fn all_steps(
        &self,
        alloc: Global,
        pushes: &[Stamped],
        front: &Front,
        behind: &[Pick],
        ways: &[Pick],
    ) -> Result<Vec<Node>, AllocError>
        ensures { IfOk result (λ new. views new.items
            ≡ next.steps_to (length ways.now) pushes.now (view self.now) front.now ways.now
            ++ next.pending_of (view self.now) front.now behind.now ways.now) }
    {
        let mut new = Vec::new(alloc);
        for at in 0..ways.len() {
            self.push_steps_at(&mut new, alloc, pushes, front, ways, at)?;
        }
        self.push_pending(&mut new, alloc, front, behind, ways)?;
        Ok(new)
    }

    fn push_steps_at(
        &self,
        new: &mut Vec<Node>,
        alloc: Global,
        pushes: &[Stamped],
        front: &Front,
        ways: &[Pick],
        at: usize,
    ) -> Result<(), AllocError>
        ensures { OnOk result (views new.new.items ≡ views new.old.items
            ++ next.steps_at pushes.now (view self.now) front.now ways.now
            (slice_get ways.now at)) }
    {
        match ways.get(at) {
            Some(way) => self.push_in_turn(new, alloc, pushes, front, ways, way),
            None => Ok(()),
        }
    }

    // Pushes the states behind an operation, where it is in turn.
    fn push_in_turn(
        &self,
        new: &mut Vec<Node>,
        alloc: Global,
        pushes: &[Stamped],
        front: &Front,
        ways: &[Pick],
        way: &Pick,
    ) -> Result<(), AllocError>
        ensures { OnOk result (views new.new.items ≡ views new.old.items
            ++ next.steps_where (next.is_in_turn (view self.now) front.now ways.now way.now.operation)
            pushes.now (view self.now) front.now way.now) }
    {
        if self.is_in_turn(front, ways, &way.operation) {
            self.push_steps(new, alloc, pushes, front, way)?;
        }
        Ok(())
    }

    fn push_steps(
        &self,
        new: &mut Vec<Node>,
        alloc: Global,
        pushes: &[Stamped],
        front: &Front,
        way: &Pick,
    ) -> Result<(), AllocError>
        ensures { OnOk result (views new.new.items ≡ views new.old.items
            ++ next.steps_of way.now.operation.op way.now.operation.reply pushes.now (view self.now)
            front.now way.now) }
    {
        match way.operation.reply {
            None => match way.operation.op {
                Op::Enq(_) | Op::Deq => Ok(()),
                Op::Shut => self.push_shut(new, alloc, pushes, front, way),
            },
            Some(Reply::Done) => match way.operation.op {
                Op::Enq(_) | Op::Deq => Ok(()),
                Op::Shut => self.push_shut(new, alloc, pushes, front, way),
            },
            Some(Reply::Value(value)) => match way.operation.op {
                Op::Deq => self.push_takes(new, alloc, front, way, &Some(value)),
                Op::Enq(_) | Op::Shut => Ok(()),
            },
            Some(Reply::Empty) => match way.operation.op {
                Op::Deq => {
                    let holds = !self.is_shut && is_open_at(self.time_of(way), front.push_limit);
                    self.push_stay(new, alloc, front, way, holds)
                }
                Op::Enq(_) | Op::Shut => Ok(()),
            },
            Some(Reply::Refused(refusal)) => self.push_refused(
                new, alloc, pushes, front, way, refusal,
            ),
        }
    }

    fn push_refused(
        &self,
        new: &mut Vec<Node>,
        alloc: Global,
        pushes: &[Stamped],
        front: &Front,
        way: &Pick,
        refusal: Refusal,
    ) -> Result<(), AllocError>
        ensures { OnOk result (views new.new.items ≡ views new.old.items
            ++ next.refused_of refusal way.now.operation.op pushes.now (view self.now) front.now
            way.now) }
    {
        match way.operation.op {
            Op::Enq(_) | Op::Shut => {
                let holds = leaves(refusal) || is_closed(refusal) && self.is_shut;
                self.push_stay(new, alloc, front, way, holds)
            }
            Op::Deq => {
                self.push_stay(new, alloc, front, way, leaves(refusal))?;
                self.push_drained(new, alloc, pushes, front, way, is_closed(refusal))
            }
        }
    }

    /// The number at which an operation has its effect, at the least.
    pub(crate) fn time_of(&self, way: &Pick) -> u64
        ensures { result ≡ max (view self.now).time way.now.operation.first }
    {
        later(self.time, way.operation.first)
    }

    // Pushes the state behind an operation that changes nothing, where something holds.
    fn push_stay(
        &self,
        new: &mut Vec<Node>,
        alloc: Global,
        front: &Front,
        way: &Pick,
        holds: bool,
    ) -> Result<(), AllocError>
        ensures { OnOk result (views new.new.items ≡ views new.old.items
            ++ next.stay holds (view self.now) front.now way.now) }
    {
        let time = self.time_of(way);
        let holds = holds && is_open_at(time, front.limit);
        push_where(new, alloc, holds, way, &self.pushes, self.is_shut, time)
    }

    // Pushes the state behind a pop that was told that the queue is shut and empty, where something holds.
    fn push_drained(
        &self,
        new: &mut Vec<Node>,
        alloc: Global,
        pushes: &[Stamped],
        front: &Front,
        way: &Pick,
        holds: bool,
    ) -> Result<(), AllocError>
        ensures { OnOk result (views new.new.items ≡ views new.old.items
            ++ next.drained holds pushes.now (view self.now) front.now way.now) }
    {
        let time = self.time_of(way);
        let none = Rest::all_from(alloc, pushes.len());
        let holds = holds
            && self.is_shut
            && is_open_at(time, front.limit)
            && front.push_limit.is_none();
        push_where(new, alloc, holds, way, &none, self.is_shut, time)
    }

    // Pushes the state behind a shut.
    fn push_shut(
        &self,
        new: &mut Vec<Node>,
        alloc: Global,
        pushes: &[Stamped],
        front: &Front,
        way: &Pick,
    ) -> Result<(), AllocError>
        ensures { OnOk result (views new.new.items ≡ views new.old.items
            ++ next.shut_of pushes.now (view self.now) front.now way.now) }
    {
        let time = self.time_of(way);
        let places = self.pushes.spelled(alloc, pushes.len())?;
        let staying = Rest {
            kept: staying(alloc, pushes, front.limit, &places)?,
            from: pushes.len(),
        };
        let holds = !self.is_shut
            && is_open_at(time, front.limit)
            && all_may_go(pushes, front.limit, &places);
        push_where(new, alloc, holds, way, &staying, true, time)
    }

    pub(crate) fn push_takes(
        &self,
        new: &mut Vec<Node>,
        alloc: Global,
        front: &Front,
        way: &Pick,
        value: &Option<Taken>,
    ) -> Result<(), AllocError>
        ensures { OnOk result (views new.new.items ≡ views new.old.items
            ++ next.takes_to (length front.now.takes.items)
            (next.suits front.now value.now) (view self.now)
            front.now way.now) }
    {
        for at in 0..front.takes.len() {
            self.push_take_at(new, alloc, front, way, value, at)?;
        }
        Ok(())
    }

    fn push_take_at(
        &self,
        new: &mut Vec<Node>,
        alloc: Global,
        front: &Front,
        way: &Pick,
        value: &Option<Taken>,
        at: usize,
    ) -> Result<(), AllocError>
        ensures { OnOk result (views new.new.items ≡ views new.old.items
            ++ next.take_at (next.suits front.now value.now) (view self.now) front.now
            way.now
            (slice_get front.now.takes.items at)) }
    {
        match front.takes.get(at) {
            Some(take) => self.push_take(new, alloc, front, way, value, take),
            None => Ok(()),
        }
    }

    fn push_take(
        &self,
        new: &mut Vec<Node>,
        alloc: Global,
        front: &Front,
        way: &Pick,
        value: &Option<Taken>,
        take: &Pick,
    ) -> Result<(), AllocError>
        ensures { OnOk result (views new.new.items ≡ views new.old.items
            ++ next.take_of (next.suits front.now value.now) (view self.now) front.now
            way.now take.now) }
    {
        let time = later(self.time_of(way), take.operation.first);
        if suits(front, value, &take.operation)
            && is_open_at(take.operation.first, front.push_limit)
            && is_open_at(time, front.limit)
        {
            push(new, alloc, way, &take.rest, self.is_shut, time)?;
        }
        Ok(())
    }
}

// Pushes the state behind an operation that takes no value, where something holds.
fn push_where(
    new: &mut Vec<Node>,
    alloc: Global,
    holds: bool,
    way: &Pick,
    pushes: &Rest,
    is_shut: bool,
    time: u64,
) -> Result<(), AllocError>
    ensures { OnOk result (views new.new.items ≡ views new.old.items
        ++ next.where_so holds (lines.view_left way.now.rest) (lines.view_left pushes.now) is_shut
        time) }
{
    if holds {
        push(new, alloc, way, pushes, is_shut, time)?;
    }
    Ok(())
}

/// Pushes the state behind an operation.
pub(crate) fn push(
    new: &mut Vec<Node>,
    alloc: Global,
    way: &Pick,
    pushes: &Rest,
    is_shut: bool,
    time: u64,
) -> Result<(), AllocError>
    ensures { OnOk result (views new.new.items ≡ views new.old.items
        ++ next.one (lines.view_left way.now.rest) (lines.view_left pushes.now) is_shut time) }
{
    let others = way.rest.copied(alloc)?;
    let pushes = pushes.copied(alloc)?;
    new.push(Node {
        others,
        pushes,
        is_shut,
        time,
        parent: 0,
    })?;
    Ok(())
}

pub(crate) fn later(time: u64, first: u64) -> u64
    ensures { result ≡ max time first }
{
    if time <= first { first } else { time }
}
