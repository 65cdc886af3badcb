//! A pop goes alone, where no other way to take its value may be needed.
ghost use Rattle.std.specs.Prelude.{◌≡◌, true, None, Some, IfOk, IfSome, IfNone, slice_get};
ghost use Rattle.std.specs.List.{AllByRecursion};
ghost use Rattle.waiting_orders.specs.Alone as alone_rule;
ghost use Rattle.waiting_orders.specs.Lines as lines;
ghost use Rattle.waiting_orders.specs.Nodes as next;
ghost use Rattle.waiting_orders.specs.Nodes.{view, views};

use crate::lines::Pick;
use crate::nodes::Node;
use crate::operations::{fits, is_open_at, sooner};
use crate::steps::{Front, later, push};
use history::{Op, Reply, Stamped, Taken};
use std::alloc::{AllocError, Global};

/// Where a pop stands among the operations that may be placed, and the push that it takes among those that may be taken.
#[derive(Clone, Copy)]
pub(crate) struct Alone {
    pub(crate) way: usize,
    pub(crate) take: usize,
}

impl Node {
    /// A pop that may go alone, with the push that it takes, if there is one.
    pub(crate) fn first_alone(
        &self,
        others: &[Stamped],
        pushes: &[Stamped],
        front: &Front,
        ways: &[Pick],
    ) -> Option<Alone>
        requires others { lines.IsRising others.now }
        requires pushes { lines.IsRising pushes.now }
        ensures { IfSome result (λ alone. alone_rule.IsAloneAt others.now pushes.now (view self.now)
            front.now (slice_get ways.now alone.way)
            (slice_get front.now.takes.items alone.take)) }
    {
        for way in 0..ways.len() {
            match self.first_take(others, pushes, front, ways, way) {
                Some(take) => return Some(Alone { way, take }),
                None => {}
            }
        }
        None
    }

    // The place of a push with which the pop at a place may go alone, if there is one.
    fn first_take(
        &self,
        others: &[Stamped],
        pushes: &[Stamped],
        front: &Front,
        ways: &[Pick],
        way: usize,
    ) -> Option<usize>
        requires others { lines.IsRising others.now }
        requires pushes { lines.IsRising pushes.now }
        ensures { IfSome result (λ take. alone_rule.IsAloneAt others.now pushes.now (view self.now)
            front.now (slice_get ways.now way) (slice_get front.now.takes.items take)) }
    {
        for take in 0..front.takes.len() {
            if self.is_alone_at(others, pushes, front, ways, way, take) {
                return Some(take);
            }
        }
        None
    }

    #[tactic(auto, using(crate::proofs::GoingAlone::stands_alone))]
    fn is_alone_at(
        &self,
        others: &[Stamped],
        pushes: &[Stamped],
        front: &Front,
        ways: &[Pick],
        way: usize,
        take: usize,
    ) -> bool
        requires others { lines.IsRising others.now }
        requires pushes { lines.IsRising pushes.now }
        ensures { result ≡ true → alone_rule.IsAloneAt others.now pushes.now (view self.now)
            front.now (slice_get ways.now way) (slice_get front.now.takes.items take) }
    {
        match pick_at(ways, way) {
            Some(way) => match pick_at(&front.takes, take) {
                Some(take) => self.is_alone(others, pushes, front, way, take),
                None => false,
            },
            None => false,
        }
    }

    // Whether a pop may take a push, and go alone.
    #[tactic(auto, using(crate::proofs::GoingAlone::told_alone))]
    fn is_alone(
        &self,
        others: &[Stamped],
        pushes: &[Stamped],
        front: &Front,
        way: &Pick,
        take: &Pick,
    ) -> bool
        requires others { lines.IsRising others.now }
        requires pushes { lines.IsRising pushes.now }
        ensures { result ≡ true → alone_rule.IsAlone others.now pushes.now (view self.now)
            front.now way.now take.now }
    {
        match told(&way.operation) {
            Some(value) => self.is_alone_of(&value, others, pushes, front, way, take),
            None => false,
        }
    }

    #[tactic(auto, using(crate::proofs::GoingAlone::may_go_alone))]
    fn is_alone_of(
        &self,
        value: &Taken,
        others: &[Stamped],
        pushes: &[Stamped],
        front: &Front,
        way: &Pick,
        take: &Pick,
    ) -> bool
        requires others { lines.IsRising others.now }
        requires pushes { lines.IsRising pushes.now }
        ensures { result ≡ true → alone_rule.MayGoAlone value.now others.now pushes.now
            (view self.now) front.now way.now take.now }
    {
        let time = later(self.time_of(way), take.operation.first);
        let may_take = fits(value, &take.operation)
            && is_open_at(take.operation.first, front.push_limit)
            && is_open_at(time, front.limit)
            && self.is_calm(front, time);
        may_take
            && self.others.none_sooner(others, value, way.operation.last)
            && self.pushes.none_sooner(pushes, value, take.operation.last)
    }

    /// Whether no pop that was told that the queue is empty has to come before a number that is later than the state's.
    pub(crate) fn is_calm(&self, front: &Front, time: u64) -> bool
        ensures { result ≡ next.is_calm (view self.now) front.now time }
    {
        time <= self.time || is_open_at(time, front.empty)
    }

    /// The state behind a pop that goes alone.
    pub(crate) fn alone_step(
        &self,
        alloc: Global,
        front: &Front,
        ways: &[Pick],
        alone: Alone,
    ) -> Result<Vec<Node>, AllocError>
        ensures { IfOk result (λ new. views new.items ≡ alone_rule.alone_at (view self.now)
            (slice_get ways.now alone.way) (slice_get front.now.takes.items alone.take)) }
    {
        let mut new = Vec::new(alloc);
        match pick_at(ways, alone.way) {
            Some(way) => match pick_at(&front.takes, alone.take) {
                Some(take) => {
                    let time = later(self.time_of(way), take.operation.first);
                    push(&mut new, alloc, way, &take.rest, self.is_shut, time)?;
                    Ok(new)
                }
                None => Ok(new),
            },
            None => Ok(new),
        }
    }
}

fn pick_at(picks: &[Pick], at: usize) -> Option<&Pick>
    ensures some { IfSome result (λ pick. slice_get picks.now at ≡ Some pick.now) }
    ensures none { IfNone result (slice_get picks.now at ≡ None) }
{
    picks.get(at)
}

/// The value that a pop was told, if it was told one.
pub(crate) fn told(operation: &Stamped) -> Option<Taken>
    ensures { result ≡ next.told operation.now.op operation.now.reply }
{
    match operation.op {
        Op::Enq(_) | Op::Shut => None,
        Op::Deq => match operation.reply {
            Some(Reply::Value(value)) => Some(value),
            None | Some(Reply::Done) | Some(Reply::Empty) | Some(Reply::Refused(_)) => None,
        },
    }
}

/// The least first number of operations that were told that the queue is empty.
pub(crate) fn first_empty(ways: &[Pick]) -> Option<u64>
    ensures { AllByRecursion (alone_rule.BeginsLater result) ways.now }
{
    let mut first = None;
    for at in 0..ways.len() {
        first = first_of(ways, at, first);
    }
    first
}

fn first_of(ways: &[Pick], at: usize, first: Option<u64>) -> Option<u64>
    ensures { result ≡ alone_rule.first_of first (slice_get ways.now at) }
{
    match ways.get(at) {
        Some(way) => if is_empty(way.operation.reply) {
            sooner(first, Some(way.operation.first))
        } else {
            first
        },
        None => first,
    }
}

fn is_empty(reply: Option<Reply>) -> bool
    ensures { result ≡ alone_rule.is_empty reply }
{
    match reply {
        Some(Reply::Empty) => true,
        None | Some(Reply::Done) | Some(Reply::Value(_)) | Some(Reply::Refused(_)) => false,
    }
}
