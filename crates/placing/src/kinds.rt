//! The operations of a recorded history by what they are.
ghost use Rattle.std.specs.Prelude.{◌≡◌, ◌+◌, ◌<◌, ◌^◌, IfSome, IfNone, All};
ghost use Rattle.placing.specs.Reasons.{IsReason};
ghost use Rattle.placing.specs.Faults.{HasFault, IsFaultless};

use crate::answers::Reason;
use crate::reasons::may_be_told;
use crate::times::When;
use history::{Op, Reply, Stamped};
use std::alloc::{AllocError, Global};

/// A push of a value, or a take of it. They are in order by value, pushes first, by their times.
#[derive(Clone, Copy, PartialEq, Eq, PartialOrd, Ord)]
pub(crate) struct ValueCall {
    pub(crate) from: u16,
    pub(crate) body: u64,
    pub(crate) is_take: bool,
    /// When a push began, or a take ended.
    pub(crate) time: When,
    pub(crate) index: usize,
}

impl ValueCall {
    /// Whether both are calls of one value.
    pub(crate) fn is_of_value_of(&self, other: &ValueCall) -> bool {
        self.from == other.from && self.body == other.body
    }
}

/// Indices of the operations by what they are.
#[derive(Drop)]
pub(crate) struct ByKind {
    /// Pushes that weren't refused, and takes, in order.
    pub(crate) calls: Vec<ValueCall>,
    /// Pops that were told nothing, and when they began, in order.
    pub(crate) pending: Vec<(u64, usize)>,
    /// Pops that were told that the queue is empty.
    pub(crate) empties: Vec<usize>,
    /// What was refused.
    pub(crate) refused: Vec<usize>,
}

/// Where an operation stands, counted from 1.
pub(crate) fn place_of(index: usize) -> u64
    ensures { index + 1 < 2 ^ 64 → result ≡ index + 1 }
{
    (index as u64).saturating_add(1)
}

/// What is wrong with an operation by itself.
#[derive(Clone, Copy)]
pub(crate) enum Fault {
    Shape,
    Span,
    Reply,
}

/// Why the first operation that is no call, or was told amiss, is wrong.
pub(crate) fn first_fault(history: &[Stamped]) -> Option<Reason>
    ensures found { IfSome result (IsReason history.now) }
    ensures none { IfNone result (All IsFaultless history.now) }
{
    for (index, operation) in history.iter().enumerate() {
        if let Some(fault) = fault_of(operation) {
            let place = index as u64 + 1;
            return Some(match fault {
                Fault::Shape => Reason::Shape { place },
                Fault::Span => Reason::Span { place },
                Fault::Reply => Reason::Reply { place },
            });
        }
    }
    None
}

// What is wrong with an operation by itself.
fn fault_of(operation: &Stamped) -> Option<Fault>
    ensures found { IfSome result (HasFault operation.now) }
    ensures none { IfNone result (IsFaultless operation.now) }
{
    match (operation.last, operation.reply) {
        (None, None) => None,
        (Some(last), Some(_)) if last < operation.first => Some(Fault::Span),
        (Some(_), Some(reply)) if !may_be_told(reply, operation.op) => Some(Fault::Reply),
        (Some(_), Some(_)) => None,
        (Some(_), None) | (None, Some(_)) => Some(Fault::Shape),
    }
}

/// The operations of a history in which none is wrong by itself.
pub(crate) fn sorted(alloc: Global, history: &[Stamped]) -> Result<ByKind, AllocError> {
    let mut sorted = ByKind {
        calls: Vec::new(alloc),
        pending: Vec::new(alloc),
        empties: Vec::new(alloc),
        refused: Vec::new(alloc),
    };
    for (index, operation) in history.iter().enumerate() {
        sorted.add(index, operation)?;
    }
    sorted.calls.sort_unstable();
    sorted.pending.sort_unstable();
    Ok(sorted)
}

impl ByKind {
    // Puts in an operation, which isn't wrong by itself.
    fn add(&mut self, index: usize, operation: &Stamped) -> Result<(), AllocError> {
        match operation.reply {
            Some(Reply::Refused(_)) => self.refused.push(index)?,
            Some(Reply::Empty) => self.empties.push(index)?,
            Some(Reply::Value(value)) => self.calls.push(ValueCall {
                from: value.from,
                body: value.body.number(),
                is_take: true,
                time: When::end_of(operation),
                index,
            })?,
            Some(Reply::Done) | None => match operation.op {
                Op::Enq(body) => self.calls.push(ValueCall {
                    from: operation.actor,
                    body: body.number(),
                    is_take: false,
                    time: When::At(operation.first),
                    index,
                })?,
                Op::Deq => self.pending.push((operation.first, index))?,
                Op::Shut => {}
            },
        }
        Ok(())
    }
}
