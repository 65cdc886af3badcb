//! The operations of a history by their first numbers: pushes that may have had their effect, and all others.
ghost use Rattle.std.specs.Prelude.{◌≡◌, not, IfOk};
ghost use Rattle.std.specs.List.{filter};
ghost use Rattle.std.specs.List.Sorted.{IsPermutation};
ghost use Rattle.waiting_orders.specs.Waiting as rule;
ghost use Rattle.waiting_orders.specs.Lines.{IsRising};
ghost use Rattle.waiting_orders.specs.Nodes.{IsBoard};
ghost use Rattle.waiting_orders.specs.Indexed.{indexed};

use crate::operations::waits;
use history::Stamped;
use std::alloc::{AllocError, Global};

/// The operations of a history, each with its place there as its point.
#[derive(Drop)]
pub(crate) struct Board {
    pub(crate) others: Vec<Stamped>,
    pub(crate) pushes: Vec<Stamped>,
}

// The same in the order of the history.
#[derive(Drop)]
struct Calls {
    others: Vec<Stamped>,
    pushes: Vec<Stamped>,
}

impl Board {
    /// The operations of a history.
    pub(crate) fn of(alloc: Global, history: &[Stamped]) -> Result<Board, AllocError>
        ensures { IfOk result (λ board. IsBoard (indexed 0 history.now) board) }
    {
        let calls = Calls::of(alloc, history)?;
        let others = by_first(calls.others)?;
        let pushes = by_first(calls.pushes)?;
        Ok(Board { others, pushes })
    }
}

impl Calls {
    fn of(alloc: Global, history: &[Stamped]) -> Result<Calls, AllocError>
        ensures others { IfOk result (λ calls. calls.others.items
            ≡ filter (λ o. not (rule.waits o)) (indexed 0 history.now)) }
        ensures pushes { IfOk result (λ calls. calls.pushes.items
            ≡ filter rule.waits (indexed 0 history.now)) }
    {
        let mut others = Vec::new(alloc);
        let mut pushes = Vec::new(alloc);
        for (index, operation) in history.iter().enumerate() {
            let call = Stamped {
                at: Some(index as u64),
                ..*operation
            };
            if waits(&call) {
                pushes.push(call)?;
            } else {
                others.push(call)?;
            }
        }
        Ok(Calls { others, pushes })
    }
}

/// Operations by their first numbers.
pub(crate) fn by_first(operations: Vec<Stamped>) -> Result<Vec<Stamped>, AllocError>
    ensures rising { IfOk result (λ sorted. IsRising sorted.items) }
    ensures same { IfOk result (λ sorted. IsPermutation operations.items sorted.items) }
{
    let mut operations = operations;
    match operations.sort_by_key(|operation| operation.first) {
        Ok(()) => Ok(operations),
        Err(error) => Err(error),
    }
}
