//! The walk from the start to an end of the search, read back from the states between them.
ghost use Rattle.std.specs.Prelude.{◌≡◌, ℕ, IfOk, OnOk, [], Some, true, false, is_some, slice_get, unwrap_or};
ghost use Rattle.waiting_orders.specs.Lines as lines;
ghost use Rattle.waiting_orders.specs.Listed.{takes_value};
ghost use Rattle.waiting_orders.specs.Nodes.{AreCalls, start, state_of, view};
ghost use Rattle.waiting_orders.specs.Orders.{AreWent, LeadsTo, operation_of};
ghost use Rattle.waiting_orders.specs.Reached.{IsRest};
ghost use Rattle.waiting_orders.specs.Walked.{AreRooted, GoesLast, IsFrom};

use crate::boards::Board;
use crate::lines::{Rest, operation_at, place_at};
use crate::nodes::Node;
use history::{Op, Reply, Stamped};
use std::alloc::{AllocError, Global};

/// An operation that went, the push whose value it took, and the number at which it did.
#[derive(Drop)]
pub(crate) struct Went {
    pub(crate) other: Stamped,
    pub(crate) push: Option<Stamped>,
    pub(crate) time: u64,
}

/// What went from the start to a state, one after another: the states that were tried are each behind one before it.
pub(crate) fn walk_to(
    alloc: Global,
    board: &Board,
    done: &[Node],
    end: &Node,
) -> Result<Vec<Went>, AllocError>
    requires done { AreRooted board.now [] done.now }
    requires end { IsFrom board.now done.now end.now }
    ensures { IfOk result (λ walk. AreCalls board.now → AreWent walk.items
        (state_of board.now start) (state_of board.now (view end.now))) }
{
    let mut walk = Vec::new(alloc);
    let mut to = end;
    let mut below = done.len();
    while !to.is_start() {
        below = to.parent;
        let Some(from) = done.get(below) else {
            unreachable!()
        };
        push_went(&mut walk, board, from, to)?;
        to = from;
    }
    walk.reverse();
    Ok(walk)
}

// Pushes what went between two states, where an operation leads from the one to the other.
fn push_went(walk: &mut Vec<Went>, board: &Board, from: &Node, to: &Node) -> Result<(), AllocError>
    ensures { LeadsTo board.now (view from.now) (view to.now) → OnOk result (GoesLast walk.old.items
        walk.new.items (state_of board.now (view from.now)) (state_of board.now (view to.now))) }
{
    match operation_at(&board.others, from.others.gone(&to.others)) {
        Some(other) => {
            let push = push_between(board, from, to, takes(&other));
            walk.push(Went {
                other,
                push,
                time: to.time,
            })?;
            Ok(())
        }
        None => Ok(()),
    }
}

// The push whose value was taken between two states, where one was.
fn push_between(board: &Board, from: &Node, to: &Node, takes: bool) -> Option<Stamped>
    ensures { (leads : LeadsTo board.now (view from.now) (view to.now)) → is_some leads.push ≡ takes
        → result ≡ operation_of leads.push }
{
    if takes {
        operation_at(&board.pushes, from.pushes.gone(&to.pushes))
    } else {
        None
    }
}

// Whether an operation takes a value, or may have taken one.
fn takes(operation: &Stamped) -> bool
    ensures { result ≡ takes_value operation.now.op operation.now.reply }
{
    match operation.op {
        Op::Enq(_) | Op::Shut => false,
        Op::Deq => match operation.reply {
            None | Some(Reply::Value(_)) => true,
            Some(Reply::Done) | Some(Reply::Empty) | Some(Reply::Refused(_)) => false,
        },
    }
}

impl Rest {
    // The place that is gone, where one is.
    fn gone(&self, after: &Rest) -> usize
        ensures { (place : ℕ) → IsRest place (lines.view_left self.now) (lines.view_left after.now)
            → result ≡ place }
    {
        if self.from < after.from {
            after.from - 1
        } else {
            first_gone(&self.kept, &after.kept)
        }
    }
}

// The place that is gone of some places, where one is.
fn first_gone(kept: &[usize], after: &[usize]) -> usize
    ensures { (at place : ℕ) → slice_get kept.now at ≡ Some place
        → after.now ≡ lines.without at kept.now → result ≡ place }
{
    for at in 0..after.len() {
        if differ_at(kept, after, at) {
            return place_or_first(kept, at);
        }
    }
    place_or_first(kept, after.len())
}

fn differ_at(kept: &[usize], after: &[usize], at: usize) -> bool
    ensures yes { result ≡ true → ¬ (slice_get kept.now at ≡ slice_get after.now at) }
    ensures no { result ≡ false → slice_get kept.now at ≡ slice_get after.now at }
{
    place_at(kept, at) != place_at(after, at)
}

fn place_or_first(places: &[usize], at: usize) -> usize
    ensures { result ≡ unwrap_or (slice_get places.now at) 0 }
{
    match place_at(places, at) {
        Some(place) => place,
        None => 0,
    }
}
