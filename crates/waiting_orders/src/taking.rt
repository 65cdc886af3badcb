//! Of the pushes of a value, and of the pops that were told it, the one that ends first goes.
ghost use Rattle.std.specs.Prelude.{◌≡◌, ◌&&◌};
ghost use Rattle.waiting_orders.specs.Nodes as next;
ghost use Rattle.waiting_orders.specs.Nodes.{view};

use crate::alone::told;
use crate::ending::is_told;
use crate::lines::Pick;
use crate::nodes::Node;
use crate::operations::{ends_by, fits, is_by, is_open_at};
use crate::steps::Front;
use history::{Op, Stamped, Taken};

impl Node {
    /// Whether an operation was told no value, or no pop that was told it and may take it goes before it.
    pub(crate) fn is_in_turn(&self, front: &Front, ways: &[Pick], operation: &Stamped) -> bool
        ensures { result ≡ next.is_in_turn (view self.now) front.now ways.now operation.now }
    {
        match told(operation) {
            Some(value) => self.none_in_front(front, ways, &value, operation),
            None => true,
        }
    }

    fn none_in_front(&self, front: &Front, ways: &[Pick], value: &Taken, pop: &Stamped) -> bool
        ensures { result ≡ next.none_in_front (view self.now) front.now ways.now value.now pop.now }
    {
        ways.iter()
            .all(|way| !self.is_in_front(front, value, &way.operation, pop))
    }

    fn is_in_front(&self, front: &Front, value: &Taken, pop: &Stamped, other: &Stamped) -> bool
        ensures { result ≡ (next.may_get (view self.now) front.now value.now pop.now
            && next.is_before pop.now other.now) }
    {
        self.may_get(front, value, pop) && is_before(pop, other)
    }

    // Whether a pop was told a value, and may take it as soon as it began, before no pop that found the queue empty.
    fn may_get(&self, front: &Front, value: &Taken, pop: &Stamped) -> bool
        ensures { result ≡ next.may_get (view self.now) front.now value.now pop.now }
    {
        gets(value, pop) && is_open_at(pop.first, front.limit) && self.is_calm(front, pop.first)
    }
}

fn gets(value: &Taken, operation: &Stamped) -> bool
    ensures { result ≡ next.gets value.now operation.now.op operation.now.reply }
{
    match operation.op {
        Op::Deq => is_told(value, operation.reply),
        Op::Enq(_) | Op::Shut => false,
    }
}

/// Whether a push is of a value that was told, and no other one of it that may be taken ends first; or it ended first, where
/// none was told.
pub(crate) fn suits(front: &Front, value: &Option<Taken>, push: &Stamped) -> bool
    ensures { result ≡ next.suits front.now value.now push.now }
{
    match value {
        None => is_by(push.last, front.push_limit),
        Some(value) => fits(value, push) && none_before(front, value, push),
    }
}

fn none_before(front: &Front, value: &Taken, push: &Stamped) -> bool
    ensures { result ≡ next.none_before front.now value.now push.now }
{
    front
        .takes
        .iter()
        .all(|take| !goes_before(front, value, take, push))
}

fn goes_before(front: &Front, value: &Taken, take: &Pick, push: &Stamped) -> bool
    ensures { result ≡ (next.may_be_taken front.now value.now take.now.operation
        && next.is_before take.now.operation push.now) }
{
    may_be_taken(front, value, &take.operation) && is_before(&take.operation, push)
}

fn may_be_taken(front: &Front, value: &Taken, push: &Stamped) -> bool
    ensures { result ≡ next.may_be_taken front.now value.now push.now }
{
    fits(value, push)
        && is_open_at(push.first, front.push_limit)
        && is_open_at(push.first, front.limit)
}

// Whether an operation ends before another one, or with it and began before it.
fn is_before(one: &Stamped, other: &Stamped) -> bool
    ensures { result ≡ next.is_before one.now other.now }
{
    !ends_by(other.last, one.last) || ends_by(one.last, other.last) && one.first < other.first
}
