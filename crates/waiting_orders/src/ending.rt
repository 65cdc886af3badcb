//! What is left of a value, and ends before a number.
ghost use Rattle.std.specs.Prelude.{◌≡◌, true, drop, slice_get};
ghost use Rattle.std.specs.List.{AllByRecursion};
ghost use Rattle.waiting_orders.specs.Alone as alone_rule;
ghost use Rattle.waiting_orders.specs.Lines as lines;
ghost use Rattle.waiting_orders.specs.Nodes as next;

use crate::lines::{Rest, begins_past_at, operation_at, place_at};
use crate::operations::{ends_by, fits};
use history::{Reply, Stamped, Taken};

impl Rest {
    /// Whether nothing that is left, of what pushes a value or was told it, ends before a number.
    pub(crate) fn none_sooner(
        &self,
        operations: &[Stamped],
        value: &Taken,
        last: Option<u64>,
    ) -> bool
        requires { lines.IsRising operations.now }
        ensures { result ≡ true → AllByRecursion (alone_rule.EndsLater value.now last)
            (lines.left_of operations.now (lines.view_left self.now)) }
    {
        self.none_kept_sooner(operations, value, last)
            && self.none_later_sooner(operations, value, last)
    }

    fn none_kept_sooner(&self, operations: &[Stamped], value: &Taken, last: Option<u64>) -> bool
        ensures { result ≡ true → AllByRecursion (alone_rule.EndsLater value.now last)
            (lines.picked operations.now self.now.kept.items) }
    {
        for at in 0..self.kept.len() {
            if self.kept_sooner_at(operations, at, value, last) {
                return false;
            }
        }
        true
    }

    fn kept_sooner_at(
        &self,
        operations: &[Stamped],
        at: usize,
        value: &Taken,
        last: Option<u64>,
    ) -> bool
        ensures { result ≡ alone_rule.sooner_at value.now last
            (lines.stands operations.now (slice_get self.now.kept.items at)) }
    {
        match place_at(&self.kept, at) {
            Some(place) => sooner_at(operations, place, value, last),
            None => false,
        }
    }

    fn none_later_sooner(&self, operations: &[Stamped], value: &Taken, last: Option<u64>) -> bool
        requires { lines.IsRising operations.now }
        ensures { result ≡ true → AllByRecursion (alone_rule.EndsLater value.now last)
            (drop self.now.from operations.now) }
    {
        if operations.len() < self.from {
            return true;
        }
        none_sooner(&operations[self.from..], value, last)
    }
}

fn sooner_at(operations: &[Stamped], place: usize, value: &Taken, last: Option<u64>) -> bool
    ensures { result ≡ alone_rule.sooner_at value.now last (slice_get operations.now place) }
{
    match operation_at(operations, place) {
        Some(operation) => ends_sooner(value, last, &operation),
        None => false,
    }
}

// Whether nothing of operations by rising first numbers ends before a number, of what pushes a value or was told it: those that
// begin past the number don't.
fn none_sooner(operations: &[Stamped], value: &Taken, last: Option<u64>) -> bool
    requires { lines.IsRising operations.now }
    ensures { result ≡ true
        → AllByRecursion (alone_rule.EndsLater value.now last) operations.now }
{
    for place in 0..operations.len() {
        if begins_past_at(operations, place, last) {
            return true;
        }
        if sooner_at(operations, place, value, last) {
            return false;
        }
    }
    true
}

// Whether an operation pushes a value, or was told it, and ends before a number.
fn ends_sooner(value: &Taken, last: Option<u64>, operation: &Stamped) -> bool
    ensures { result ≡ alone_rule.ends_sooner value.now last operation.now }
{
    is_of(value, operation) && !ends_by(last, operation.last)
}

fn is_of(value: &Taken, operation: &Stamped) -> bool
    ensures { result ≡ alone_rule.is_of value.now operation.now }
{
    is_told(value, operation.reply) || fits(value, operation)
}

/// Whether a reply is a value.
pub(crate) fn is_told(value: &Taken, reply: Option<Reply>) -> bool
    ensures { result ≡ next.is_told value.now reply }
{
    match reply {
        Some(Reply::Value(told)) => {
            told.from == value.from && told.body.number() == value.body.number()
        }
        None | Some(Reply::Done) | Some(Reply::Empty) | Some(Reply::Refused(_)) => false,
    }
}
