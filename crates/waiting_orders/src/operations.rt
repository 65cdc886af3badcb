//! Operations that are left in a search.
ghost use Rattle.std.specs.Prelude.{◌≡◌};
ghost use Rattle.history.specs.History as history_rule;
ghost use Rattle.waiting_orders.specs.Lines as lines;
ghost use Rattle.waiting_orders.specs.Nodes as next;
ghost use Rattle.waiting_orders.specs.Waiting as rule;

use history::{Op, Refusal, Reply, Stamped, Taken};

/// Whether an operation is a push that may have had its effect.
pub(crate) fn waits(operation: &Stamped) -> bool
    ensures { result ≡ rule.waits operation.now }
{
    match operation.op {
        Op::Enq(_) => may_be_done(operation.reply),
        Op::Deq | Op::Shut => false,
    }
}

fn may_be_done(reply: Option<Reply>) -> bool
    ensures { result ≡ rule.may_be_done reply }
{
    match reply {
        None | Some(Reply::Done) => true,
        Some(Reply::Value(_)) | Some(Reply::Empty) | Some(Reply::Refused(_)) => false,
    }
}

/// Whether an operation with this last number had not ended before a number.
pub(crate) fn is_open_at(time: u64, last: Option<u64>) -> bool
    ensures { result ≡ rule.is_open_at time last }
{
    match last {
        None => true,
        Some(last) => time <= last,
    }
}

/// The sooner one of two numbers, of which either may be missing.
pub(crate) fn sooner(one: Option<u64>, other: Option<u64>) -> Option<u64>
    ensures { result ≡ rule.sooner one other }
{
    match (one, other) {
        (None, _) => other,
        (Some(_), None) => one,
        (Some(a), Some(b)) => if a <= b { one } else { other },
    }
}

/// Whether a call pushes a value.
fn pushes_value(value: &Taken, actor: u16, op: Op) -> bool
    ensures { result ≡ rule.pushes_value value.now actor op }
{
    match op {
        Op::Enq(body) => actor == value.from && body.number() == value.body.number(),
        Op::Deq | Op::Shut => false,
    }
}

/// Whether a refusal is that the queue is shut.
pub(crate) fn is_closed(refusal: Refusal) -> bool
    ensures { result ≡ history_rule.is_closed refusal }
{
    match refusal {
        Refusal::Closed => true,
        _ => false,
    }
}

/// Whether a refusal is one that leaves the queue as it is.
pub(crate) fn leaves(refusal: Refusal) -> bool
    ensures { result ≡ history_rule.leaves refusal }
{
    match refusal {
        Refusal::NoNode | Refusal::WornOut(_) | Refusal::Busy => true,
        _ => false,
    }
}

/// Whether an operation pushes a value.
pub(crate) fn fits(value: &Taken, operation: &Stamped) -> bool
    ensures { result ≡ rule.fits value.now operation.now }
{
    pushes_value(value, operation.actor, operation.op)
}

/// Whether one number is there and no later than another one that is there.
pub(crate) fn is_by(last: Option<u64>, limit: Option<u64>) -> bool
    ensures { result ≡ next.is_by last limit }
{
    match (last, limit) {
        (None, _) | (Some(_), None) => false,
        (Some(last), Some(limit)) => last <= limit,
    }
}

/// Whether a last number is no later than another one; none, of what never ended, is later than any.
pub(crate) fn ends_by(last: Option<u64>, later: Option<u64>) -> bool
    ensures { result ≡ lines.ends_by last later }
{
    match (last, later) {
        (_, None) => true,
        (None, Some(_)) => false,
        (Some(last), Some(later)) => last <= later,
    }
}
