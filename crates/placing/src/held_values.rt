//! Whether some values stay in the queue from one time to another, whatever the order.
ghost use Rattle.std.specs.Prelude.{◌≡◌, ◌≤◌, IsTrue, All};
ghost use Rattle.placing.specs.Seen.{IsKnown};
ghost use Rattle.placing.specs.Reasons.{IsTakenLater, IsLeft, RisesFrom, AreLeft, IsHeld};

use crate::answers::Held;
use crate::counts::pending_by;
use crate::known::Known;
use crate::operations::{at, ended_before, is_told, pushed};
use history::Stamped;

// Whether these values are in the queue throughout this span.
pub(crate) fn is_held(
    history: &[Stamped],
    known: &Known,
    from: u64,
    until: u64,
    held: &Held,
) -> bool
    requires { IsKnown history.now known.now }
    ensures { IsTrue result → IsHeld history.now from until held.now }
{
    match held {
        Held::Value { push, take } => is_taken_later(history, known, from, until, *push, *take),
        Held::Left(places) => are_left(history, known, from, until, places),
    }
}

// Whether a value's one push ended before a time, and a take of it began after another.
fn is_taken_later(
    history: &[Stamped],
    known: &Known,
    from: u64,
    until: u64,
    push: u64,
    take: u64,
) -> bool
    requires { IsKnown history.now known.now }
    ensures { IsTrue result → IsTakenLater history.now from until push take }
{
    let Some(pushing) = at(history, push) else {
        return false;
    };
    let Some(taking) = at(history, take) else {
        return false;
    };
    let Some(value) = pushed(pushing) else {
        return false;
    };
    ended_before(from, pushing.last)
        && is_told(&value, taking.reply)
        && until < taking.first
        && known.is_pushed_once(&value)
}

// Whether pushes of values that no pop was told ended before a time, and are more than the pending pops that began
// by another.
pub(crate) fn are_left(
    history: &[Stamped],
    known: &Known,
    from: u64,
    until: u64,
    places: &Vec<u64>,
) -> bool
    requires { IsKnown history.now known.now }
    ensures { IsTrue result → AreLeft history.now from until places.now.items }
{
    rise(places)
        && all_left(history, known, from, places)
        && pending_by(until, history) < places.len()
}

// Whether each place is greater than the one before.
fn rise(places: &[u64]) -> bool
    ensures { IsTrue result → RisesFrom 0 places.now }
{
    let mut least = 0;
    for place in places {
        if *place <= least {
            return false;
        }
        least = *place;
    }
    true
}

fn all_left(history: &[Stamped], known: &Known, time: u64, places: &[u64]) -> bool
    requires { IsKnown history.now known.now }
    ensures { IsTrue result → All (IsLeft history.now time) places.now }
{
    places
        .iter()
        .all(|place| is_left(history, known, time, *place))
}

// Whether the operation at a place pushes a value that no pop was told, and ended before a time.
fn is_left(history: &[Stamped], known: &Known, time: u64, place: u64) -> bool
    requires { IsKnown history.now known.now }
    ensures { IsTrue result → IsLeft history.now time place }
{
    let Some(operation) = at(history, place) else {
        return false;
    };
    let Some(value) = pushed(operation) else {
        return false;
    };
    ended_before(time, operation.last) && known.is_left(&value)
}
