//! How many pushes, takes and pending pops a recorded history has by a time.
ghost use Rattle.std.specs.Prelude.{◌≡◌};
ghost use Rattle.history.specs.Tallies as tallies;
ghost use Rattle.placing.specs.Kinds as kinds;
ghost use Rattle.placing.specs.Kinds.{same_value};

use crate::operations::{ended_by, is_pending_pop, is_told, may_shut, pushes};
use history::{Stamped, Taken};

// How many pushes of a value began by a time.
pub(crate) fn pushes_begun_by(time: u64, value: &Taken, history: &[Stamped]) -> usize
    ensures { result ≡ kinds.pushes_begun_by time (same_value value.now) history.now }
{
    history
        .iter()
        .filter(|o| pushes(value, o) && o.first <= time)
        .count()
}

// How many pushes of a value began before a time.
pub(crate) fn pushes_begun_before(time: u64, value: &Taken, history: &[Stamped]) -> usize
    ensures { result ≡ kinds.pushes_begun_before time (same_value value.now) history.now }
{
    history
        .iter()
        .filter(|o| pushes(value, o) && o.first < time)
        .count()
}

// How many pushes of a value weren't refused.
pub(crate) fn pushes_of(value: &Taken, history: &[Stamped]) -> usize
    ensures { result ≡ kinds.pushes_of (same_value value.now) history.now }
{
    history.iter().filter(|o| pushes(value, o)).count()
}

// How many pops were told a value.
pub(crate) fn takes_of(value: &Taken, history: &[Stamped]) -> usize
    ensures { result ≡ kinds.takes_of (same_value value.now) history.now }
{
    history.iter().filter(|o| is_told(value, o.reply)).count()
}

// How many pops that were told a value ended by a time.
pub(crate) fn takes_ended_by(time: u64, value: &Taken, history: &[Stamped]) -> usize
    ensures { result ≡ kinds.takes_ended_by time (same_value value.now) history.now }
{
    history
        .iter()
        .filter(|o| is_told(value, o.reply) && ended_by(time, o.last))
        .count()
}

// How many pending pops began by a time.
pub(crate) fn pending_by(time: u64, history: &[Stamped]) -> usize
    ensures { result ≡ kinds.pending_by time history.now }
{
    history
        .iter()
        .filter(|o| is_pending_pop(o.op, o.reply) && o.first <= time)
        .count()
}

// How many shuts that weren't refused began by a time.
pub(crate) fn shuts_begun_by(time: u64, history: &[Stamped]) -> usize
    ensures { result ≡ kinds.shuts_begun_by time history.now }
{
    history
        .iter()
        .filter(|o| may_shut(o.reply, o.op) && o.first <= time)
        .count()
}
