//! When a call stops waiting.
ghost use Rattle.std.specs.Prelude.{◌≡◌, IsTrue, Bool, true, false, IfSome, OnSome};
ghost use Rattle.shared_queue.specs.Lates.{seat_then};

use std::snapshot::Snapshot;
use std::sync::Wait;
use std::sync::atomic::AtomicU64;
use std::time::{Clock, Duration, Instant};

/// That a call's time was over, and what its seat was then. Only a look at the clock makes one.
#[derive(Drop)]
pub struct Late<S> {
    pub(crate) at: Snapshot<S>,
}

/// What a call that waits up to some time answers.
#[derive(Drop)]
pub enum InTime<T, L> {
    /// It was done.
    Done(T),
    /// It wasn't, by a last try after its time.
    Late(L),
}

/// A value that wasn't pushed in time, and that the time was over.
#[derive(Drop)]
pub struct Unsent<T, S> {
    pub late: Late<S>,
    pub value: T,
}

/// When a call stops waiting: once a time is over, or something else is so. Who lets that become so otherwise than by time
/// then calls `wake_all`, since a call that sleeps looks only where it is woken, or the time is over that `left` tells.
pub trait Deadline {
    // It comes at all.
    ghost comes: { Self → Bool };

    /// Whether it has come.
    fn is_past(&self) -> bool
        ensures { IsTrue result → IsTrue (comes self.now) };

    /// How long a sleep may be; none where that is as long as it takes.
    fn left(&self) -> Option<Duration>;
}

/// The call waits as long as it takes.
pub(crate) struct Never;

impl Deadline for Never {
    ghost comes = { λ d. false };

    fn is_past(&self) -> bool {
        false
    }

    fn left(&self) -> Option<Duration> {
        None
    }
}

/// The call waits until then; for as long as it takes where no instant is so late. A clock that can't be read ends the wait.
#[derive(Drop)]
pub(crate) struct At<'a, C: Clock> {
    clock: &'a C,
    when: Result<Option<Instant>, ()>,
}

impl<'a, C: Clock> At<'a, C> {
    pub(crate) fn instant(clock: &'a C, when: Instant) -> At<'a, C> {
        At {
            clock,
            when: Ok(Some(when)),
        }
    }

    pub(crate) fn after(clock: &'a C, timeout: Duration) -> At<'a, C> {
        let when = match Instant::now(clock) {
            Ok(now) => Ok(now.checked_add(timeout)),
            Err(_) => Err(()),
        };
        At { clock, when }
    }
}

impl<'a, C: Clock> Deadline for At<'a, C> {
    ghost comes = { λ d. true };

    fn is_past(&self) -> bool {
        match (self.when, Instant::now(self.clock)) {
            (Ok(Some(when)), Ok(now)) => now >= when,
            (Ok(None), Ok(_)) => false,
            _ => true,
        }
    }

    fn left(&self) -> Option<Duration> {
        match (self.when, Instant::now(self.clock)) {
            (Ok(Some(when)), Ok(now)) => Some(when.saturating_duration_since(now)),
            (Ok(None), Ok(_)) => None,
            _ => Some(Duration::ZERO),
        }
    }
}

/// That the time of this seat's call is over; none where it isn't.
pub(crate) fn is_over<S, D: Deadline>(until: &D, seat: &S) -> Option<Late<S>>
    ensures seat { IfSome result (λ l. seat_then l ≡ seat.now) }
    ensures comes { OnSome result (IsTrue (D.comes until.now)) }
{
    if until.is_past() {
        return Some(Late {
            at: Snapshot::of(seat),
        });
    }
    None
}

/// Sleeps while the low 32 bits of the word are these, until a wake or the deadline; it may end for no reason.
pub(crate) fn park<R: Wait, D: Deadline>(rt: &R, word: &AtomicU64, seen: u32, until: &D) {
    match until.left() {
        Some(left) => word.park_timeout(rt, seen, left),
        None => word.park(rt, seen),
    }
}
