//! How senders and their receiver end, and what they tell each other of it.
ghost use Rattle.std.specs.Prelude.{◌≡◌, Bool, true, Some, None, IfSome};
ghost use Rattle.mailbox.specs.Refusals.{EndsDue, may_end};

use history::Refusal;
use shared_queue::Deadline;
use std::sync::atomic::{AtomicBool, AtomicUsize, Ordering};
use std::time::Duration;

/// The refusal at which a sender ended, where it was refused.
#[derive(Clone, Copy, Debug)]
pub(crate) struct Ended {
    refusal: Option<Refusal>,
    ghost by_send: { may_end refusal ≡ true },
}

impl Ended {
    /// Its texts were all sent.
    pub(crate) fn well() -> Ended
        ensures { result.refusal ≡ None }
    {
        Ended { refusal: None }
    }

    /// A waiting send was refused.
    pub(crate) fn refused(refusal: Refusal) -> Ended
        requires { EndsDue refusal }
        ensures { result.refusal ≡ Some refusal }
    {
        Ended {
            refusal: Some(refusal),
        }
    }

    /// Its refusal, where it was refused.
    pub(crate) fn refusal(self) -> Option<Refusal>
        ensures same { result ≡ self.refusal }
        ensures refusal { IfSome result EndsDue }
    {
        self.refusal
    }
}

/// How many senders there are, how many of them have ended, which one has no thread, and whether one was refused, or the receiver
/// has ended.
#[derive(Drop)]
pub(crate) struct EndCounter {
    senders: usize,
    ended: AtomicUsize,
    left_out: AtomicUsize,
    given_up: AtomicBool,
}

impl EndCounter {
    /// So many senders, none of which has ended or is left out, and a receiver that hasn't ended either.
    pub(crate) fn new(senders: usize) -> EndCounter {
        EndCounter {
            senders,
            ended: AtomicUsize::new(0),
            left_out: AtomicUsize::new(usize::MAX),
            given_up: AtomicBool::new(false),
        }
    }

    /// Counts one more sender as ended; whether it is the last one.
    pub(crate) fn ends_last(&self) -> bool {
        self.ended.fetch_add(1, Ordering::SeqCst).wrapping_add(1) == self.senders
    }

    /// No thread can be made for the sender of the task of this number.
    pub(crate) fn leave_out(&self, task: usize) {
        self.left_out.store(task, Ordering::SeqCst);
    }

    /// Whether no thread can be made for the sender of the task of this number.
    pub(crate) fn is_left_out(&self, task: usize) -> bool {
        self.left_out.load(Ordering::SeqCst) == task
    }

    /// A sender was refused, or the receiver has ended.
    pub(crate) fn give_up(&self) {
        self.given_up.store(true, Ordering::SeqCst);
    }
}

/// That all senders have ended, which ends the wait for a letter.
#[derive(Drop)]
pub(crate) struct AllEnded<'a> {
    pub(crate) counter: &'a EndCounter,
}

impl<'a> Deadline for AllEnded<'a> {
    ghost comes = { λ d. true };

    fn is_past(&self) -> bool {
        self.counter.ended.load(Ordering::SeqCst) >= self.counter.senders
    }

    fn left(&self) -> Option<Duration> {
        None
    }
}

/// That a sender was refused, which may have kept a node, or the receiver has ended, which ends the wait for a node.
#[derive(Drop)]
pub(crate) struct GivenUp<'a> {
    pub(crate) counter: &'a EndCounter,
}

impl<'a> Deadline for GivenUp<'a> {
    ghost comes = { λ d. true };

    fn is_past(&self) -> bool {
        self.counter.given_up.load(Ordering::SeqCst)
    }

    fn left(&self) -> Option<Duration> {
        None
    }
}
