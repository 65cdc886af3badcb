//! The steps of calls, over the words of their queue.
ghost use Rattle.std.specs.Prelude.{◌≡◌, ◌⊎◌, IsTrue, IfSome, OnSome, None};
ghost use Rattle.shared_queue.specs.Hearings.{seat_heard};
ghost use Rattle.shared_queue.specs.Lates.{seat_then};
ghost use Rattle.shared_queue.specs.Steps.{seen_of};

use crate::bells::{Bells, Heard};
use crate::deadlines::{Deadline, Late, is_over};
use calls::{Access, Act, Call, Code, Phase, Seen, Task, access, advance, start};
use history::Refusal;

/// How many steps a call makes at most after its last look: it is counted no more, and sees who listens and rings at each bell.
const LAST_STEPS: u32 = 8;

/// A call that may wait, with what it heard.
#[derive(Drop)]
pub(crate) struct Waiting<S> {
    pub(crate) call: Call,
    pub(crate) heard: Option<Heard<S>>,
}

impl<S> Waiting<S> {
    pub(crate) fn new(task: Task) -> Waiting<S>
        ensures { result.heard ≡ None }
    {
        Waiting {
            call: start(task, false),
            heard: None,
        }
    }

    /// Whether it looks next.
    pub(crate) fn looks(&self) -> bool {
        matches!(access(&self.call), Access::Look(_))
    }
}

/// What a look sees whose try is refused so.
pub(crate) fn refused(refusal: &Refusal) -> Seen
    ensures { result ≡ seen_of refusal.now }
{
    match refusal {
        Refusal::NoNode => Seen::Nothing,
        Refusal::WornOut(_) => Seen::Ended(Code::Worn),
        Refusal::Closed => Seen::Ended(Code::Closed),
        _ => Seen::Busy,
    }
}

impl Bells {
    /// A step of a call that waits, other than a look: it listens, or hears, or slept. Tells whether its time is over, where it
    /// slept.
    pub(crate) fn step_aside<S, D: Deadline>(
        &self,
        seat: &S,
        waiting: &mut Waiting<S>,
        until: &D,
    ) -> Option<Late<S>>
        ensures heard { (waiting.new.heard ≡ waiting.old.heard)
            ⊎ IfSome waiting.new.heard (λ h. seat_heard h ≡ seat.now) }
        ensures late { IfSome result (λ l. seat_then l ≡ seat.now) }
        ensures comes { OnSome result (IsTrue (D.comes until.now)) }
    {
        let seen = self.touch(access(&waiting.call));
        match waiting.call.phase {
            Phase::Slept => {
                let late = is_over(until, seat);
                advance(&mut waiting.call, seen, late.is_some());
                late
            }
            Phase::Hears => {
                waiting.heard = Some(self.awaited(waiting.call.task).hear(seat));
                advance(&mut waiting.call, seen, false);
                None
            }
            _ => {
                advance(&mut waiting.call, seen, false);
                None
            }
        }
    }

    /// The last look of a call saw this. The call goes on until it tells: it rings for what it gave, or hands on what it may
    /// have been woken for.
    pub(crate) fn leave(&self, mut call: Call, seen: Seen) {
        let past = call.tries;
        let mut act = advance(&mut call, seen, past);
        for _ in 0..LAST_STEPS {
            match act {
                Act::Tell(_) => return,
                Act::WakeOne(bell) => self.of(bell).rings.wake_one(),
                Act::WakeAll(bell) => self.of(bell).rings.wake_all(),
                _ => {}
            }
            let seen = self.touch(access(&call));
            act = advance(&mut call, seen, past);
        }
    }

    /// A try of the queue's that never waits saw this.
    pub(crate) fn tried(&self, task: Task, seen: Seen) {
        self.leave(start(task, true), seen);
    }
}
