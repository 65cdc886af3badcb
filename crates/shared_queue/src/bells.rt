//! What calls sleep on, and who listens.
ghost use Rattle.std.specs.Prelude.{◌≡◌};
ghost use Rattle.history.specs.declared.refusals.Refusal.TheVariants.{NoNode};
ghost use Rattle.carriers.specs.Answers.{EndsByTryOf, SeesMoreOf};
ghost use Rattle.shared_queue.specs.Waits.{EmptySinceOf};
ghost use Rattle.shared_queue.specs.Hearings.{seat_heard};
ghost use Rattle.shared_queue.specs.Queues.{queue_of};
ghost use Rattle.shared_queue.specs.Unshuts.{seat_unshut};

use crate::deadlines::{Deadline, park};
use crate::queue::SharedQueue;
use crate::shuts::Unshut;
use calls::{Access, Bell, Seen, Task};
use carriers::Carrier;
use std::snapshot::Snapshot;
use std::sync::Wait;
use std::sync::atomic::AtomicU64;
use std::sync::atomic::Ordering::SeqCst;

/// The words of a bell: how often it rang, and how many listen to it.
#[derive(Drop)]
pub(crate) struct Words {
    pub(crate) rings: AtomicU64,
    pub(crate) listeners: AtomicU64,
}

/// Both bells of a queue.
#[derive(Drop)]
pub(crate) struct Bells {
    values: Words,
    room: Words,
}

/// How often a bell had rung as a call heard it, and what the call's seat was then.
#[derive(Drop)]
pub(crate) struct Heard<S> {
    rings: u64,
    pub(crate) at: Snapshot<S>,
}

impl Words {
    pub(crate) const fn new() -> Words {
        Words {
            rings: AtomicU64::new(0),
            listeners: AtomicU64::new(0),
        }
    }

    /// How often the bell rang by now.
    pub(crate) fn hear<S>(&self, seat: &S) -> Heard<S>
        ensures { seat_heard result ≡ seat.now }
    {
        Heard {
            rings: self.rings.load(SeqCst),
            at: Snapshot::of(seat),
        }
    }

    // Sleeps until it rings, unless it has rung since it was heard, or until the deadline.
    fn sleep<R: Wait, D: Deadline>(&self, rt: &R, heard: u64, until: &D) {
        for _ in rt.forever() {
            if self.rings.load(SeqCst) != heard || until.is_past() {
                break;
            }
            park(rt, &self.rings, (heard & 0xffff_ffff) as u32, until);
        }
    }
}

impl Bells {
    pub(crate) const fn new() -> Bells {
        Bells {
            values: Words::new(),
            room: Words::new(),
        }
    }

    /// The words of this bell.
    pub(crate) fn of(&self, bell: Bell) -> &Words {
        match bell {
            Bell::Values => &self.values,
            Bell::Room => &self.room,
        }
    }

    /// The words of the bell for which a call sleeps.
    pub(crate) fn awaited(&self, task: Task) -> &Words {
        match task {
            Task::Push => &self.room,
            _ => &self.values,
        }
    }

    /// Makes an access to a bell that keeps nothing of what it saw.
    pub(crate) fn touch(&self, access: Access) -> Seen {
        match access {
            Access::Count(bell) => {
                self.of(bell).listeners.fetch_add(1, SeqCst);
            }
            Access::Uncount(bell) => {
                self.of(bell).listeners.fetch_sub(1, SeqCst);
            }
            Access::Ring(bell) => {
                self.of(bell).rings.fetch_add(1, SeqCst);
            }
            Access::Listeners(bell) => {
                if self.of(bell).listeners.load(SeqCst) == 0 {
                    return Seen::Nothing;
                }
            }
            _ => {}
        }
        Seen::Got
    }
}

impl<C: Carrier> SharedQueue<C> {
    /// Sleeps until there is a value, or the deadline. The seat has found the queue empty since its call heard the bell.
    pub(crate) fn sleep_empty<R: Wait, D: Deadline>(
        &self,
        rt: &R,
        seat: &C::Seat,
        heard: &Heard<C::Seat>,
        until: &D,
    )
        requires looked { EmptySinceOf (C.known (seat_heard heard.now)) (C.known seat.now) }
    {
        self.bells.values.sleep(rt, heard.rings, until);
    }

    /// Sleeps until there is room, or the deadline. Since its call heard the bell the seat has looked for a shut, and has then
    /// had a push refused for want of a node.
    pub(crate) fn sleep_full<R: Wait, D: Deadline>(
        &self,
        rt: &R,
        seat: &C::Seat,
        heard: &Heard<C::Seat>,
        unshut: Unshut<C::Seat>,
        until: &D,
    )
        requires unshut { SeesMoreOf (C.known (seat_heard heard.now))
            (C.known (seat_unshut unshut)) }
        requires looked { EndsByTryOf C.is_seat C.known C.push_cause (queue_of self.now)
            (seat_unshut unshut) seat.now 8 NoNode }
    {
        self.bells.room.sleep(rt, heard.rings, until);
    }
}
