//! The two sides of a channel.
ghost use Rattle.std.specs.Prelude.{◌≡◌};
ghost use Rattle.shared_queue.specs.Closers.{closer_seat};

use crate::closers::{Closer, Shuts};
use carriers::Carrier;
use std::snapshot::Snapshot;
use std::sync::Mutex;

/// One side of a channel: its senders, or its receivers. Each of them has a share of it, and the last one that is dropped
/// drops it; then it shuts the queue, by a seat of its own.
///
/// That seat lies behind a lock that nobody takes: threads share a side, and a seat may go to a thread, but not be shared.
pub struct Side<C: Carrier + Drop> {
    closer: Mutex<Closer<C>>,
    pub(crate) given: Snapshot<C::Seat>,
}

impl<C: Carrier + Drop> Side<C> {
    ghost use Rattle.shared_queue.specs.Handles.{side_seat};

    // The side that this closer ends.
    pub(crate) fn new(closer: Closer<C>) -> Side<C>
        ensures { side_seat result ≡ closer_seat closer }
    {
        Side {
            given: Snapshot::of(&closer.seat),
            closer: Mutex::new(closer),
        }
    }

    // Ends the side without a shut.
    pub(crate) fn leave(self) {
        let Side { closer, given: _ } = self;
        let _ = closer.into_inner().leave();
    }
}

impl<C: Carrier + Drop> Drop for Side<C> {
    fn drop(self) {
        let Self { closer, given: _ } = self;
        let _ = closer.into_inner().shut();
    }
}
