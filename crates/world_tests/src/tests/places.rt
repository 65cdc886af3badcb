//! Where the nodes of a world are.
use super::events::Event::{self, Begin, Give, Placed, Steps};
use super::expected::Call::{Deq, Enq};
use super::trials::{NON_BLOCKING, Sizes, TWO_LOCK, Trial};
use std::test::Fail;
use step_machine::Place::{self, Free, Held, Queue, SetAside, Untouched};

const LIMIT_1: Sizes = Sizes {
    limit: 1,
    ..NON_BLOCKING
};

/// After each event, the place of each node.
const PLACES: [(Event, [Place; 3]); 9] = [
    (Begin(1, Enq(1)), [Queue, Untouched, Untouched]),
    // N5.
    (Steps(1, 3), [Queue, Held, Untouched]),
    // E9.
    (Steps(1, 6), [Queue, Queue, Untouched]),
    (Steps(1, 1), [Queue, Queue, Untouched]),
    (Begin(1, Deq), [Queue, Queue, Untouched]),
    // D13, and then into the pocket.
    (Steps(1, 6), [Held, Queue, Untouched]),
    (Give(1), [Held, Queue, Untouched]),
    (Begin(1, Enq(2)), [Held, Queue, Untouched]),
    // E3.
    (Steps(1, 2), [SetAside, Queue, Untouched]),
];

/// A node goes through every place: it is used, linked, taken out, kept, and set aside as its count is the greatest.
#[test]
fn nodes_change_their_places(rt: HostRuntime) -> Result<(), Fail> {
    let mut trial = Trial::new(rt.alloc(), "", LIMIT_1)?;
    for (event, [first, second, third]) in &PLACES {
        let placed = [Placed(1, *first), Placed(2, *second), Placed(3, *third)];
        trial.goes(&rt, &[*event]);
        trial.goes(&rt, &placed);
    }
    Ok(())
}

const FREED: [Event; 7] = [
    Begin(1, Enq(5)),
    Steps(1, 10),
    Begin(2, Deq),
    Steps(2, 9),
    Placed(1, Free),
    Placed(2, Queue),
    Placed(3, Untouched),
];

#[test]
fn freed_nodes_are_free(rt: HostRuntime) -> Result<(), Fail> {
    for (name, sizes) in &[("two-lock", TWO_LOCK), ("non-blocking", NON_BLOCKING)] {
        Trial::new(rt.alloc(), name, *sizes)?.goes(&rt, &FREED);
    }
    Ok(())
}
