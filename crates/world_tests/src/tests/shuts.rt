//! Worked runs in which a queue is shut, besides those of examples/: `shut`, `overtaken_push` and
//! `overtaken_shut`.
use super::events::Act;
use super::events::Event::{At, Begin, Closed, Give, Head, Next, Pocket, Steps, Tail, Told};
use super::events::Telling::{Ended, Refused as NotMade, Went};
use super::expected::Answer::{self, Done, Value};
use super::expected::Call::{Deq, Enq, Shut};
use super::expected::Complete;
use super::trials::{NON_BLOCKING, Run, Sizes, TWO_LOCK, all_go_in_each_split};
use history::{Refusal, WornWord};
use line_table::{Kind, Line};
use std::test::Fail;
use step_machine::Held;

const CLOSED: Answer = Answer::Refused(Refusal::Closed);

const WORN_TAIL: Answer = Answer::Refused(Refusal::WornOut(WornWord::Tail));

/// One actor, and a count that goes no further than 1.
const WORN: Sizes = Sizes {
    kind: Kind::NonBlocking,
    nodes: 3,
    limit: 1,
    actors: 1,
};

const RUNS: [Run; 10] = [
    // Tail is worn out, and the closed end is looked at before it.
    Run {
        name: "pop_of_a_shut_queue_whose_tail_is_worn",
        sizes: WORN,
        events: &[
            Begin(1, Enq(1)),
            Steps(1, 10),
            Begin(1, Shut),
            Steps(1, 4),
            Begin(1, Deq),
            Steps(1, 9),
            Tail(2, 1),
            Begin(1, Deq),
            Steps(1, 4),
        ],
        expected: &[
            Complete(1, Enq(1), (1, 10, 9), Done),
            Complete(1, Shut, (11, 14, 14), Done),
            Complete(1, Deq, (15, 23, 20), Value(1, 1)),
            Complete(1, Deq, (24, 27, 27), CLOSED),
        ],
    },
    // The most steps of a shut that is alone: Tail lags, so it swings it first.
    Run {
        name: "shut_where_tail_lags",
        sizes: NON_BLOCKING,
        events: &[
            Begin(1, Enq(5)),
            Steps(1, 9),
            Begin(2, Shut),
            Steps(2, 3),
            Told(Act::Step(2), Went(Line::S5)),
            Steps(2, 3),
            Told(Act::Step(2), Ended(Line::S4, Done)),
            Steps(1, 1),
            Tail(2, 1),
        ],
        expected: &[
            Complete(1, Enq(5), (1, 18, 9), Done),
            Complete(2, Shut, (10, 17, 17), Done),
        ],
    },
    // A push comes between S3 and S4: the closed end isn't linked, and the shut begins anew.
    Run {
        name: "push_before_the_closed_end",
        sizes: NON_BLOCKING,
        events: &[
            Begin(1, Shut),
            Steps(1, 3),
            Begin(2, Enq(5)),
            Steps(2, 10),
            Told(Act::Step(1), Went(Line::S4)),
            At(1, Some(Line::S1)),
            Steps(1, 4),
            Next(1, 2, 1),
            Closed(2, 1),
        ],
        expected: &[
            Complete(1, Shut, (1, 18, 18), Done),
            Complete(2, Enq(5), (4, 13, 12), Done),
        ],
    },
    // Tail is swung between S2 and S3, which finds another one.
    Run {
        name: "tail_goes_on_under_a_shut",
        sizes: NON_BLOCKING,
        events: &[
            Begin(1, Enq(5)),
            Steps(1, 9),
            Begin(2, Shut),
            Steps(2, 2),
            Steps(1, 1),
            Told(Act::Step(2), Went(Line::S3)),
            At(2, Some(Line::S1)),
            Steps(2, 4),
        ],
        expected: &[
            Complete(1, Enq(5), (1, 12, 9), Done),
            Complete(2, Shut, (10, 17, 17), Done),
        ],
    },
    Run {
        name: "shut_twice",
        sizes: NON_BLOCKING,
        events: &[
            Begin(1, Shut),
            Steps(1, 4),
            Begin(2, Shut),
            Steps(2, 3),
            Begin(1, Deq),
            Steps(1, 4),
            Head(1, 0),
            Tail(1, 0),
            Closed(1, 1),
        ],
        expected: &[
            Complete(1, Shut, (1, 4, 4), Done),
            Complete(2, Shut, (5, 7, 7), CLOSED),
            Complete(1, Deq, (8, 11, 11), CLOSED),
        ],
    },
    // The two-lock queue finds it closed under the lock: S8 is lost, and so is A5.
    Run {
        name: "shut_twice_with_locks",
        sizes: TWO_LOCK,
        events: &[
            Begin(1, Shut),
            Steps(1, 4),
            Begin(2, Shut),
            Steps(2, 2),
            Told(Act::Step(2), Went(Line::S8)),
            Told(Act::Step(2), Ended(Line::S9, CLOSED)),
            Begin(1, Enq(5)),
            Steps(1, 7),
            Told(Act::Step(1), Went(Line::A5)),
            At(1, Some(Line::A7)),
            Told(Act::Step(1), Ended(Line::A7, CLOSED)),
            Begin(2, Deq),
            Steps(2, 4),
            Closed(1, 0),
        ],
        expected: &[
            Complete(1, Shut, (1, 4, 3), Done),
            Complete(2, Shut, (5, 8, 8), CLOSED),
            Complete(1, Enq(5), (9, 17, 17), CLOSED),
            Complete(2, Deq, (18, 21, 21), CLOSED),
        ],
    },
    // Tail lags for good, since its count goes no further: nothing shuts the queue.
    Run {
        name: "shut_behind_a_worn_tail",
        sizes: WORN,
        events: &[
            Begin(1, Enq(1)),
            Steps(1, 10),
            Begin(1, Enq(2)),
            Steps(1, 9),
            Tail(2, 1),
            Begin(1, Shut),
            Steps(1, 3),
        ],
        expected: &[
            Complete(1, Enq(1), (1, 10, 9), Done),
            Complete(1, Enq(2), (11, 19, 19), Done),
            Complete(1, Shut, (20, 22, 22), WORN_TAIL),
        ],
    },
    // A shut is given up at S1 alone, and leaves the pocket as it is.
    Run {
        name: "shut_given_up",
        sizes: NON_BLOCKING,
        events: &[
            Begin(1, Enq(5)),
            Steps(1, 5),
            Give(1),
            Pocket(1, Some(Held { node: 2, mark: 0 })),
            Begin(1, Shut),
            At(1, Some(Line::S1)),
            Pocket(1, Some(Held { node: 2, mark: 0 })),
            Steps(1, 1),
            Told(Act::Give(1), NotMade(Refusal::NotHere)),
            Steps(1, 3),
            Pocket(1, Some(Held { node: 2, mark: 0 })),
        ],
        expected: &[
            Complete(1, Enq(5), (1, 6, 6), Answer::Refused(Refusal::Busy)),
            Complete(1, Shut, (7, 10, 10), Done),
        ],
    },
    Run {
        name: "shut_given_up_at_the_lock",
        sizes: TWO_LOCK,
        events: &[
            Begin(1, Enq(5)),
            Steps(1, 7),
            Begin(2, Shut),
            Steps(2, 2),
            Give(2),
            Steps(1, 3),
        ],
        expected: &[
            Complete(1, Enq(5), (1, 13, 11), Done),
            Complete(2, Shut, (8, 10, 10), Answer::Refused(Refusal::Busy)),
        ],
    },
    // A pop with a full pocket gives its node back first, and then finds the queue shut.
    Run {
        name: "pop_of_a_shut_queue_with_a_full_pocket",
        sizes: NON_BLOCKING,
        events: &[
            Begin(2, Shut),
            Steps(2, 4),
            Begin(1, Enq(5)),
            Steps(1, 8),
            Pocket(1, Some(Held { node: 2, mark: 0 })),
            Begin(1, Deq),
            Steps(1, 7),
            Pocket(1, None),
        ],
        expected: &[
            Complete(2, Shut, (1, 4, 4), Done),
            Complete(1, Enq(5), (5, 12, 12), CLOSED),
            Complete(1, Deq, (13, 19, 19), CLOSED),
        ],
    },
];

#[test]
fn queues_are_shut(rt: HostRuntime) -> Result<(), Fail> {
    all_go_in_each_split(&rt, rt.alloc(), &RUNS)
}
