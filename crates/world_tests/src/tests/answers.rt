//! What the calls answer.
use super::events::Act::{Begin, Give};
use super::events::Event::{
    self, At, Free, Fresh, Head, Next, Pocket, Steps, Tail, Taken, Told, Value,
};
use super::events::Telling::{Began, Ended, Refused};
use super::expected::Answer;
use super::expected::Call::{Deq, Enq};
use super::trials::{NON_BLOCKING, Sizes, Trial};
use history::Refusal;
use line_table::Line;
use std::test::Fail;

const NEW: [Event; 9] = [
    Taken(0),
    Fresh(1),
    Free(0, 0),
    Head(1, 0),
    Tail(1, 0),
    Next(1, 0, 0),
    Next(3, 0, 0),
    At(2, None),
    Pocket(2, None),
];

const PUSHED: [Event; 5] = [
    Value(2, 0, 0),
    Event::Begin(1, Enq(5)),
    At(1, Some(Line::N1)),
    // N1, N2, N5 and E2.
    Steps(1, 4),
    Value(2, 1, 5),
];

const GIVEN_UP: [Event; 8] = [
    Told(Begin(1, Deq), Began),
    Told(Give(1), Ended(Line::D2, Answer::Refused(Refusal::Busy))),
    Told(Give(1), Refused(Refusal::IdleActor)),
    // A dequeue that took a value, and frees its node.
    Event::Begin(2, Enq(5)),
    Steps(2, 10),
    Event::Begin(1, Deq),
    Steps(1, 6),
    Told(Give(1), Ended(Line::F1, Answer::Value(2, 5))),
];

const ANSWERS: [(&str, Sizes, &[Event]); 3] = [
    ("a new world answers each query", NON_BLOCKING, &NEW),
    ("a pushed value stands in its node", NON_BLOCKING, &PUSHED),
    ("giving up says at which line", NON_BLOCKING, &GIVEN_UP),
];

#[test]
fn calls_answer_as_they_say(rt: HostRuntime) -> Result<(), Fail> {
    for (name, sizes, events) in &ANSWERS {
        Trial::new(rt.alloc(), name, *sizes)?.goes(&rt, events);
    }
    Ok(())
}
