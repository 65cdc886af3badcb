//! Which word the next step of an actor touches, what it expects there, and what the word holds: each line once or more.
ghost use Rattle.counted_ref.specs.Ref.{IsSplit};

use super::events::Event::{self, Begin, Holds, Idle, Steps, Touch};
use super::expected::Call::{Deq, Enq, Shut};
use super::expected::Content::{Closed, Number, Reference, Value};
use super::trials::{NON_BLOCKING, Sizes, TWO_LOCK, TrialOf};
use history::Refusal;
use line_table::Line;
use std::alloc::Global;
use std::process::Abort;
use std::test::Fail;
use step_machine::WordName::{Free, Fresh, Head, HeadLock, Next, Tail, TailLock, Value as Stored};

const NON_BLOCKING_CALLS: [Event; 53] = [
    Idle(1),
    Begin(1, Enq(5)),
    Idle(2),
    Idle(0),
    Idle(9),
    Touch(1, Line::N1, Fresh, None, Number(1)),
    Touch(1, Line::N2, Free, None, Reference(0, 0)),
    Touch(1, Line::N5, Fresh, Some(Number(1)), Number(1)),
    Touch(1, Line::E2, Stored(2), None, Value(0, 0)),
    Touch(1, Line::E3, Next(2), None, Reference(0, 0)),
    Touch(1, Line::E5, Tail, None, Reference(1, 0)),
    Touch(1, Line::E6, Next(1), None, Reference(0, 0)),
    Touch(1, Line::E7, Tail, None, Reference(1, 0)),
    Touch(1, Line::E9, Next(1), Some(Reference(0, 0)), Reference(0, 0)),
    // Tail lags, and actor 2 swings it: the last step of the push finds another one.,
    Begin(2, Deq),
    Touch(2, Line::D2, Head, None, Reference(1, 0)),
    Touch(2, Line::D3, Tail, None, Reference(1, 0)),
    Touch(2, Line::D4, Next(1), None, Reference(2, 1)),
    Touch(2, Line::D5, Head, None, Reference(1, 0)),
    Touch(2, Line::D10, Tail, Some(Reference(1, 0)), Reference(1, 0)),
    Touch(1, Line::E17, Tail, Some(Reference(1, 0)), Reference(2, 1)),
    Idle(1),
    Touch(2, Line::D2, Head, None, Reference(1, 0)),
    Touch(2, Line::D3, Tail, None, Reference(2, 1)),
    Touch(2, Line::D4, Next(1), None, Reference(2, 1)),
    Touch(2, Line::D5, Head, None, Reference(1, 0)),
    Touch(2, Line::D12, Stored(2), None, Value(1, 5)),
    Touch(2, Line::D13, Head, Some(Reference(1, 0)), Reference(1, 0)),
    Touch(2, Line::F1, Free, None, Reference(0, 0)),
    Touch(2, Line::F2, Next(1), None, Reference(2, 1)),
    Touch(2, Line::F3, Free, Some(Reference(0, 0)), Reference(0, 0)),
    Begin(1, Enq(6)),
    Touch(1, Line::N1, Fresh, None, Number(2)),
    Touch(1, Line::N2, Free, None, Reference(1, 1)),
    Touch(1, Line::N3, Next(1), None, Reference(0, 1)),
    Touch(1, Line::N4, Free, Some(Reference(1, 1)), Reference(1, 1)),
    Touch(1, Line::E2, Stored(1), None, Value(0, 0)),
    Touch(1, Line::E3, Next(1), None, Reference(0, 1)),
    Touch(1, Line::E5, Tail, None, Reference(2, 1)),
    Touch(1, Line::E6, Next(2), None, Reference(0, 0)),
    Touch(1, Line::E7, Tail, None, Reference(2, 1)),
    Touch(1, Line::E9, Next(2), Some(Reference(0, 0)), Reference(0, 0)),
    Begin(2, Enq(7)),
    Touch(2, Line::N1, Fresh, None, Number(2)),
    Touch(2, Line::N2, Free, None, Reference(0, 2)),
    Touch(2, Line::N5, Fresh, Some(Number(2)), Number(2)),
    Touch(2, Line::E2, Stored(3), None, Value(0, 0)),
    Touch(2, Line::E3, Next(3), None, Reference(0, 0)),
    Touch(2, Line::E5, Tail, None, Reference(2, 1)),
    Touch(2, Line::E6, Next(2), None, Reference(1, 1)),
    Touch(2, Line::E7, Tail, None, Reference(2, 1)),
    Touch(2, Line::E13, Tail, Some(Reference(2, 1)), Reference(2, 1)),
    Holds(Tail, Reference(1, 2)),
];

const LOCKED_CALLS: [Event; 29] = [
    Begin(1, Enq(5)),
    Touch(1, Line::N1, Fresh, None, Number(1)),
    Touch(1, Line::N2, Free, None, Reference(0, 0)),
    Touch(1, Line::N5, Fresh, Some(Number(1)), Number(1)),
    Touch(1, Line::A1, Stored(2), None, Value(0, 0)),
    Touch(1, Line::A2, Next(2), None, Reference(0, 0)),
    Touch(1, Line::A3, TailLock, Some(Number(0)), Number(0)),
    Begin(2, Enq(6)),
    Touch(2, Line::N1, Fresh, None, Number(2)),
    Touch(2, Line::N2, Free, None, Reference(0, 0)),
    Touch(2, Line::N5, Fresh, Some(Number(2)), Number(2)),
    Touch(2, Line::A1, Stored(3), None, Value(0, 0)),
    Touch(2, Line::A2, Next(3), None, Reference(0, 0)),
    // Actor 1 holds the lock.,
    Touch(2, Line::A3, TailLock, Some(Number(0)), Number(1)),
    Touch(1, Line::A4, Tail, None, Reference(1, 0)),
    Touch(1, Line::A5, Next(1), Some(Reference(0, 0)), Reference(0, 0)),
    Touch(1, Line::A6, Tail, None, Reference(1, 0)),
    Touch(1, Line::A7, TailLock, None, Number(1)),
    Begin(1, Deq),
    Touch(1, Line::B1, HeadLock, Some(Number(0)), Number(0)),
    Touch(1, Line::B2, Head, None, Reference(1, 0)),
    Touch(1, Line::B3, Next(1), None, Reference(2, 0)),
    Touch(1, Line::B4, Stored(2), None, Value(1, 5)),
    Touch(1, Line::B5, Head, None, Reference(1, 0)),
    Touch(1, Line::B6, HeadLock, None, Number(1)),
    Touch(1, Line::F1, Free, None, Reference(0, 0)),
    Touch(1, Line::F2, Next(1), None, Reference(2, 0)),
    Touch(1, Line::F3, Free, Some(Reference(0, 0)), Reference(0, 0)),
    Holds(Head, Reference(2, 1)),
];

const NON_BLOCKING_SHUT: [Event; 12] = [
    Begin(1, Enq(5)),
    Steps(1, 9),
    Begin(2, Shut),
    Touch(2, Line::S1, Tail, None, Reference(1, 0)),
    Touch(2, Line::S2, Next(1), None, Reference(2, 1)),
    Touch(2, Line::S3, Tail, None, Reference(1, 0)),
    Touch(2, Line::S5, Tail, Some(Reference(1, 0)), Reference(1, 0)),
    Touch(2, Line::S1, Tail, None, Reference(2, 1)),
    Touch(2, Line::S2, Next(2), None, Reference(0, 0)),
    Touch(2, Line::S3, Tail, None, Reference(2, 1)),
    Touch(2, Line::S4, Next(2), Some(Reference(0, 0)), Reference(0, 0)),
    Holds(Next(2), Closed(1)),
];

const LOCKED_SHUT: [Event; 9] = [
    Begin(1, Shut),
    Touch(1, Line::S6, TailLock, Some(Number(0)), Number(0)),
    Touch(1, Line::S7, Tail, None, Reference(1, 0)),
    Touch(1, Line::S8, Next(1), Some(Reference(0, 0)), Reference(0, 0)),
    Touch(1, Line::S9, TailLock, None, Number(1)),
    Begin(2, Enq(5)),
    Steps(2, 7),
    // It finds the queue closed.,
    Touch(2, Line::A5, Next(1), Some(Reference(0, 0)), Closed(0)),
    Touch(2, Line::A7, TailLock, None, Number(2)),
];

const TOUCHES: [(&str, Sizes, &[Event]); 4] = [
    ("non-blocking", NON_BLOCKING, &NON_BLOCKING_CALLS),
    ("two-lock", TWO_LOCK, &LOCKED_CALLS),
    ("non-blocking, shut", NON_BLOCKING, &NON_BLOCKING_SHUT),
    ("two-lock, shut", TWO_LOCK, &LOCKED_SHUT),
];

fn worlds_touch<const B: u32>(rt: &impl Abort, alloc: Global) -> Result<(), Refusal>
    requires split { IsSplit B }
{
    for (name, sizes, events) in &TOUCHES {
        TrialOf::<B>::new(alloc, name, *sizes)?.goes(rt, events);
    }
    Ok(())
}

/// Each step touches the word of its line, and a compare-exchange expects there what its actor read before, also where it is lost.
#[test]
fn steps_touch_the_words_of_their_lines(rt: HostRuntime) -> Result<(), Fail> {
    worlds_touch::<16>(&rt, rt.alloc())?;
    worlds_touch::<24>(&rt, rt.alloc())?;
    worlds_touch::<32>(&rt, rt.alloc())?;
    Ok(())
}
