//! Traces that were worked out by hand, of each form of line; and faults.
use crate::tests::comparisons::same;
use crate::tests::known_runs::{FIRST, SHUT, STOPS};
use crate::tests::trials::{Engine, does_by_any_piece, writes_nothing};
use crate::tests::written::{
    answered, changed, tells_a_fault, tells_a_writer_that_fails, text_fault,
};
use engine_faults::Fault;
use history::TextCause;
use std::test::Fail;

const FIRST_TRACE: &str = "msq trace 1
queue nonblocking
bits 24
nodes 2
limit 1
actors 2
steps 18
1 1 N1 Fresh found 1 now 1
2 1 N2 Free found 0 0 now 0 0
3 1 N5 Fresh found 1 now 2
4 1 E2 value 2 found 0 0 now 1 5
5 1 E3 next 2 found 0 0 now 0 0
6 1 E5 Tail found 1 0 now 1 0
7 1 E6 next 1 found 0 0 now 0 0
8 1 E7 Tail found 1 0 now 1 0
9 1 E9 next 1 found 0 0 now 2 1
10 1 E17 Tail found 1 0 now 2 1 reply done
11 2 D2 Head found 1 0 now 1 0
12 2 D3 Tail found 2 1 now 2 1
13 2 D4 next 1 found 2 1 now 2 1
14 2 D5 Head found 1 0 now 1 0
15 2 D12 value 2 found 1 5 now 1 5
16 2 D13 Head found 1 0 now 2 1
17 2 F1 gives reply value 1 5
18 1 N1 gives reply refused 3
";

const SHUT_TRACE: &str = "msq trace 1
queue two-lock
bits 32
nodes 2
limit 4294967295
actors 65535
steps 8
1 65535 S6 T_lock found 0 now 65535
2 65535 S7 Tail found 1 0 now 1 0
3 65535 S8 next 1 found 0 0 now closed 0
4 65535 S9 T_lock found 65535 now 0 reply done
5 1 B1 H_lock found 0 now 1
6 1 B2 Head found 1 0 now 1 0
7 1 B3 next 1 found closed 0 now closed 0
8 1 B6 H_lock found 1 now 0 reply refused 16
";

/// For each event that is refused, how many steps come before it, the beginning of the first row that isn't made, and where the actors
/// stand.
const MADE: [(&str, &str, &str); 4] = [
    ("0", "1 1 N1", ""),
    ("17", "18 1 N1", "1 at N1 Fresh holds 2\n1 alone 2\n"),
    ("15", "16 2 D13", "2 at D13 Head holds 1 0\n2 alone 4\n"),
    ("16", "17 2 F1", "2 at F1 Free holds 0 0\n"),
];

#[test]
fn tells_each_form_of_line(rt: HostRuntime) -> Result<(), Fail> {
    for (text, trace) in [(FIRST, FIRST_TRACE), (SHUT, SHUT_TRACE)] {
        does_by_any_piece(&rt, rt.alloc(), Engine::Trace, text, 0, trace)?;
    }
    Ok(())
}

#[test]
fn writes_nothing_of_a_faulty_text(rt: HostRuntime) -> Result<(), Fail> {
    let due = text_fault(16, TextCause::End);
    tells_a_fault(&rt, Engine::Trace, FIRST, ("events 9", "events 10"), due)
}

#[test]
fn tells_where_actors_stand_as_an_event_is_refused(rt: HostRuntime) -> Result<(), Fail> {
    let (head, rows) = FIRST_TRACE.split_once("steps 18\n").ok_or("the header")?;
    for ((old, new, line, refusal), (steps, next, behind)) in STOPS.iter().zip(MADE.iter()) {
        let text = changed(rt.alloc(), FIRST, *old, *new)?;
        let (answer, found) = answered(rt.alloc(), Engine::Trace, text.as_str(), 100)?;
        let due = Fault {
            refusal: *refusal,
            line: Some(*line),
        };
        same(&rt, answer, Err(due), *new);
        let (made, _) = rows.split_once(*next).ok_or("the row")?;
        let trace = format!(in rt.alloc(); "{head}steps {steps}\n{made}{behind}")?;
        same(&rt, found.as_str(), trace.as_str(), *new);
    }
    Ok(())
}

#[test]
fn writes_nothing_where_a_read_fails(rt: HostRuntime) -> Result<(), Fail> {
    writes_nothing(&rt, rt.alloc(), Engine::Trace, FIRST)
}

#[test]
fn tells_a_writer_that_stops(rt: HostRuntime) -> Result<(), Fail> {
    tells_a_writer_that_fails(&rt, Engine::Trace, FIRST)
}
