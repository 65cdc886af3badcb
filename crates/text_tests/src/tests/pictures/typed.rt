//! Pictures that were worked out by hand, of each form of row; what a view leaves out; and faults.
use crate::tests::comparisons::same;
use crate::tests::known_runs::{FIRST, SHUT, STOPS};
use crate::tests::pictures::WHOLE;
use crate::tests::pictures::meanings::{LEGEND_PICTURE, MEANINGS};
use crate::tests::trials::{Engine, does_by_any_piece, writes_nothing};
use crate::tests::written::{
    answered, changed, tells_a_fault, tells_a_writer_that_fails, text_fault,
};
use engine_faults::Fault;
use history::{Refusal, TextCause};
use show_engine::View;
use std::test::Fail;

const FIRST_PICTURE: &str = "queue nonblocking, bits 24, nodes 2, limit 1, actors 2
 actor  1           2
        enq 5
     1  N1 Fresh 1                                | Head >1, Free -
     2  N2 Free <0,0>
     3  N5 Fresh := 2
     4  E2 2.value := (1,5)
     5  E3 2.next <0,0>
     6  E5 Tail <1,0>
     7  E6 1.next <0,0>
     8  E7 Tail <1,0>
     9 *E9 1.next := <2,1>                        | Head >1 2, Free -
    10  E17 Tail := <2,1> -> done                 | Head 1 >2, Free -
                    deq
    11              D2 Head <1,0>
    12              D3 Tail <2,1>
    13              D4 1.next <2,1>
    14              D5 Head <1,0>
    15              D12 2.value (1,5)
    16             *D13 Head := <2,1>             | Head >2, Free -
    17              F1 gives -> value 1 5
        enq 6
    18 *N1 gives -> refused 3 (Busy)
        deq
steps 1 to 18 of 18, actors 1 to 2 of 2
";

const SHUT_PICTURE: &str = "queue two-lock, bits 32, nodes 2, limit 4294967295, actors 65535
 actor  1       2       3       4       5
        deq
     5  B1 H_lock := 1                             | Head >1 shut, Free -, H_lo~
     6  B2 Head <1,0>
     7  B3 1.next <shut,0>
     8 *B6 H_lock := 0 -> refused 16 (Closed)      | Head >1 shut, Free -
steps 1 to 8 of 8, actors 1 to 5 of 65535
";

/// A part of it, of one actor, in few columns.
const NARROW_PICTURE: &str = "queue two-lock, bits 32, nodes 2, limit 4294967295, actors 65535
 actor  65535
     3 *S8 1.next := <shut,0> | Head >1~
steps 3 to 3 of 8, actors 65535 to 65535 of 65535
";

/// Five actors of 300 on many nodes.
const LONG: &str = "msq schedule 2
queue nonblocking
bits 32
nodes 4294967294
limit 4294967295
actors 300
events 10
begin 300 enq 281474976710655
steps 300 10
begin 1 enq 1
steps 1 10
begin 2 enq 2
steps 2 10
begin 3 enq 3
steps 3 10
begin 4 enq 4
steps 4 10
";

/// The last steps of it, where a chain is longer than is shown.
const LATE_PICTURE: &str =
    "queue nonblocking, bits 32, nodes 4294967294, limit 4294967295, actors 300
 actor  1       2       3       4       5
    48                          E7 Tail <5,4>      | Head 1 2 3 4 >5, Free -
    49                         *E9 5.next := <6,1> | Head 1 2 3 4 >5 ..., Free -
steps 48 to 49 of 50, actors 1 to 5 of 300
";

/// The same in many columns, which have room for more actors.
const WIDE_PICTURE: &str =
    "queue nonblocking, bits 32, nodes 4294967294, limit 4294967295, actors 300
 actor  1       2       3       4       5       6       7       8       9       10      11      12      13
    49                         *E9 5.next := <6,1>                                                                     | Head 1 2 3 4 >5 ..., Free -
    50                          E17 Tail := <6,5> -> done                                                              | Head 1 2 3 4 5 ..., Free -, Tail 6
steps 49 to 50 of 50, actors 1 to 13 of 300
";

/// Schedules, what is shown of them, and their pictures.
const PICTURES: [(&str, View<'static>, &str); 8] = [
    (FIRST, WHOLE, FIRST_PICTURE),
    (FIRST, View { to: 19, ..WHOLE }, FIRST_PICTURE),
    (SHUT, WHOLE, SHUT_PICTURE),
    (
        SHUT,
        View {
            width: 40,
            from: 3,
            to: 3,
            actor: 65535,
            legend: &[],
        },
        NARROW_PICTURE,
    ),
    (
        SHUT,
        View {
            width: 0,
            from: 3,
            to: 3,
            actor: 65535,
            legend: &[],
        },
        NARROW_PICTURE,
    ),
    (
        LONG,
        View {
            from: 48,
            to: 49,
            ..WHOLE
        },
        LATE_PICTURE,
    ),
    (
        LONG,
        View {
            width: 44,
            from: 48,
            to: 49,
            actor: 4,
            legend: &MEANINGS,
        },
        LEGEND_PICTURE,
    ),
    (
        LONG,
        View {
            width: u32::MAX,
            from: 49,
            to: u64::MAX,
            actor: 0,
            legend: &[],
        },
        WIDE_PICTURE,
    ),
];

/// For each event that is refused, the beginning of the first row that isn't made, and what is behind the rows.
const MADE: [(&str, &str); 4] = [
    ("        enq 5\n", "steps 1 to 0 of 0, actors 1 to 2 of 2\n"),
    (
        "    18",
        "        at N1 Fresh 2\nsteps 1 to 17 of 17, actors 1 to 2 of 2\n",
    ),
    (
        "    16",
        "                    at D13 Head <1,0>\nsteps 1 to 15 of 15, actors 1 to 2 of 2\n",
    ),
    (
        "    17",
        "                    at F1 Free <0,0>\nsteps 1 to 16 of 16, actors 1 to 2 of 2\n",
    ),
];

/// A look that finds the queue empty in the steps of an event that is refused.
const EMPTY: &str = "msq schedule 1
queue nonblocking
nodes 2
limit 1
actors 2
events 4
begin 1 deq
steps 1 3
begin 2 enq 1
steps 1 9
";

/// It has no effect before that event.
const EMPTY_PICTURE: &str = "queue nonblocking, bits 24, nodes 2, limit 1, actors 2
 actor  1           2
        deq
     1  D2 Head <1,0>                             | Head >1, Free -
     2  D3 Tail <1,0>
     3  D4 1.next <0,0>
                    enq 1
        at D5 Head <1,0>
                    at N1 Fresh 1
steps 1 to 3 of 3, actors 1 to 2 of 2
";

/// The same of actor 2 alone.
const EMPTY_PART: &str = "queue nonblocking, bits 24, nodes 2, limit 1, actors 2
 actor  2
        enq 1
        at N1 Fresh 1
steps 1 to 3 of 3, actors 2 to 2 of 2
";

#[test]
fn draws_what_the_view_says(rt: HostRuntime) -> Result<(), Fail> {
    for (text, view, picture) in &PICTURES {
        does_by_any_piece(&rt, rt.alloc(), Engine::Show(*view), text, 0, picture)?;
    }
    Ok(())
}

#[test]
fn writes_nothing_of_a_faulty_text(rt: HostRuntime) -> Result<(), Fail> {
    let due = text_fault(16, TextCause::End);
    let change = ("events 9", "events 10");
    tells_a_fault(&rt, Engine::Show(WHOLE), FIRST, change, due)
}

#[test]
fn draws_where_actors_stand_as_an_event_is_refused(rt: HostRuntime) -> Result<(), Fail> {
    for ((old, new, line, refusal), (next, behind)) in STOPS.iter().zip(MADE.iter()) {
        let text = changed(rt.alloc(), FIRST, *old, *new)?;
        let (made, _) = FIRST_PICTURE.split_once(*next).ok_or("the row")?;
        let picture = format!(in rt.alloc(); "{made}{behind}")?;
        let (answer, found) = answered(rt.alloc(), Engine::Show(WHOLE), text.as_str(), 100)?;
        let due = Fault {
            refusal: *refusal,
            line: Some(*line),
        };
        same(&rt, answer, Err(due), *new);
        same(&rt, found.as_str(), picture.as_str(), *new);
    }
    Ok(())
}

#[test]
fn stars_no_step_for_what_a_refused_event_did(rt: HostRuntime) -> Result<(), Fail> {
    let second = View { actor: 2, ..WHOLE };
    let due = Fault {
        refusal: Refusal::IdleActor,
        line: Some(10),
    };
    for (view, picture) in [(WHOLE, EMPTY_PICTURE), (second, EMPTY_PART)] {
        let (answer, found) = answered(rt.alloc(), Engine::Show(view), EMPTY, 100)?;
        same(&rt, answer, Err(due), view.actor);
        same(&rt, found.as_str(), picture, view.actor);
    }
    Ok(())
}

#[test]
fn writes_nothing_where_a_read_fails(rt: HostRuntime) -> Result<(), Fail> {
    writes_nothing(&rt, rt.alloc(), Engine::Show(WHOLE), FIRST)
}

#[test]
fn tells_a_writer_that_stops(rt: HostRuntime) -> Result<(), Fail> {
    tells_a_writer_that_fails(&rt, Engine::Show(WHOLE), FIRST)
}
