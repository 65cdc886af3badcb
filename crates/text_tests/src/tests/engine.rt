use crate::tests::known_runs::RUNS;
use crate::tests::schedule_faults::{LINES, text_with};
use crate::tests::trials::{
    Engine, does, does_by_any_piece, tells_each_end, writes_a_prefix, writes_nothing,
};
use std::test::Fail;

const LINES_OF_TWO: [&str; 11] = [
    "msq schedule 2",
    "queue nonblocking",
    "bits 16",
    "nodes 3",
    "limit 100",
    "actors 2",
    "events 4",
    "begin 1 enq 5",
    "steps 1 10",
    "begin 2 shut",
    "steps 2 4",
];

const ONE_STEP_TOO_MANY: &str = "msq schedule 1
queue nonblocking
nodes 3
limit 100
actors 2
events 2
begin 1 enq 5
steps 1 11
";

const GIVEN_UP_BEFORE_A_TURN: &str = "msq schedule 1
queue nonblocking
nodes 3
limit 100
actors 2
events 3
begin 1 enq 7
steps 1 8
give 1
";

#[test]
fn writes_each_history_whatever_the_pieces(rt: HostRuntime) -> Result<(), Fail> {
    for run in &RUNS {
        does_by_any_piece(&rt, rt.alloc(), Engine::Run, run.schedule, 0, run.history)?;
    }
    Ok(())
}

/// Numbers of lines, what stands there, and the line at the fault.
const FAULTS: [(u64, &str, &str); 21] = [
    (1, "msq schedule 3", "fault 10 Text line 1 Form\n"),
    (3, "nodes 1", "fault 10 Text line 3 Range\n"),
    (3, "nodes 0x3", "fault 10 Text line 3 Form\n"),
    (3, "nodes 3\r", "fault 10 Text line 3 Form\n"),
    (6, "events 1000001", "fault 10 Text line 6 Range\n"),
    (7, "begin 0 deq", "fault 10 Text line 7 Range\n"),
    (7, "begin 1 enq 007", "fault 10 Text line 7 Form\n"),
    (8, "step 1 E4", "fault 10 Text line 8 Form\n"),
    (8, "steps 1  10", "fault 10 Text line 8 Form\n"),
    (8, "steps 1 11", "fault 6 IdleActor line 8\n"),
    (7, "begin 2 enq 5", "fault 6 IdleActor line 8\n"),
    (8, "step 2 N1", "fault 6 IdleActor line 8\n"),
    (8, "step 1 N1", "fault 6 IdleActor line 10\n"),
    (9, "give 1", "fault 6 IdleActor line 9\n"),
    (8, "begin 1 deq", "fault 7 ActorBusy line 8\n"),
    (8, "step 1 N2", "fault 8 NotHere line 8\n"),
    (8, "step 1 A1", "fault 8 NotHere line 8\n"),
    (7, "begin 3 enq 5", "fault 9 NoSuchActor line 7\n"),
    (8, "step 3 N1", "fault 9 NoSuchActor line 8\n"),
    (10, "steps 3 1", "fault 9 NoSuchActor line 10\n"),
    (10, "give 3", "fault 9 NoSuchActor line 10\n"),
];

/// The same in version 2.
const FAULTS_OF_TWO: [(u64, &str, &str); 7] = [
    (3, "bits 15", "fault 10 Text line 3 Range\n"),
    (4, "nodes 65535", "fault 10 Text line 4 Range\n"),
    (5, "limit 281474976710656", "fault 10 Text line 5 Range\n"),
    (8, "begin 0 shut", "fault 10 Text line 8 Range\n"),
    (8, "begin 3 shut", "fault 9 NoSuchActor line 8\n"),
    (11, "step 2 S6", "fault 8 NotHere line 11\n"),
    (11, "steps 2 5", "fault 6 IdleActor line 11\n"),
];

#[test]
fn tells_the_first_faulty_line_or_refused_event(rt: HostRuntime) -> Result<(), Fail> {
    for (number, line, want) in &FAULTS {
        let text = text_with(rt.alloc(), &LINES, *number, line)?;
        does(
            &rt,
            rt.alloc(),
            Engine::Run,
            &text,
            4096,
            (1, "", want),
            line,
        )?;
    }
    for (number, line, want) in &FAULTS_OF_TWO {
        let text = text_with(rt.alloc(), &LINES_OF_TWO, *number, line)?;
        let want = (1, "", *want);
        does(&rt, rt.alloc(), Engine::Run, &text, 4096, want, line)?;
    }
    Ok(())
}

#[test]
fn tells_faults_of_whole_texts(rt: HostRuntime) -> Result<(), Fail> {
    let mut truncated = text_with(rt.alloc(), &LINES, 0, "")?;
    let _ = truncated.pop();
    let mut longer = text_with(rt.alloc(), &LINES, 0, "")?;
    longer.push(b'\n')?;
    let mut faulty = text_with(rt.alloc(), &LINES, 8, "steps 1 11")?;
    faulty.push(b'\n')?;
    let cases: [(&[u8], &str); 6] = [
        (b"", "fault 10 Text line 1 End\n"),
        (&truncated, "fault 10 Text line 10 End\n"),
        (&longer, "fault 10 Text line 11 Extra\n"),
        // A fault of the text comes before a refused event.
        (&faulty, "fault 10 Text line 11 Extra\n"),
        (
            GIVEN_UP_BEFORE_A_TURN.as_bytes(),
            "fault 8 NotHere line 9\n",
        ),
        (ONE_STEP_TOO_MANY.as_bytes(), "fault 6 IdleActor line 8\n"),
    ];
    for (text, want) in &cases {
        does(&rt, rt.alloc(), Engine::Run, text, 7, (1, "", want), "")?;
    }
    Ok(())
}

#[test]
fn tells_that_a_long_number_is_out_of_range(rt: HostRuntime) -> Result<(), Fail> {
    let mut line = String::from_str(rt.alloc(), "nodes ")?;
    for _ in 0..100_000 {
        line.push('9')?;
    }
    let text = text_with(rt.alloc(), &LINES, 3, line.as_str())?;
    let want = (1, "", "fault 10 Text line 3 Range\n");
    does(&rt, rt.alloc(), Engine::Run, &text, 4096, want, "")?;
    Ok(())
}

#[test]
fn tells_the_end_of_each_truncated_schedule(rt: HostRuntime) -> Result<(), Fail> {
    for run in &RUNS {
        tells_each_end(&rt, rt.alloc(), Engine::Run, run.schedule.as_bytes())?;
    }
    Ok(())
}

#[test]
fn writes_nothing_where_a_read_fails(rt: HostRuntime) -> Result<(), Fail> {
    for run in &RUNS {
        writes_nothing(&rt, rt.alloc(), Engine::Run, run.schedule)?;
    }
    Ok(())
}

#[test]
fn writes_a_prefix_where_a_write_fails(rt: HostRuntime) -> Result<(), Fail> {
    for run in &RUNS {
        writes_a_prefix(
            &rt,
            rt.alloc(),
            Engine::Run,
            run.schedule,
            run.history.as_bytes(),
        )?;
    }
    Ok(())
}
