use crate::tests::comparisons::same;
use crate::tests::trials::{
    Engine, does, does_by_any_piece, tells_each_end, writes_a_prefix, writes_nothing,
};
use place_engine::place_text;
use std::test::Fail;
use text_io::Script;

const RECORDED: &str = "msq record 1
operations 4
producer enq job-1 from 1 to 2 reply done
other enq job-2 from 3 to 4 reply done
idle deq from 5 to - reply -
consumer deq from 5 to 6 reply value job-2
";

const ITS_POINTS: &str = "history 4
1 enq 1 first 1 last 2 at 1 reply done
1 enq 2 first 3 last 4 at 3 reply done
1 deq first 5 last - at 5 reply -
1 deq first 5 last 6 at 6 reply value 1 2
";

const OVERTAKEN: &str = "msq record 1
operations 4
consumer deq from 7 to 8 reply value job-1
producer enq job-1 from 1 to 2 reply done
other enq job-2 from 3 to 4 reply done
consumer deq from 5 to 6 reply value job-2
";

// One text that two pushed and two took is one value.
const TAKEN_TWICE: &str = "msq record 1
operations 3
a enq x from 1 to 2 reply done
b deq from 3 to 4 reply value x
c deq from 3 to 4 reply value x
";

const NEVER_PUSHED: &str = "msq record 1
operations 2
a enq x from 1 to 2 reply done
b deq from 3 to 4 reply value X
";

const REFUSED: &str = "msq record 1
operations 2
a enq x from 1 to 2 reply refused
b deq from 3 to 4 reply empty
";

const REFUSED_POINTS: &str = "history 2
1 enq 1 first 1 last 2 at 1 reply refused 1
1 deq first 3 last 4 at 3 reply empty
";

/// Recordings, the status, and what is written.
const FOUND: [(&str, u8, &str); 7] = [
    ("msq record 1\noperations 0\n", 0, "history 0\n"),
    (RECORDED, 0, ITS_POINTS),
    (OVERTAKEN, 3, "no 4 Order 3 2\n"),
    (TAKEN_TWICE, 3, "no 3 Sooner 2 1\n"),
    (NEVER_PUSHED, 3, "no 2 Sooner\n"),
    (REFUSED, 0, REFUSED_POINTS),
    (
        "msq record 1\noperations 1\na shut from 1 to 4 reply done\n",
        0,
        "history 1\n1 shut first 1 last 4 at 1 reply done\n",
    ),
];

#[test]
fn places_recordings_whatever_the_pieces(rt: HostRuntime) -> Result<(), Fail> {
    for (text, status, want) in &FOUND {
        does_by_any_piece(&rt, rt.alloc(), Engine::Place, text, *status, want)?;
    }
    Ok(())
}

// The same with the lines of its operations: the take, its push, the push before that, and the take that began later.
const WHY_OVERTAKEN: &str = "no 4 Order 3 2
6 consumer deq from 5 to 6 reply value job-2
5 other enq job-2 from 3 to 4 reply done
4 producer enq job-1 from 1 to 2 reply done
3 consumer deq from 7 to 8 reply value job-1
";

/// Recordings, the status, and what is written with the lines of a reason's operations.
const FOUND_WHY: [(&str, u8, &str); 3] = [
    (RECORDED, 0, ITS_POINTS),
    (OVERTAKEN, 3, WHY_OVERTAKEN),
    (
        NEVER_PUSHED,
        3,
        "no 2 Sooner\n4 b deq from 3 to 4 reply value X\n",
    ),
];

#[test]
fn tells_lines_of_reasons_whatever_the_pieces(rt: HostRuntime) -> Result<(), Fail> {
    for (text, status, want) in &FOUND_WHY {
        does_by_any_piece(&rt, rt.alloc(), Engine::Why, text, *status, want)?;
    }
    Ok(())
}

/// Recordings of a queue that holds `one` and `two`, the status, and what is written: points, also with spread numbers, and a reason.
const FOUND_HOLDING: [(&str, u8, &str); 3] = [
    (
        "msq record 1\noperations 2\na deq from 7 to 9 reply value one\nb enq three from 8 to - reply -\n",
        0,
        "history 2\n1 deq first 7 last 9 at 7 reply value 1 1\n1 enq 3 first 8 last - at - reply -\n",
    ),
    (
        "msq record 1\noperations 2\na deq from 7 to 7 reply value one\nb deq from 7 to 7 reply value two\n",
        0,
        "history 2\n1 deq first 1 last 5 at 3 reply value 1 1\n1 deq first 1 last 5 at 4 reply value 1 2\n",
    ),
    (
        "msq record 1\noperations 1\na deq from 7 to 9 reply value two\n",
        3,
        "no 1 Order held 2 held 1\n3 a deq from 7 to 9 reply value two\nheld 2 two\nheld 1 one\n",
    ),
];

#[test]
fn places_recordings_of_a_queue_that_holds_texts(rt: HostRuntime) -> Result<(), Fail> {
    for (text, status, want) in &FOUND_HOLDING {
        does_by_any_piece(&rt, rt.alloc(), Engine::Holding, text, *status, want)?;
    }
    writes_nothing(&rt, rt.alloc(), Engine::Holding, RECORDED)
}

/// Operations of recordings, how many they are, and two lines of one thread's that overlap.
const OVERLAPS: [(&str, u8, Option<(u64, u64)>); 8] = [
    ("", 0, None),
    (
        "a enq x from 1 to 5 reply done\na deq from 5 to 9 reply value x\n",
        2,
        None,
    ),
    (
        "a enq x from 1 to 5 reply done\nb deq from 2 to 9 reply value x\n",
        2,
        None,
    ),
    (
        "a deq from 4 to 9 reply value x\nb deq from 2 to 3 reply empty\na enq x from 1 to 5 reply done\n",
        3,
        Some((3, 5)),
    ),
    // A call that never ended; one that took no time, at a moment of another, and at its beginning.
    (
        "a enq x from 7 to - reply -\na deq from 9 to 9 reply empty\n",
        2,
        Some((3, 4)),
    ),
    (
        "a enq x from 1 to 9 reply done\na deq from 5 to 5 reply empty\n",
        2,
        Some((3, 4)),
    ),
    (
        "a deq from 5 to 5 reply empty\na enq x from 5 to 9 reply done\na deq from 9 to 9 reply empty\n",
        3,
        None,
    ),
    (
        "a enq x from 5 to 9 reply done\na deq from 5 to 5 reply empty\na deq from 6 to 8 reply empty\n",
        3,
        Some((3, 5)),
    ),
];

#[test]
fn warns_of_a_thread_in_two_calls(rt: HostRuntime) -> Result<(), Fail> {
    for (operations, count, want) in &OVERLAPS {
        let text = format!(in rt.alloc(); "msq record 1\noperations {count}\n{operations}")?;
        let mut reader = Script::reader(rt.alloc(), text.as_bytes(), 4096)?;
        let mut writer = Script::writer(rt.alloc(), 1000, 4096)?;
        let told = place_text(rt.alloc(), &mut reader, &mut writer, 1000, false);
        let found = told.map(|told| told.overlap);
        same(&rt, found, Ok(*want), operations);
    }
    Ok(())
}

#[test]
fn writes_a_prefix_of_a_reason_with_its_lines(rt: HostRuntime) -> Result<(), Fail> {
    writes_a_prefix(
        &rt,
        rt.alloc(),
        Engine::Why,
        OVERTAKEN,
        WHY_OVERTAKEN.as_bytes(),
    )
}

#[test]
fn tells_the_end_of_each_truncated_text(rt: HostRuntime) -> Result<(), Fail> {
    tells_each_end(&rt, rt.alloc(), Engine::Place, RECORDED.as_bytes())
}

#[test]
fn writes_nothing_where_a_recording_is_not_read(rt: HostRuntime) -> Result<(), Fail> {
    writes_nothing(&rt, rt.alloc(), Engine::Place, RECORDED)
}

#[test]
fn writes_a_prefix_of_what_is_found(rt: HostRuntime) -> Result<(), Fail> {
    writes_a_prefix(
        &rt,
        rt.alloc(),
        Engine::Place,
        RECORDED,
        ITS_POINTS.as_bytes(),
    )
}

/// Texts that are faulty, for each engine, and the line that is said of them.
const FAULTY: [(Engine, &str, &str); 7] = [
    (
        Engine::Place,
        "msq record 1\noperations 2\na enq x from 1 to 2 reply done\nb deq from 4 to 3 reply value x\n",
        "fault 10 Text line 4 Range\n",
    ),
    (
        Engine::Place,
        "msq record 2\n",
        "fault 10 Text line 1 Form\n",
    ),
    (
        Engine::Place,
        "msq history 2\n",
        "fault 10 Text line 1 Form\n",
    ),
    (Engine::Place, "record 1\n", "fault 10 Text line 1 Form\n"),
    (
        Engine::Place,
        "msq record 1\nhistory 0\n",
        "fault 10 Text line 2 Form\n",
    ),
    (
        Engine::Place,
        "history 1\noperations 0\n",
        "fault 10 Text line 2 Form\n",
    ),
    (Engine::Check, RECORDED, "fault 10 Text line 1 Form\n"),
];

#[test]
fn tells_faulty_recordings(rt: HostRuntime) -> Result<(), Fail> {
    for (engine, text, told) in &FAULTY {
        let want = (1, "", *told);
        does(&rt, rt.alloc(), *engine, text.as_bytes(), 7, want, text)?;
    }
    Ok(())
}
