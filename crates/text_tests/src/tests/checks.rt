use crate::tests::comparisons::same;
use crate::tests::known_runs::{FIRST_HISTORY, FIRST_TABLE, RUNS};
use crate::tests::trials::{
    Engine, answers, does, does_by_any_piece, tells_each_end, writes_a_prefix, writes_nothing,
};
use history::{Cause, Refusal, TextCause, Verdict};
use place_engine::check_text;
use std::alloc::{AllocError, Global};
use std::test::Fail;
use text_io::{Script, Trouble};

const LATE_EMPTY: &str = "history 2
1 deq first 1 last 14 at 14 reply empty
2 enq 9 first 4 last 13 at 12 reply done
";

const PUSHED_AFTER_A_SHUT: &str = "history 2
1 shut first 1 last 4 at 4 reply done
1 enq 1 first 5 last 14 at 13 reply done
";

const ONE_PLACE: &str = "history 2
1 enq 1 first 1 last 4 at 3 reply done
2 enq 2 first 2 last 5 at 3 reply done
";

const OUTSIDE: &str = "history 1
1 enq 1 first 1 last 4 at 5 reply done
";

const EMPTY_TOO_SOON: &str = "history 2
1 enq 1 first 1 last 4 at 2 reply done
2 deq first 5 last 9 at 6 reply empty
";

// Two lines of 64 bytes together, the first of a history of 9,999 operations.
const FIRST_TWO: &str = "history 9999
1 enq 1234567890123 first 1 last 2 at 2 reply done
";

// Lines of 64 bytes, one right and one wrong, and a wrong one of 65.
const RIGHT: &str = "1 enq 123456789012345 first 100000 last 200000 at 20 reply done\n";

const WRONG: &str = "1 enq 123456789012345 first 100000 last 200000 at 20 reply dnoe\n";

const WRONG_LONGER: &str = "1 enq 123456789012345 first 100000 last 200000 at 20 reply dnoee\n";

const NO_REPLY: &str = "history 1
1 deq first 1 last 4 at 3 reply -
";

/// Histories that are judged no, and what is written.
const JUDGED: [(&str, &str); 5] = [
    (PUSHED_AFTER_A_SHUT, "no 2 Reply\n"),
    (ONE_PLACE, "no 2 Shared\n"),
    (OUTSIDE, "no 1 Span\n"),
    (EMPTY_TOO_SOON, "no 2 Reply\n"),
    (NO_REPLY, "no 1 Shape\n"),
];

#[test]
fn tables_each_history_whatever_the_pieces(rt: HostRuntime) -> Result<(), Fail> {
    for run in &RUNS {
        does_by_any_piece(&rt, rt.alloc(), Engine::Check, run.history, 0, run.table)?;
    }
    Ok(())
}

#[test]
fn judges_histories_whatever_the_pieces(rt: HostRuntime) -> Result<(), Fail> {
    for (text, want) in &JUDGED {
        does_by_any_piece(&rt, rt.alloc(), Engine::Check, text, 3, want)?;
    }
    Ok(())
}

/// Histories, the verdict, and what is written.
const VERDICTS: [(&str, Verdict, &str); 5] = [
    (FIRST_HISTORY, Verdict::Yes, FIRST_TABLE),
    (
        LATE_EMPTY,
        Verdict::No {
            place: 1,
            cause: Cause::Reply,
        },
        "no 1 Reply\n",
    ),
    (
        ONE_PLACE,
        Verdict::No {
            place: 2,
            cause: Cause::Shared,
        },
        "no 2 Shared\n",
    ),
    (
        OUTSIDE,
        Verdict::No {
            place: 1,
            cause: Cause::Span,
        },
        "no 1 Span\n",
    ),
    (
        NO_REPLY,
        Verdict::No {
            place: 1,
            cause: Cause::Shape,
        },
        "no 1 Shape\n",
    ),
];

#[test]
fn answers_the_verdict(rt: HostRuntime) -> Result<(), Fail> {
    for (text, verdict, written) in &VERDICTS {
        let mut reader = Script::reader(rt.alloc(), text.as_bytes(), 4096)?;
        let mut writer = Script::writer(rt.alloc(), 1000, 4096)?;
        let found = check_text(rt.alloc(), &mut reader, &mut writer)?;
        let want = (*verdict, written.as_bytes());
        same(&rt, (found, writer.written()), want, text);
    }
    Ok(())
}

/// Texts that are no history, and the line at the fault.
const FAULTS: [(&str, &str); 10] = [
    ("", "fault 10 Text line 1 End\n"),
    ("history 1\n", "fault 10 Text line 2 End\n"),
    ("history 00\n", "fault 10 Text line 1 Form\n"),
    ("history 1000001\n", "fault 10 Text line 1 Range\n"),
    ("history 0\n\n", "fault 10 Text line 2 Extra\n"),
    (
        "history 1\n1 enq 1 first 0 last 4 at 3 reply done\n",
        "fault 10 Text line 2 Range\n",
    ),
    (
        "history 1\n1 enq 1 first 1 last 4 at 3 reply refused 2\n",
        "fault 10 Text line 2 Form\n",
    ),
    (
        "history 1\n1 enq 1 first 1 last 4 at 3 reply refused 4\n",
        "fault 10 Text line 2 Form\n",
    ),
    (
        "history 1\n1 enq 007 first 1 last 4 at 3 reply done\n",
        "fault 10 Text line 2 Form\n",
    ),
    (
        "history 1\n1 enq 1 first 1  last 4 at 3 reply done\n",
        "fault 10 Text line 2 Form\n",
    ),
];

#[test]
fn tells_the_first_faulty_line(rt: HostRuntime) -> Result<(), Fail> {
    for (text, line) in &FAULTS {
        let want = (1, "", *line);
        does(
            &rt,
            rt.alloc(),
            Engine::Check,
            text.as_bytes(),
            4096,
            want,
            text,
        )?;
    }
    Ok(())
}

// A text of 250,000 bytes, some 4 blocks, with another line in the place of that of this number.
fn long_text(alloc: Global, number: u64, other: &str) -> Result<Vec<u8>, AllocError> {
    let mut text = Vec::from_slice(alloc, FIRST_TWO.as_bytes())?;
    for line in 3..3908 {
        let said = if line == number { other } else { RIGHT };
        text.extend_from_slice(said.as_bytes())?;
    }
    Ok(text)
}

/// A number of a line, what stands there, the call that fails, and what is answered.
const LONG: [(u64, &str, u64, Refusal); 7] = [
    (3, "\n", NEVER, Refusal::Text(3, TextCause::Form)),
    // The first block ends behind line 1025.
    (1025, WRONG, NEVER, Refusal::Text(1025, TextCause::Form)),
    (
        1025,
        WRONG_LONGER,
        NEVER,
        Refusal::Text(1025, TextCause::Form),
    ),
    (1026, "\n", NEVER, Refusal::Text(1026, TextCause::Form)),
    (3907, WRONG, NEVER, Refusal::Text(3907, TextCause::Form)),
    (3, "\n", 20, Refusal::Read),
    (3, "\n", 63, Refusal::Read),
];

const NEVER: u64 = 1000;

#[test]
fn tells_a_fault_in_any_block_once_all_is_read(rt: HostRuntime) -> Result<(), Fail> {
    for (number, other, call, want) in &LONG {
        assert!(rt; 0 < *call);
        let text = long_text(rt.alloc(), *number, other)?;
        let reader = Script::reader(rt.alloc(), &text, 4096)?;
        let reader = reader.with(Trouble::Failure, *call);
        let writer = Script::writer(rt.alloc(), 1000, 4096)?;
        let want = (Err(*want), b"".as_slice());
        let tried = format_args!("line {number}, call {call}");
        answers(&rt, rt.alloc(), Engine::Check, reader, writer, want, tried);
    }
    Ok(())
}

#[test]
fn tells_the_end_of_each_truncated_history(rt: HostRuntime) -> Result<(), Fail> {
    for run in &RUNS {
        tells_each_end(&rt, rt.alloc(), Engine::Check, run.history.as_bytes())?;
    }
    Ok(())
}

#[test]
fn writes_nothing_where_a_read_fails(rt: HostRuntime) -> Result<(), Fail> {
    for run in &RUNS {
        writes_nothing(&rt, rt.alloc(), Engine::Check, run.history)?;
    }
    Ok(())
}

/// Histories, and what is written.
const BEGUN: [(&str, &str); 2] = [(FIRST_HISTORY, FIRST_TABLE), (ONE_PLACE, "no 2 Shared\n")];

#[test]
fn writes_a_prefix_where_a_write_fails(rt: HostRuntime) -> Result<(), Fail> {
    for (text, want) in &BEGUN {
        writes_a_prefix(&rt, rt.alloc(), Engine::Check, text, want.as_bytes())?;
    }
    Ok(())
}
