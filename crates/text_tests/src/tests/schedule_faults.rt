use crate::tests::comparisons::same;
use crate::tests::schedules::TEXTS;
use history::Refusal;
use schedule_text::parse;
use std::alloc::{AllocError, Global};
use std::test::Fail;
use text_io::TextCause;

/// The lines of a text of version 1.
pub const LINES: [&str; 10] = [
    "msq schedule 1",
    "queue nonblocking",
    "nodes 3",
    "limit 100",
    "actors 2",
    "events 4",
    "begin 1 enq 5",
    "steps 1 10",
    "begin 2 deq",
    "steps 2 9",
];

/// Lines that are faulty in the place of one of `LINES`, and for what.
pub const FAULTS: [(u64, &str, TextCause); 52] = [
    (1, "msq schedule 3", TextCause::Form),
    (1, "msq schedule 12", TextCause::Form),
    (1, "msq schedule", TextCause::Form),
    (1, "msq schedule 1 ", TextCause::Form),
    (1, "msq  schedule 1", TextCause::Form),
    (2, "queue two_lock", TextCause::Form),
    (2, "queue nonblocking\r", TextCause::Form),
    (2, "queue Nonblocking", TextCause::Form),
    (3, "nodes 1", TextCause::Range),
    (3, "nodes 16777215", TextCause::Range),
    (3, "nodes 0x3", TextCause::Form),
    (3, "nodes 3\r", TextCause::Form),
    (3, "nodes  3", TextCause::Form),
    (3, "nodes", TextCause::Form),
    (3, "nodes ", TextCause::Form),
    (3, "nodes 3 ", TextCause::Form),
    (3, "limit 3", TextCause::Form),
    (3, "bits 24", TextCause::Form),
    (4, "limit 0", TextCause::Range),
    (4, "limit 1099511627776", TextCause::Range),
    (4, "limit 18446744073709551616", TextCause::Range),
    (4, "limit 00", TextCause::Form),
    (5, "actors 0", TextCause::Range),
    (5, "actors 65536", TextCause::Range),
    (5, "actors +2", TextCause::Form),
    (6, "events 1000001", TextCause::Range),
    (7, "begin 1 enq 007", TextCause::Form),
    (7, "begin 1  enq 7", TextCause::Form),
    (7, "begin 1 enq", TextCause::Form),
    (7, "begin 1 deq 1", TextCause::Form),
    (7, "begin 1 enq 281474976710656", TextCause::Range),
    (7, "begin 0 deq", TextCause::Range),
    (7, "begin 65536 deq", TextCause::Range),
    (7, "begin 0 pop", TextCause::Form),
    (7, "begin 1 shut", TextCause::Form),
    (7, "begin 0 shut", TextCause::Form),
    (8, "step 1 E4", TextCause::Form),
    (8, "step 0 E4", TextCause::Form),
    (8, "step 0 E9", TextCause::Range),
    (8, "step 1 e9", TextCause::Form),
    (8, "step 1 E", TextCause::Form),
    (8, "step 1 S1", TextCause::Form),
    (8, "step 1 S9", TextCause::Form),
    (8, "step 0 S4", TextCause::Form),
    (8, "step 1", TextCause::Form),
    (8, "steps 1 0", TextCause::Range),
    (8, "steps 1 1000001", TextCause::Range),
    (8, "steps 0 1 1", TextCause::Form),
    (8, "steps 1 E9", TextCause::Form),
    (8, "give 0", TextCause::Range),
    (8, "give 1 1", TextCause::Form),
    (8, "", TextCause::Form),
];

/// The lines of a text of version 2.
pub const LINES_OF_TWO: [&str; 12] = [
    "msq schedule 2",
    "queue nonblocking",
    "bits 16",
    "nodes 3",
    "limit 100",
    "actors 2",
    "events 5",
    "begin 1 enq 5",
    "steps 1 10",
    "begin 2 shut",
    "step 2 S1",
    "steps 2 3",
];

/// Lines that are faulty in the place of one of `LINES_OF_TWO`, and for what.
pub const FAULTS_OF_TWO: [(u64, &str, TextCause); 31] = [
    (1, "msq schedule 3", TextCause::Form),
    (1, "msq schedule 02", TextCause::Form),
    (1, "msq schedule 2 ", TextCause::Form),
    (2, "bits 16", TextCause::Form),
    (3, "bits 15", TextCause::Range),
    (3, "bits 33", TextCause::Range),
    (3, "bits 0", TextCause::Range),
    (3, "bits 18446744073709551632", TextCause::Range),
    (3, "bits 016", TextCause::Form),
    (3, "bits", TextCause::Form),
    (3, "bits 16 ", TextCause::Form),
    (3, "nodes 3", TextCause::Form),
    (4, "nodes 65535", TextCause::Range),
    (4, "nodes 1", TextCause::Range),
    (4, "bits 16", TextCause::Form),
    (5, "limit 281474976710656", TextCause::Range),
    (5, "limit 0", TextCause::Range),
    (6, "actors 65536", TextCause::Range),
    (7, "events 1000001", TextCause::Range),
    (8, "begin 0 shut", TextCause::Range),
    (8, "begin 65536 shut", TextCause::Range),
    (8, "begin 1 shut 1", TextCause::Form),
    (8, "begin 1 Shut", TextCause::Form),
    (9, "step 0 S1", TextCause::Range),
    (9, "step 1 S0", TextCause::Form),
    (9, "step 1 S10", TextCause::Form),
    (9, "step 1 s1", TextCause::Form),
    (9, "step 0 E4", TextCause::Form),
    (12, "give 0", TextCause::Range),
    (12, "steps 2 1000001", TextCause::Range),
    (12, "", TextCause::Form),
];

/// These lines, with another one in the place of one of them, from 1.
pub fn text_with(
    alloc: Global,
    lines: &[&str],
    number: u64,
    other: &str,
) -> Result<Vec<u8>, AllocError> {
    let mut text = Vec::new(alloc);
    let mut at = 0u64;
    for line in lines {
        at = at.saturating_add(1);
        let line = if at == number { other } else { line };
        text.extend_from_slice(line.as_bytes())?;
        text.push(b'\n')?;
    }
    Ok(text)
}

fn refusal_of(alloc: Global, text: &[u8]) -> Option<Refusal> {
    parse(alloc, text).err()
}

#[test]
fn tells_the_first_faulty_line(rt: HostRuntime) -> Result<(), Fail> {
    for (number, line, cause) in &FAULTS {
        let text = text_with(rt.alloc(), &LINES, *number, line)?;
        let want = Some(Refusal::Text(*number, *cause));
        same(&rt, refusal_of(rt.alloc(), &text), want, line);
    }
    Ok(())
}

#[test]
fn tells_the_first_faulty_line_of_version_two(rt: HostRuntime) -> Result<(), Fail> {
    for (number, line, cause) in &FAULTS_OF_TWO {
        let text = text_with(rt.alloc(), &LINES_OF_TWO, *number, line)?;
        let want = Some(Refusal::Text(*number, *cause));
        same(&rt, refusal_of(rt.alloc(), &text), want, line);
    }
    Ok(())
}

#[test]
fn a_truncated_text_ends_too_early(rt: HostRuntime) -> Result<(), Fail> {
    for text in &TEXTS {
        let text = text.as_bytes();
        let mut feeds = 0u64;
        for (place, byte) in text.iter().enumerate() {
            let want = Some(Refusal::Text(feeds.saturating_add(1), TextCause::End));
            same(&rt, refusal_of(rt.alloc(), &text[..place]), want, place);
            if *byte == b'\n' {
                feeds = feeds.saturating_add(1);
            }
        }
    }
    Ok(())
}

#[test]
fn further_bytes_are_extra(rt: HostRuntime) -> Result<(), Fail> {
    for more in ["\n", "x", "steps 1 1\n"] {
        let mut text = text_with(rt.alloc(), &LINES, 0, "")?;
        text.extend_from_slice(more.as_bytes())?;
        let want = Some(Refusal::Text(11, TextCause::Extra));
        let told = refusal_of(rt.alloc(), &text);
        same(&rt, told, want, format_args!("{more:?}"));
        let mut text = text_with(rt.alloc(), &LINES_OF_TWO, 0, "")?;
        text.extend_from_slice(more.as_bytes())?;
        let want = Some(Refusal::Text(13, TextCause::Extra));
        let told = refusal_of(rt.alloc(), &text);
        same(&rt, told, want, format_args!("{more:?}"));
    }
    Ok(())
}

#[test]
fn a_number_of_any_length_has_the_form(rt: HostRuntime) -> Result<(), Fail> {
    let mut line = String::from_str(rt.alloc(), "nodes ")?;
    for _ in 0..100_000 {
        line.push('9')?;
    }
    let text = text_with(rt.alloc(), &LINES, 3, line.as_str())?;
    let want = Some(Refusal::Text(3, TextCause::Range));
    same(&rt, refusal_of(rt.alloc(), &text), want, "");
    Ok(())
}
