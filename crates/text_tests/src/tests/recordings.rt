//! What no clause says: that recordings are read where memory is there, and the faults of known texts.
use crate::tests::comparisons::same;
use history::{Refusal, TextCause};
use history_text::print_history;
use recording_text::{parse_holding, parse_recording, texts_in};
use std::alloc::{AllocError, Global};
use std::test::Fail;
use text_io::Script;

/// Recordings, and the histories that they stand for.
const READ: [(&str, &str); 5] = [
    ("msq record 1\noperations 0\n", "history 0\n"),
    (
        "msq record 1
operations 4
producer enq job-7 from 10 to 20 reply done
other.1 enq job-8 from 12 to 22 reply done
consumer deq from 30 to 35 reply value job-8
consumer deq from 36 to - reply -
",
        "history 4
1 enq 1 first 10 last 20 at - reply done
1 enq 2 first 12 last 22 at - reply done
1 deq first 30 last 35 at - reply value 1 2
1 deq first 36 last - at - reply -
",
    ),
    // A value that is taken above its push, names like texts and labels, and the same texts over again.
    (
        "msq record 1
operations 6
a deq from 5 to 9 reply value a
from enq b from 1 to 4 reply done
b enq a from 1 to 4 reply done
- deq from 10 to 12 reply value b
reply deq from 13 to 14 reply empty
_ enq b from 15 to 18446744073709551615 reply done
",
        "history 6
1 deq first 5 last 9 at - reply value 1 1
1 enq 2 first 1 last 4 at - reply done
1 enq 1 first 1 last 4 at - reply done
1 deq first 10 last 12 at - reply value 1 2
1 deq first 13 last 14 at - reply empty
1 enq 2 first 15 last 18446744073709551615 at - reply done
",
    ),
    (
        "msq record 1
operations 3
A enq 0123456789abcdefghijklmnopqrstuvwxyzABCDEFGHIJKLMNOPQRSTUVWXYZ_. from 1 to 2 reply refused
A enq 7 from 3 to 4 reply closed
B shut from 3 to 3 reply done
",
        "history 3
1 enq 1 first 1 last 2 at - reply refused 1
1 enq 2 first 3 last 4 at - reply refused 16
1 shut first 3 last 3 at - reply done
",
    ),
    // Of two texts in one line the call's comes first; texts that differ in case, length or a zero are different.
    (
        "msq record 1
operations 4
t enq x from 1 to 2 reply value y
t enq X from 1 to 2 reply value xx
t enq y from 1 to 2 reply value 01
t enq 1 from 1 to 2 reply value x
",
        "history 4
1 enq 1 first 1 last 2 at - reply value 1 2
1 enq 3 first 1 last 2 at - reply value 1 4
1 enq 2 first 1 last 2 at - reply value 1 5
1 enq 6 first 1 last 2 at - reply value 1 1
",
    ),
];

#[test]
fn reads_recordings_as_histories(rt: HostRuntime) -> Result<(), Fail> {
    for (text, history) in &READ {
        let read = parse_recording(rt.alloc(), text.as_bytes())?;
        let mut writer = Script::writer(rt.alloc(), 1000, 7)?;
        print_history(read.as_slice(), &mut writer)?;
        same(&rt, writer.written(), history.as_bytes(), text);
    }
    Ok(())
}

/// A recording of a queue that holds `x` and `y`, the history of its longer one, and the same with a number that leaves no room.
const HOLDING: [&str; 3] = [
    "msq record 1\noperations 2\na deq from 1 to - reply -\na enq y from 4 to 5 reply done\n",
    "history 4
1 enq 1 first 1 last 1 at - reply done
1 enq 2 first 2 last 2 at - reply done
1 deq first 3 last - at - reply -
1 enq 2 first 6 last 7 at - reply done
",
    "msq record 1\noperations 2\na deq from 1 to - reply -\na deq from 4 to 18446744073709551614 reply empty\n",
];

#[test]
fn reads_recordings_of_a_queue_that_holds_texts(rt: HostRuntime) -> Result<(), Fail> {
    let [text, history, late] = HOLDING;
    let held: [&[u8]; 2] = [b"x", b"y"];
    let read = parse_holding(rt.alloc(), &held, text.as_bytes())?;
    let mut writer = Script::writer(rt.alloc(), 1000, 7)?;
    print_history(read.as_slice(), &mut writer)?;
    same(&rt, writer.written(), history.as_bytes(), text);
    let told = parse_holding(rt.alloc(), &held, late.as_bytes()).err();
    same(&rt, told, Some(Refusal::Text(4, TextCause::Range)), late);
    Ok(())
}

/// Lists, and how many texts they have; none where they are no such lists.
const LISTS: [(&str, Option<usize>); 6] = [
    ("tea", Some(1)),
    ("a,b-c,_.0", Some(3)),
    ("", None),
    ("a,", None),
    (",a", None),
    ("a b", None),
];

#[test]
fn reads_lists_of_texts(rt: HostRuntime) -> Result<(), Fail> {
    for (list, want) in &LISTS {
        let found = texts_in(rt.alloc(), list.as_bytes())?.map(|texts| texts.len());
        same(&rt, found, *want, list);
    }
    Ok(())
}

#[test]
fn tells_the_end_of_each_truncated_recording(rt: HostRuntime) {
    for (text, _) in &READ {
        let mut number = 1;
        for (len, byte) in text.as_bytes().iter().enumerate() {
            let fault = parse_recording(rt.alloc(), &text.as_bytes()[..len]).err();
            same(&rt, fault, Some(Refusal::Text(number, TextCause::End)), len);
            if *byte == 10 && number < 9 {
                number += 1;
            }
        }
    }
}

/// Texts that are faulty in their first two lines or behind their last one: the line, and for what.
const OTHER_LINES: [(&str, u64, TextCause); 14] = [
    ("", 1, TextCause::End),
    ("msq record 1", 1, TextCause::End),
    ("msq record 2\noperations 0\n", 1, TextCause::Form),
    ("msq record\noperations 0\n", 1, TextCause::Form),
    ("msq  record 1\noperations 0\n", 1, TextCause::Form),
    ("msq record 1 \noperations 0\n", 1, TextCause::Form),
    ("history 0\n", 1, TextCause::Form),
    ("msq record 1\noperations\n", 2, TextCause::Form),
    ("msq record 1\noperations 00\n", 2, TextCause::Form),
    ("msq record 1\nhistory 0\n", 2, TextCause::Form),
    ("msq record 1\noperations 1000001\n", 2, TextCause::Range),
    ("msq record 1\noperations 1 2\n", 2, TextCause::Form),
    ("msq record 1\noperations 0\n\n", 3, TextCause::Extra),
    ("msq record 1\noperations 0\nx", 3, TextCause::Extra),
];

#[test]
fn tells_what_is_wrong_with_the_other_lines_of_a_recording(rt: HostRuntime) {
    for (text, number, cause) in &OTHER_LINES {
        let want = Some(Refusal::Text(*number, *cause));
        let told = parse_recording(rt.alloc(), text.as_bytes()).err();
        same(&rt, told, want, text);
    }
}

// The text of a recording of one operation, which this line says.
fn text_of(alloc: Global, line: &[u8]) -> Result<Vec<u8>, AllocError> {
    let mut text = Vec::new(alloc);
    text.extend_from_slice(b"msq record 1\noperations 1\n")?;
    text.extend_from_slice(line)?;
    text.push(b'\n')?;
    Ok(text)
}

/// Lines that are faulty in the place of an operation, and for what.
const OPERATIONS: [(&str, TextCause); 27] = [
    ("a enq x from 0 to 4 reply done", TextCause::Range),
    ("a enq x from 1 to 0 reply done", TextCause::Range),
    ("a enq x from 4 to 3 reply done", TextCause::Range),
    (
        "a enq x from 18446744073709551616 to 4 reply done",
        TextCause::Range,
    ),
    (
        "a enq 0123456789abcdefghijklmnopqrstuvwxyzABCDEFGHIJKLMNOPQRSTUVWXYZ_.1 from 1 to 2 reply done",
        TextCause::Range,
    ),
    (
        "0123456789abcdefghijklmnopqrstuvwxyzABCDEFGHIJKLMNOPQRSTUVWXYZ_.1 deq from 1 to 2 reply empty",
        TextCause::Range,
    ),
    (
        "a deq from 1 to 2 reply value 0123456789abcdefghijklmnopqrstuvwxyzABCDEFGHIJKLMNOPQRSTUVWXYZ_.1",
        TextCause::Range,
    ),
    ("a enq x from 0 to 4 reply gone", TextCause::Form),
    ("a enq  from 1 to 4 reply done", TextCause::Form),
    ("a enq from 1 to 4 reply done", TextCause::Form),
    (" enq x from 1 to 4 reply done", TextCause::Form),
    ("a enq x y from 1 to 4 reply done", TextCause::Form),
    ("a enq x/y from 1 to 4 reply done", TextCause::Form),
    ("a:b enq x from 1 to 4 reply done", TextCause::Form),
    ("a deq x from 1 to 4 reply empty", TextCause::Form),
    ("a shut x from 1 to 4 reply done", TextCause::Form),
    ("a pop from 1 to 4 reply empty", TextCause::Form),
    ("a deq first 1 last 4 reply empty", TextCause::Form),
    ("a deq from 1 to 4 reply value", TextCause::Form),
    ("a deq from 1 to 4 reply value x y", TextCause::Form),
    ("a deq from 1 to 4 reply value 1 y/", TextCause::Form),
    ("a deq from 1 to 4 reply refused 1", TextCause::Form),
    ("a deq from 01 to 4 reply empty", TextCause::Form),
    ("a deq from 1 to 4 reply empty ", TextCause::Form),
    ("a deq from 1 to 4 reply empty\r", TextCause::Form),
    ("a deq from - to 4 reply empty", TextCause::Form),
    ("1 enq 1 first 1 last 4 at 3 reply done", TextCause::Form),
];

#[test]
fn tells_what_is_wrong_with_a_recorded_operation(rt: HostRuntime) -> Result<(), Fail> {
    for (line, cause) in &OPERATIONS {
        let text = text_of(rt.alloc(), line.as_bytes())?;
        let told = parse_recording(rt.alloc(), &text).err();
        same(&rt, told, Some(Refusal::Text(3, *cause)), line);
    }
    Ok(())
}
