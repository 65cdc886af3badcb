//! What no clause says: that texts are read where memory is there, and the faults of known texts.
use crate::tests::comparisons::same;
use history::{Body, Op, Refusal, Reply, Stamped, Taken, TextCause};
use history_text::{parse_history, print_history};
use std::alloc::{AllocError, Global};
use std::test::Fail;
use text_io::Script;

const TWO: &[u8] = b"history 2
1 enq 5 first 1 last 10 at 8 reply done
2 deq first 11 last 19 at 15 reply value 1 5
";

const EACH_REPLY: &[u8] = b"history 7
65535 enq 281474976710655 first 1 last 18446744073709551615 at 9 reply done
1 deq first 3 last 2 at 1 reply empty
1 deq first 3 last - at 9 reply value 65535 0
1 enq 0 first 11 last 12 at 12 reply refused 1
1 enq 2 first 20 last 21 at 21 reply refused 2 Free
2 enq 6 first 7 last 22 at 22 reply refused 3
1 enq 5 first 1 last - at - reply -
";

const SHUT: &[u8] = b"history 5
1 enq 5 first 1 last 10 at 9 reply done
2 shut first 11 last 14 at 14 reply done
1 enq 6 first 15 last 22 at 22 reply refused 16
2 deq first 23 last 31 at 28 reply value 1 5
2 deq first 32 last 35 at 35 reply refused 16
";

#[test]
fn reads_two_operations(rt: HostRuntime) -> Result<(), Fail> {
    let five = Body::new(5).ok_or("not a body")?;
    let read = parse_history(rt.alloc(), TWO)?;
    let pushed = read.first().map(|it| (it.op, it.at));
    let taken = read.get(1).map(|it| it.reply);
    let value = Reply::Value(Taken {
        from: 1,
        body: five,
    });
    same(
        &rt,
        (read.len(), pushed, taken),
        (2, Some((Op::Enq(five), Some(8))), Some(Some(value))),
        "",
    );
    Ok(())
}

#[test]
fn reads_a_shut_and_a_refusal_of_it(rt: HostRuntime) -> Result<(), Fail> {
    let read = parse_history(rt.alloc(), SHUT)?;
    let shut = read.get(1).map(|it| (it.op, it.reply));
    let refused = read.get(2).map(|it| it.reply);
    let closed = Reply::Refused(Refusal::Closed);
    same(
        &rt,
        (shut, refused),
        (Some((Op::Shut, Some(Reply::Done))), Some(Some(closed))),
        "",
    );
    Ok(())
}

#[test]
fn prints_what_it_read(rt: HostRuntime) -> Result<(), Fail> {
    for text in [TWO, EACH_REPLY, SHUT, b"history 0\n".as_slice()] {
        let read = parse_history(rt.alloc(), text)?;
        let mut writer = Script::writer(rt.alloc(), 1000, 7)?;
        print_history(read.as_slice(), &mut writer)?;
        same(&rt, writer.written(), text, "");
    }
    Ok(())
}

#[test]
fn tells_the_end_of_each_truncated_text(rt: HostRuntime) {
    for text in [TWO, EACH_REPLY, SHUT] {
        let mut number = 1;
        for (len, byte) in text.iter().enumerate() {
            let fault = parse_history(rt.alloc(), &text[..len]).err();
            same(&rt, fault, Some(Refusal::Text(number, TextCause::End)), len);
            if *byte == 10 && number < 9 {
                number += 1;
            }
        }
    }
}

fn refusal_of(alloc: Global, text: &[u8]) -> Option<Refusal> {
    parse_history(alloc, text).err()
}

/// Texts that are faulty from their first line on: the line, and for what.
const FIRST_LINES: [(&[u8], u64, TextCause); 9] = [
    (b"", 1, TextCause::End),
    (b"history 1000001\n", 1, TextCause::Range),
    (b"history 00\n", 1, TextCause::Form),
    (b"history  0\n", 1, TextCause::Form),
    (b"history 0\r\n", 1, TextCause::Form),
    (b"History 0\n", 1, TextCause::Form),
    (b"history +0\n", 1, TextCause::Form),
    (b"history 0\n\n", 2, TextCause::Extra),
    (b"history 0\nx", 2, TextCause::Extra),
];

#[test]
fn tells_what_is_wrong_with_the_first_line(rt: HostRuntime) {
    for (text, number, cause) in &FIRST_LINES {
        let want = Some(Refusal::Text(*number, *cause));
        same(
            &rt,
            refusal_of(rt.alloc(), text),
            want,
            format_args!("{number} {cause}"),
        );
    }
}

// The text of a history of one operation, which this line says.
fn text_of(alloc: Global, line: &[u8]) -> Result<Vec<u8>, AllocError> {
    let mut text = Vec::new(alloc);
    text.extend_from_slice(b"history 1\n")?;
    text.extend_from_slice(line)?;
    text.push(b'\n')?;
    Ok(text)
}

/// Lines that are faulty in the place of an operation, and for what.
const OPERATIONS: [(&str, TextCause); 17] = [
    ("1 enq 1 first 0 last 4 at 3 reply done", TextCause::Range),
    (
        "1 enq 1 first 1 last 4 at 3 reply refused 2",
        TextCause::Form,
    ),
    (
        "1 enq 1 first 1 last 4 at 3 reply refused 4",
        TextCause::Form,
    ),
    (
        "0 enq 1 first 1 last 4 at 3 reply refused 4",
        TextCause::Form,
    ),
    (
        "1 enq 1 first 1 last 4 at 4 reply refused 160",
        TextCause::Form,
    ),
    ("1 shut 1 first 1 last 4 at 4 reply done", TextCause::Form),
    ("0 shut first 1 last 4 at 4 reply done", TextCause::Range),
    ("65536 deq first 1 last - at - reply -", TextCause::Range),
    (
        "1 enq 281474976710656 first 1 last - at - reply -",
        TextCause::Range,
    ),
    (
        "1 deq first 18446744073709551616 last - at - reply -",
        TextCause::Range,
    ),
    (
        "1 deq first 1 last - at - reply value 0 1",
        TextCause::Range,
    ),
    ("1 deq first 1 last 007 at - reply -", TextCause::Form),
    ("1 enq 007 first 1 last - at - reply -", TextCause::Form),
    ("1 deq  first 1 last - at - reply -", TextCause::Form),
    ("1 deq first 1 last - at - reply - ", TextCause::Form),
    ("1 deq first 1 last - at - reply -\r", TextCause::Form),
    ("1 deq first 1 last 0 at - reply -\nx", TextCause::Range),
];

#[test]
fn tells_what_is_wrong_with_an_operation(rt: HostRuntime) -> Result<(), Fail> {
    for (line, cause) in &OPERATIONS {
        let text = text_of(rt.alloc(), line.as_bytes())?;
        let want = Some(Refusal::Text(2, *cause));
        same(&rt, refusal_of(rt.alloc(), &text), want, line);
    }
    Ok(())
}

#[test]
fn finds_a_hundred_thousand_digits_out_of_range(rt: HostRuntime) -> Result<(), Fail> {
    let mut text = Vec::new(rt.alloc());
    text.extend_from_slice(b"history ")?;
    for _ in 0..100_000 {
        text.push(b'9')?;
    }
    text.push(b'\n')?;
    let fault = parse_history(rt.alloc(), text.as_slice()).err();
    same(&rt, fault, Some(Refusal::Text(1, TextCause::Range)), "");
    Ok(())
}
