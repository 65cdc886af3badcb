//! What no clause says: the texts as they stand in a file, the messages, and calls that succeed.
use crate::tests::comparisons::same;
use history::{Body, Op, Refusal, Reply, Stamped, Taken, TextCause, WornWord};
use history_text::print_history;
use std::test::Fail;
use text_io::{ReaderSource, Script, Sink, Source, Trouble, WriterSink};

fn body(number: u64) -> Result<Body, Fail> {
    Ok(Body::new(number).ok_or("not a body")?)
}

// An enqueue of 5 by actor 1 that is complete, and the dequeue of it by actor 2.
fn two_operations() -> Result<[Stamped; 2], Fail> {
    let pushed = Stamped {
        actor: 1,
        op: Op::Enq(body(5)?),
        first: 1,
        last: Some(10),
        at: Some(8),
        reply: Some(Reply::Done),
    };
    let value = Taken {
        from: 1,
        body: body(5)?,
    };
    let taken = Stamped {
        actor: 2,
        op: Op::Deq,
        first: 11,
        last: Some(19),
        at: Some(15),
        reply: Some(Reply::Value(value)),
    };
    Ok([pushed, taken])
}

const TWO: &[u8] = b"history 2
1 enq 5 first 1 last 10 at 8 reply done
2 deq first 11 last 19 at 15 reply value 1 5
";

fn dequeue(at: Option<u64>, reply: Option<Reply>) -> Stamped {
    Stamped {
        actor: 65535,
        op: Op::Deq,
        first: 18446744073709551615,
        last: None,
        at,
        reply,
    }
}

#[test]
fn prints_two_operations_in_pieces_of_any_size(rt: HostRuntime) -> Result<(), Fail> {
    for piece in [1, 7, 4096] {
        let mut writer = Script::writer(rt.alloc(), 1000, piece)?;
        same(
            &rt,
            print_history(&two_operations()?, &mut writer),
            Ok(()),
            piece,
        );
        same(&rt, writer.written(), TWO, piece);
    }
    Ok(())
}

#[test]
fn prints_each_reply(rt: HostRuntime) -> Result<(), Fail> {
    let value = Taken {
        from: 65535,
        body: body(281_474_976_710_655)?,
    };
    let rows: [(Option<Reply>, &[u8]); 9] = [
        (None, b"-"),
        (Some(Reply::Empty), b"empty"),
        (Some(Reply::Value(value)), b"value 65535 281474976710655"),
        (Some(Reply::Refused(Refusal::NoNode)), b"refused 1"),
        (
            Some(Reply::Refused(Refusal::WornOut(WornWord::Free))),
            b"refused 2 Free",
        ),
        (
            Some(Reply::Refused(Refusal::WornOut(WornWord::Next))),
            b"refused 2 Next",
        ),
        (
            Some(Reply::Refused(Refusal::WornOut(WornWord::Tail))),
            b"refused 2 Tail",
        ),
        (
            Some(Reply::Refused(Refusal::WornOut(WornWord::Head))),
            b"refused 2 Head",
        ),
        (Some(Reply::Refused(Refusal::Busy)), b"refused 3"),
    ];
    for (reply, words) in &rows {
        let mut text = Vec::from_slice(
            rt.alloc(),
            b"history 1\n65535 deq first 18446744073709551615 last - at 9 reply ",
        )?;
        text.extend_from_slice(*words)?;
        text.push(b'\n')?;
        let mut writer = Script::writer(rt.alloc(), 1000, 1000)?;
        same(
            &rt,
            print_history(&[dequeue(Some(9), *reply)], &mut writer),
            Ok(()),
            "what printing answers",
        );
        same(&rt, writer.written(), text.as_slice(), "the text");
    }
    Ok(())
}

#[test]
fn prints_no_operations(rt: HostRuntime) -> Result<(), Fail> {
    let mut writer = WriterSink::new(Vec::new(rt.alloc()));
    same(&rt, print_history(&[], &mut writer), Ok(()), "a vector");
    let mut writer = Script::writer(rt.alloc(), 1000, 1000)?;
    same(&rt, print_history(&[], &mut writer), Ok(()), "a script");
    same(&rt, writer.written(), b"history 0\n".as_slice(), "the text");
    Ok(())
}

#[test]
fn stops_at_a_call_that_fails_or_takes_nothing(rt: HostRuntime) -> Result<(), Fail> {
    let history = two_operations()?;
    for trouble in [Trouble::Failure, Trouble::Standstill] {
        for call in 1..=11u64 {
            let mut writer = Script::writer(rt.alloc(), 1000, 9)?.with(trouble, call);
            let answer = print_history(&history, &mut writer);
            same(&rt, answer, Err(Refusal::Write), call);
            let count = (call as usize - 1) * 9;
            assert!(rt; count <= TWO.len());
            same(&rt, writer.written(), &TWO[..count], call);
        }
    }
    Ok(())
}

#[test]
fn a_script_gives_its_bytes_in_pieces(rt: HostRuntime) -> Result<(), Fail> {
    let mut reader = Script::reader(rt.alloc(), b"abcde", 2)?.with(Trouble::Failure, 2);
    let mut into = [0u8; 3];
    same(&rt, reader.read(&mut into)?, 2, "the first call");
    same(&rt, into, *b"ab\0", "after the first call");
    assert!(rt; reader.read(&mut into).is_err());
    same(
        &rt,
        reader.left(),
        b"cde".as_slice(),
        "after the call that fails",
    );
    same(&rt, reader.read(&mut into)?, 2, "the third call");
    same(&rt, reader.read(&mut into)?, 1, "the fourth call");
    same(&rt, into, *b"ed\0", "after the fourth call");
    same(&rt, reader.read(&mut into)?, 0, "the fifth call");
    Ok(())
}

#[test]
fn a_reader_source_fails_past_its_limit(rt: HostRuntime) -> Result<(), Fail> {
    let mut source = ReaderSource::limited(b"abcde".as_slice(), 4);
    let mut into = [0u8; 3];
    same(&rt, source.read(&mut into)?, 3, "the first call");
    same(&rt, source.read(&mut into)?, 1, "the second call");
    same(&rt, into, *b"dbc", "after the second call");
    assert!(rt; source.read(&mut into).is_err());
    let mut source = ReaderSource::new(b"abc".as_slice());
    same(&rt, source.read(&mut into)?, 3, "with no limit");
    same(&rt, source.read(&mut into)?, 0, "at the end");
    Ok(())
}

#[test]
fn a_writer_sink_hands_its_bytes_on(rt: HostRuntime) -> Result<(), Fail> {
    let mut bytes = Vec::new(rt.alloc());
    let mut sink = WriterSink::new(&mut bytes);
    same(&rt, sink.write(b"ab")?, 2, "two bytes");
    same(&rt, sink.write(b"c")?, 1, "one byte");
    same(&rt, bytes.as_slice(), b"abc".as_slice(), "the bytes");
    Ok(())
}

/// Each refusal, with its line.
const LINES: [(Refusal, &str); 22] = [
    (Refusal::NoNode, "fault 1 NoNode"),
    (Refusal::WornOut(WornWord::Free), "fault 2 WornOut Free"),
    (Refusal::WornOut(WornWord::Next), "fault 2 WornOut Next"),
    (Refusal::WornOut(WornWord::Tail), "fault 2 WornOut Tail"),
    (Refusal::WornOut(WornWord::Head), "fault 2 WornOut Head"),
    (Refusal::Busy, "fault 3 Busy"),
    (Refusal::Memory, "fault 4 Memory"),
    (Refusal::BadSize, "fault 5 BadSize"),
    (Refusal::IdleActor, "fault 6 IdleActor"),
    (Refusal::ActorBusy, "fault 7 ActorBusy"),
    (Refusal::NotHere, "fault 8 NotHere"),
    (Refusal::NoSuchActor, "fault 9 NoSuchActor"),
    (Refusal::Text(8, TextCause::End), "fault 10 Text line 8 End"),
    (
        Refusal::Text(8, TextCause::Form),
        "fault 10 Text line 8 Form",
    ),
    (
        Refusal::Text(8, TextCause::Range),
        "fault 10 Text line 8 Range",
    ),
    (
        Refusal::Text(8, TextCause::Extra),
        "fault 10 Text line 8 Extra",
    ),
    (Refusal::Read, "fault 11 Read"),
    (Refusal::Write, "fault 12 Write"),
    (Refusal::Stranger, "fault 13 Stranger"),
    (Refusal::Double, "fault 14 Double"),
    (Refusal::Lost, "fault 15 Lost"),
    (Refusal::Closed, "fault 16 Closed"),
];

#[test]
fn each_refusal_has_its_line(rt: HostRuntime) -> Result<(), Fail> {
    for (refusal, line) in &LINES {
        let text = format!(in rt.alloc(); "{refusal}")?;
        same(&rt, text.as_str(), *line, "");
    }
    Ok(())
}
