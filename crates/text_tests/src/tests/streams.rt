//! Schedules from sources that give few bytes a call, or fail.
use crate::tests::comparisons::same;
use crate::tests::schedule_faults::{FAULTS, FAULTS_OF_TWO, LINES, LINES_OF_TWO, text_with};
use crate::tests::schedules::TEXTS;
use history::{Body, Op, Refusal};
use schedule_text::{Event, EventStream, print, read_schedule};
use std::alloc::Global;
use std::process::Abort;
use std::test::Fail;
use text_io::{Script, TextCause, Trouble};

const PIECES: [usize; 3] = [1, 7, 4096];

const LATE_FAULT: &str = "msq schedule 1
queue nonblocking
nodes 3
limit 100
actors 2
events 3
begin 1 enq 5
steps 1 11
begin 1 enq 007
";

#[test]
fn pieces_of_any_length_have_the_same_faults(rt: HostRuntime) -> Result<(), Fail> {
    for (number, line, cause) in &FAULTS {
        let text = text_with(rt.alloc(), &LINES, *number, line)?;
        let want = Some(Refusal::Text(*number, *cause));
        told_by_pieces(&rt, rt.alloc(), &text, want, line)?;
    }
    for (number, line, cause) in &FAULTS_OF_TWO {
        let text = text_with(rt.alloc(), &LINES_OF_TWO, *number, line)?;
        let want = Some(Refusal::Text(*number, *cause));
        told_by_pieces(&rt, rt.alloc(), &text, want, line)?;
    }
    Ok(())
}

fn told_by_pieces(
    rt: &impl Abort,
    alloc: Global,
    text: &[u8],
    want: Option<Refusal>,
    line: &str,
) -> Result<(), Fail> {
    for piece in PIECES {
        let mut reader = Script::reader(alloc, text, piece)?;
        let told = read_schedule(alloc, &mut reader).err();
        same(rt, told, want, format_args!("{line} by {piece}"));
    }
    Ok(())
}

#[test]
fn reads_each_schedule_from_pieces(rt: HostRuntime) -> Result<(), Fail> {
    for text in &TEXTS {
        read_by_pieces(&rt, rt.alloc(), text)?;
    }
    Ok(())
}

fn read_by_pieces(rt: &impl Abort, alloc: Global, text: &str) -> Result<(), Fail> {
    for piece in PIECES {
        let mut reader = Script::reader(alloc, text.as_bytes(), piece)?;
        let schedule = read_schedule(alloc, &mut reader)?;
        let mut writer = Script::writer(alloc, 1000, 4096)?;
        print(&schedule, &mut writer)?;
        same(rt, writer.written(), text.as_bytes(), piece);
    }
    Ok(())
}

#[test]
fn long_lines_are_judged_whole(rt: HostRuntime) -> Result<(), Fail> {
    let cases = [
        ("nodes ", "9", TextCause::Range),
        ("nodes 3", " ", TextCause::Form),
        ("nodes 0", "0", TextCause::Form),
        ("", "x", TextCause::Form),
    ];
    for (start, more, cause) in cases {
        let mut line = String::from_str(rt.alloc(), start)?;
        for _ in 0..10_000 {
            line.push_str(more)?;
        }
        let text = text_with(rt.alloc(), &LINES, 3, line.as_str())?;
        let mut reader = Script::reader(rt.alloc(), &text, 4096)?;
        let told = read_schedule(rt.alloc(), &mut reader).err();
        same(&rt, told, Some(Refusal::Text(3, cause)), start);
    }
    Ok(())
}

#[test]
fn a_late_fault_is_answered_again(rt: HostRuntime) -> Result<(), Fail> {
    let body = Body::new(5).ok_or("a body")?;
    let events = [Event::Begin(1, Op::Enq(body)), Event::Steps(1, 11)];
    for piece in PIECES {
        let mut reader = Script::reader(rt.alloc(), LATE_FAULT.as_bytes(), piece)?;
        let mut stream = EventStream::start(&mut reader)?;
        for event in &events {
            same(&rt, stream.next(&mut reader)?, Some(*event), piece);
        }
        for _ in 0..2 {
            let want = Some(Refusal::Text(9, TextCause::Form));
            same(&rt, stream.next(&mut reader).err(), want, piece);
        }
    }
    Ok(())
}

// The text has 110 bytes: 16 calls of 7 bytes, and one that tells the end.
#[test]
fn a_call_that_fails_is_told_in_place_of_a_fault(rt: HostRuntime) -> Result<(), Fail> {
    for call in 1..=17u64 {
        let reader = Script::reader(rt.alloc(), LATE_FAULT.as_bytes(), 7)?;
        let mut reader = reader.with(Trouble::Failure, call);
        let told = read_schedule(rt.alloc(), &mut reader).err();
        same(&rt, told, Some(Refusal::Read), call);
    }
    Ok(())
}
