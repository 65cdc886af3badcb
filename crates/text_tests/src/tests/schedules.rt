use crate::tests::comparisons::same;
use history::{Body, Op};
use line_table::{Kind, Line};
use schedule_text::{Event, Schedule, Version, parse, print};
use std::alloc::Global;
use std::process::Abort;
use std::test::Fail;
use text_io::Script;

const WIDEST: &str = "msq schedule 1
queue nonblocking
nodes 16777214
limit 1099511627775
actors 65535
events 4
begin 65535 enq 281474976710655
step 65535 D10
steps 65535 1000000
give 65535
";

const LEAST: &str = "msq schedule 1
queue two-lock
nodes 2
limit 1
actors 1
events 2
begin 1 enq 0
step 1 B6
";

// The greatest sizes where 16 bits hold a node.
const WIDEST_OF_16: &str = "msq schedule 2
queue two-lock
bits 16
nodes 65534
limit 281474976710655
actors 65535
events 5
begin 65535 enq 281474976710655
begin 65535 shut
step 65535 S9
steps 65535 1000000
give 65535
";

// The greatest sizes where 32 bits hold a node.
const WIDEST_OF_32: &str = "msq schedule 2
queue nonblocking
bits 32
nodes 4294967294
limit 4294967295
actors 1
events 0
";

// A shut behind a push, and a push behind that.
const SHUTS: &str = "msq schedule 2
queue nonblocking
bits 24
nodes 3
limit 100
actors 2
events 10
begin 1 enq 5
steps 1 10
begin 2 shut
step 2 S1
step 2 S2
step 2 S3
step 2 S4
begin 1 enq 6
steps 1 8
begin 2 deq
";

/// Texts that are right, with each kind of event.
pub const TEXTS: [&str; 5] = [WIDEST, LEAST, WIDEST_OF_16, WIDEST_OF_32, SHUTS];

#[test]
fn prints_each_schedule_as_it_was_read(rt: HostRuntime) -> Result<(), Fail> {
    for text in &TEXTS {
        prints_as_read(&rt, rt.alloc(), text)?;
    }
    Ok(())
}

fn prints_as_read(rt: &impl Abort, alloc: Global, text: &str) -> Result<(), Fail> {
    let schedule = parse(alloc, text.as_bytes())?;
    let mut writer = Script::writer(alloc, 1000, 7)?;
    print(&schedule, &mut writer)?;
    same(rt, writer.written(), text.as_bytes(), "");
    Ok(())
}

#[test]
fn reads_each_event(rt: HostRuntime) -> Result<(), Fail> {
    let schedule = parse(rt.alloc(), WIDEST.as_bytes())?;
    same(
        &rt,
        (schedule.version, schedule.kind, schedule.bits),
        (Version::One, Kind::NonBlocking, 24),
        "",
    );
    same(
        &rt,
        (schedule.nodes, schedule.limit, schedule.actors),
        (16_777_214, 1_099_511_627_775, 65_535),
        "",
    );
    let body = Body::new(281_474_976_710_655).ok_or("a body")?;
    let events = [
        Event::Begin(65_535, Op::Enq(body)),
        Event::Step(65_535, Line::D10),
        Event::Steps(65_535, 1_000_000),
        Event::Give(65_535),
    ];
    same(&rt, schedule.events.as_slice(), events.as_slice(), "");
    Ok(())
}

#[test]
fn reads_how_many_bits_hold_a_node(rt: HostRuntime) -> Result<(), Fail> {
    let schedule = parse(rt.alloc(), WIDEST_OF_16.as_bytes())?;
    same(
        &rt,
        (schedule.version, schedule.kind, schedule.bits),
        (Version::Two, Kind::TwoLock, 16),
        "",
    );
    same(
        &rt,
        (schedule.nodes, schedule.limit, schedule.actors),
        (65_534, 281_474_976_710_655, 65_535),
        "",
    );
    let schedule = parse(rt.alloc(), WIDEST_OF_32.as_bytes())?;
    same(
        &rt,
        (schedule.bits, schedule.nodes, schedule.limit),
        (32, 4_294_967_294, 4_294_967_295),
        "",
    );
    Ok(())
}

#[test]
fn reads_a_shut_and_its_lines(rt: HostRuntime) -> Result<(), Fail> {
    let schedule = parse(rt.alloc(), SHUTS.as_bytes())?;
    let shut = [
        Event::Begin(2, Op::Shut),
        Event::Step(2, Line::S1),
        Event::Step(2, Line::S2),
        Event::Step(2, Line::S3),
        Event::Step(2, Line::S4),
    ];
    for (at, event) in shut.iter().enumerate() {
        same(
            &rt,
            schedule.events.get(at.saturating_add(2)),
            Some(event),
            at,
        );
    }
    Ok(())
}

#[test]
fn prints_a_schedule_made_by_hand(rt: HostRuntime) -> Result<(), Fail> {
    let mut events = Vec::new(rt.alloc());
    events.push(Event::Begin(1, Op::Deq))?;
    events.push(Event::Give(1))?;
    let schedule = Schedule {
        version: Version::One,
        kind: Kind::TwoLock,
        bits: 24,
        nodes: 2,
        limit: 100,
        actors: 1,
        events,
    };
    let mut writer = Script::writer(rt.alloc(), 1000, 1000)?;
    print(&schedule, &mut writer)?;
    let text =
        "msq schedule 1\nqueue two-lock\nnodes 2\nlimit 100\nactors 1\nevents 2\nbegin 1 deq\ngive 1\n";
    same(&rt, writer.written(), text.as_bytes(), "");
    Ok(())
}
