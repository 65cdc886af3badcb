//! Traces of schedules by chance, each against the calls of a world.
ghost use Rattle.counted_ref.specs.Ref.{IsSplit};

use crate::tests::comparisons::same;
use crate::tests::traces::chance::{Chance, schedule};
use crate::tests::traces::rows::{Access, Row, Told, parse_trace};
use history::{Refusal, Reply, WornWord};
use line_table::Kind;
use run_engine::trace_text;
use schedule_text::{Event, Schedule, print};
use std::alloc::Global;
use std::process::Abort;
use std::test::Fail;
use step_machine::{Move, Stepped, WordName, WorldOf, step_in};
use text_io::Script;

/// How many schedules were traced, how many rows agreed with what a world did, and how many of either didn't.
#[derive(Clone, Copy, Debug, PartialEq, Eq)]
struct Tally {
    schedules: u64,
    rows: u64,
    wrong: u64,
}

// The trace of a schedule, as the engine writes it.
fn traced(alloc: Global, schedule: &Schedule) -> Result<String, Fail> {
    let mut text = Script::writer(alloc, 4000, 4096)?;
    print(schedule, &mut text)?;
    let mut reader = Script::reader(alloc, text.written(), 4096)?;
    let mut writer = Script::writer(alloc, 8000, 4096)?;
    trace_text(alloc, &mut reader, &mut writer)?;
    let trace = std::str::from_utf8(writer.written()).ok().ok_or("no text")?;
    Ok(String::from_str(alloc, trace)?)
}

// The words of a world.
fn words<const B: u32>(alloc: Global, world: &WorldOf<B>) -> Result<Vec<u64>, Fail> {
    let mut words = Vec::new(alloc);
    for index in 0..16 {
        words.push(world.word(index).unwrap_or(0))?;
    }
    Ok(words)
}

// The place of a word.
fn place(word: WordName) -> usize {
    match word {
        WordName::Fresh => 0,
        WordName::Free => 1,
        WordName::Head => 2,
        WordName::Tail => 3,
        WordName::TailLock => 4,
        WordName::HeadLock => 5,
        WordName::Next(node) => (node as usize).saturating_mul(2).saturating_add(4),
        WordName::Value(node) => (node as usize).saturating_mul(2).saturating_add(5),
    }
}

// The number that stands for what is told of a word, where so many bits hold a node.
fn encoded(bits: u32, word: WordName, told: Told) -> Option<u64> {
    let high = match word {
        WordName::Value(_) => 48,
        _ => bits,
    };
    let span = 1u64.checked_shl(high)?;
    match told {
        Told::Number(number) => Some(number),
        Told::Pair(node, count) if high < 48 => count.checked_mul(span)?.checked_add(node),
        Told::Pair(from, body) => from.checked_mul(span)?.checked_add(body),
        Told::Closed(count) => count.checked_mul(span)?.checked_add(span.checked_sub(1)?),
    }
}

// Whether a row tells what a move did: its number, actor, line and reply, and which word was touched and how.
fn tells<const B: u32>(
    row: &Row<'_>,
    world: &WorldOf<B>,
    one: &Move,
    told: &Stepped,
    words: (&[u64], &[u64]),
) -> bool {
    let (line, reply) = match *told {
        Stepped::Began => return false,
        Stepped::Went(line) => (line, None),
        Stepped::Ended(line, reply) => (line, Some(reply)),
    };
    let (actor, touches) = match *one {
        Move::Begin(_, _) => return false,
        Move::Step(actor) => (actor, row.access.is_some()),
        Move::Give(actor) => (actor, row.access.is_none() && words.0 == words.1),
    };
    row.number == world.steps()
        && row.actor == actor
        && row.line == line.name()
        && touches
        && is_reply(row.reply, reply)
        && row
            .access
            .is_none_or(|access| is_access::<B>(access, words))
}

// Whether an access is one of the word that it names, and each other word stayed.
fn is_access<const B: u32>(access: Access, words: (&[u64], &[u64])) -> bool {
    let place = place(access.word);
    let (before, after) = words;
    let others = before.iter().zip(after.iter()).enumerate().all(|(index, (before, after))| index
        == place
        || before == after);
    others
        && before.get(place).copied() == encoded(B, access.word, access.found)
        && after.get(place).copied() == encoded(B, access.word, access.now)
}

// Whether a reply, or none, is told so.
fn is_reply(told: Option<&str>, reply: Option<Reply>) -> bool {
    match (told, reply) {
        (None, None) => true,
        (Some(told), Some(reply)) => is_told(told, reply),
        _ => false,
    }
}

fn is_told(told: &str, reply: Reply) -> bool {
    match reply {
        Reply::Done => told == "done",
        Reply::Empty => told == "empty",
        Reply::Value(value) => match told.strip_prefix("value ") {
            Some(told) => told.split_once(' ').is_some_and(|(from, body)| {
                from.parse::<u16>() == Ok(value.from)
                    && body.parse::<u64>() == Ok(value.body.number())
            }),
            None => false,
        },
        Reply::Refused(Refusal::NoNode) => told == "refused 1",
        Reply::Refused(Refusal::WornOut(WornWord::Free)) => told == "refused 2 Free",
        Reply::Refused(Refusal::WornOut(WornWord::Next)) => told == "refused 2 Next",
        Reply::Refused(Refusal::WornOut(WornWord::Tail)) => told == "refused 2 Tail",
        Reply::Refused(Refusal::WornOut(WornWord::Head)) => told == "refused 2 Head",
        Reply::Refused(Refusal::Busy) => told == "refused 3",
        Reply::Refused(Refusal::Closed) => told == "refused 16",
        Reply::Refused(_) => false,
    }
}

// The move of an event of one move.
fn move_of(event: Event) -> Move {
    match event {
        Event::Begin(actor, op) => Move::Begin(actor, op),
        Event::Step(actor, _) | Event::Steps(actor, _) => Move::Step(actor),
        Event::Give(actor) => Move::Give(actor),
    }
}

// Traces a schedule, and makes its moves on a world beside the rows.
fn judge<const B: u32>(alloc: Global, schedule: &Schedule, tally: &mut Tally) -> Result<(), Fail>
    requires { IsSplit B }
{
    let text = traced(alloc, schedule)?;
    let trace = parse_trace(alloc, &text)?;
    let actors = u32::from(schedule.actors);
    let mut world = WorldOf::<B>::new(
        alloc,
        schedule.kind,
        schedule.nodes,
        schedule.limit,
        actors,
    )?;
    let mut rows = trace.rows.iter();
    for event in &schedule.events {
        let one = move_of(*event);
        let before = words(alloc, &world)?;
        let told = step_in(&mut world, one)?;
        if told == Stepped::Began {
            continue;
        }
        let after = words(alloc, &world)?;
        let right = match rows.next() {
            Some(row) => tells(row, &world, &one, &told, (&before, &after)),
            None => false,
        };
        count(tally, right);
    }
    if rows.next().is_some() || !is_head(&trace.head, schedule) {
        count(tally, false);
    }
    tally.schedules = tally.schedules.saturating_add(1);
    Ok(())
}

fn count(tally: &mut Tally, right: bool) {
    if right {
        tally.rows = tally.rows.saturating_add(1);
    } else {
        tally.wrong = tally.wrong.saturating_add(1);
    }
}

// Whether the header tells the queue, its sizes and its actors.
fn is_head(head: &[&str], schedule: &Schedule) -> bool {
    let kind = match schedule.kind {
        Kind::TwoLock => "queue two-lock",
        Kind::NonBlocking => "queue nonblocking",
    };
    let sizes = [
        ("bits ", u64::from(schedule.bits)),
        ("nodes ", u64::from(schedule.nodes)),
        ("limit ", schedule.limit),
        ("actors ", u64::from(schedule.actors)),
    ];
    head.first() == Some(&"msq trace 1")
        && head.get(1) == Some(&kind)
        && sizes.iter().zip(head.iter().skip(2)).all(|((name, size), line)| {
            line.strip_prefix(*name)
                .is_some_and(|told| told.parse::<u64>() == Ok(*size))
        })
}

// Traces so many schedules with each split.
fn tallied<const B: u32>(
    alloc: Global,
    seed: u64,
    schedules: u64,
    tally: &mut Tally,
) -> Result<(), Fail>
    requires { IsSplit B }
{
    let mut chance = Chance::new(seed);
    for _ in 0..schedules {
        let schedule = schedule::<B>(alloc, &mut chance)?;
        judge::<B>(alloc, &schedule, tally)?;
    }
    Ok(())
}

// Whether each row of many traces tells what a world does.
fn agrees<const B: u32>(rt: &(impl AllocGlobal + Abort), seed: u64) -> Result<(), Fail>
    requires { IsSplit B }
{
    let mut tally = Tally {
        schedules: 0,
        rows: 0,
        wrong: 0,
    };
    tallied::<B>(rt.alloc(), seed, 2_500, &mut tally)?;
    let seen = (tally.schedules, tally.rows > 20_000, tally.wrong);
    same(rt, seen, (2_500, true, 0), B);
    Ok(())
}

#[test]
fn tells_what_a_world_does_with_16_bits(rt: HostRuntime) -> Result<(), Fail> {
    agrees::<16>(&rt, 7)
}

#[test]
fn tells_so_with_24_bits(rt: HostRuntime) -> Result<(), Fail> {
    agrees::<24>(&rt, 1_000_003)
}

#[test]
fn tells_so_with_31_bits(rt: HostRuntime) -> Result<(), Fail> {
    agrees::<31>(&rt, 77_777)
}

#[test]
fn tells_so_with_32_bits(rt: HostRuntime) -> Result<(), Fail> {
    agrees::<32>(&rt, 987_654_321)
}
