//! Work of threads over every front door, to be timed; its tests tell that each value comes once, in order and whole.
#![tactic(auto)]

mod free_nodes;
mod letters;
mod loads;
mod offices;
mod queues;
mod seats;
mod sleepers;
mod tallies;
#[cfg(test)]
mod tests;
mod works;

use crate::free_nodes::{all_rounds, seats_of};
use crate::letters::came;
use crate::offices::{Office, posted};
use crate::queues::{Asked, Carried, kind_of, worked_on};
use crate::sleepers::{Task, told_of};
use crate::works::works_of;
use line_table::{Kind, QueueKind};
use node_arena::{MOST_COUNT, Role};
use std::alloc::Global;
use std::env::Args;
use std::rt::Clock;
use std::sync::Wait;
use std::thread::Threads;
use std::time::Instant;
use std::{env, io};

/// The words that the program understands.
const USAGE: &str = "stress queue two-lock|non-blocking|ring [kept] [numbers|word|words] \
    one|four|pair|two|three|one-three|four-burst|strict|taker|giver COUNT\n\
    stress letters two-lock|non-blocking|ring SENDERS LETTERS\n\
    stress office texts|numbers SENDERS RECEIVERS LETTERS PLACES\n\
    stress nodes one|four PAIRS\n\
    stress sleepers two-lock|non-blocking wake|idle|plain|blocking COUNT";

// The next word, as a number.
fn number_in(words: &mut Args<Global>) -> Option<u64> {
    words.next()?.as_str().parse().ok()
}

// The nanoseconds that pushes and pops of threads on a queue take.
fn time_queue<R: Threads + Wait + Clock + Sync>(
    rt: &R,
    alloc: Global,
    words: &mut Args<Global>,
) -> Option<u128> {
    let kind = kind_of(words.next()?.as_str())?;
    let mut word = words.next()?;
    let keeps = word.as_str() == "kept";
    if keeps {
        word = words.next()?;
    }
    let carried = Carried::of_name(word.as_str());
    if carried.is_some() {
        word = words.next()?;
    }
    let asked = Asked {
        values: if word.as_str() == "four-burst" {
            512
        } else {
            64
        },
        keeps,
        works: works_of(word.as_str()),
        count: number_in(words)?,
    };
    let start = Instant::now(rt).ok()?;
    worked_on(rt, alloc, kind, carried.unwrap_or(Carried::Numbers), asked).ok()?;
    Some(start.elapsed(rt).ok()?.as_nanos())
}

// The nanoseconds that it takes to send and take letters over a mailbox.
fn time_letters<R: Threads + Wait + Clock + Sync>(
    rt: &R,
    alloc: Global,
    words: &mut Args<Global>,
) -> Option<u128> {
    let kind = kind_of(words.next()?.as_str())?;
    let senders = u16::try_from(number_in(words)?).ok()?;
    let letters = usize::try_from(number_in(words)?).ok()?;
    let came = came(rt, alloc, kind, senders, letters).ok()?;
    came.in_order?;
    Some(came.time?.as_nanos())
}

// The nanoseconds that it takes to send and read letters through an office; none where one was lost or out of order.
fn time_office<R: Threads + Wait + Clock + Sync>(
    rt: &R,
    alloc: Global,
    words: &mut Args<Global>,
) -> Option<u128> {
    let kind = words.next()?;
    let asked = Office {
        senders: usize::try_from(number_in(words)?).ok()?,
        receivers: usize::try_from(number_in(words)?).ok()?,
        letters: number_in(words)?,
        places: u32::try_from(number_in(words)?).ok()?,
    };
    let start = Instant::now(rt).ok()?;
    let tally = if kind.as_str() == "texts" {
        posted::<R, String>(rt, alloc, asked)
    } else {
        posted::<R, u64>(rt, alloc, asked)
    };
    let time = start.elapsed(rt).ok()?.as_nanos();
    let due = asked.letters.wrapping_mul(asked.senders as u64);
    if tally.ok()?.is_right(due) {
        Some(time)
    } else {
        None
    }
}

// The nanoseconds that it takes threads to take nodes and give them back.
fn time_nodes<R: Threads + Clock + Sync>(
    rt: &R,
    alloc: Global,
    words: &mut Args<Global>,
) -> Option<u128> {
    let roles: &[Role] = match words.next()?.as_str() {
        "one" => &[Role::Both],
        _ => &[Role::Both; 4],
    };
    let pairs = u32::try_from(number_in(words)?).ok()?;
    let (arena, seats) = seats_of(alloc, 9, MOST_COUNT, roles)?;
    let start = Instant::now(rt).ok()?;
    all_rounds(rt, alloc, &arena, seats, pairs)?;
    Some(start.elapsed(rt).ok()?.as_nanos())
}

// What threads that sleep tell.
fn time_sleepers<R: Threads + Wait + Clock + Sync>(
    rt: &R,
    alloc: Global,
    words: &mut Args<Global>,
) -> Option<Vec<u64>> {
    let QueueKind::Linked(kind) = kind_of(words.next()?.as_str())? else {
        return None;
    };
    let task = Task::named(words.next()?.as_str())?;
    let count = u32::try_from(number_in(words)?).ok()?;
    told_of(rt, alloc, kind, task, count).ok()
}

// A little of each, of which the same comes each time.
fn print_few<R: Threads + Wait + Clock + Sync + Print>(rt: &R, alloc: Global) -> io::Result<()> {
    for name in ["two-lock", "non-blocking", "ring"] {
        let Some(kind) = kind_of(name) else {
            continue;
        };
        for what in ["numbers", "word", "words"] {
            let Some(carried) = Carried::of_name(what) else {
                continue;
            };
            let asked = Asked {
                values: 64,
                keeps: true,
                works: works_of("four"),
                count: 100,
            };
            let sum = worked_on(rt, alloc, kind, carried, asked).unwrap_or(0);
            println!(rt; "{name}, {what}: what was taken adds up to {sum}")?;
        }
        if let Ok(came) = came(rt, alloc, kind, 4, 10) {
            println!(rt; "{name}: {} letters in order", came.in_order.unwrap_or(0))?;
        }
    }
    let asked = Office {
        senders: 4,
        receivers: 2,
        letters: 10,
        places: 4,
    };
    let is_right = matches!(posted::<R, String>(rt, alloc, asked), Ok(it) if it.is_right(40));
    println!(rt; "an office: each letter once, in order: {is_right}")?;
    let woken = match told_of(rt, alloc, Kind::NonBlocking, Task::Wake, 10) {
        Ok(times) => times.len(),
        Err(_) => 0,
    };
    println!(rt; "a thread that sleeps: {woken} values came")
}

fn main(rt: HostRuntime) -> io::Result<()> {
    let mut words = env::args(&rt)?;
    words.next();
    let Some(mode) = words.next() else {
        return print_few(&rt, rt.alloc());
    };
    let (alloc, words) = (rt.alloc(), &mut words);
    let time = match mode.as_str() {
        "queue" => time_queue(&rt, alloc, words),
        "letters" => time_letters(&rt, alloc, words),
        "office" => time_office(&rt, alloc, words),
        "nodes" => time_nodes(&rt, alloc, words),
        "sleepers" => {
            for number in time_sleepers(&rt, alloc, words).into_iter().flatten() {
                println!(rt; "{number}")?;
            }
            return Ok(());
        }
        _ => None,
    };
    match time {
        Some(time) => println!(rt; "{time}"),
        None => println!(rt; "{USAGE}"),
    }
}
