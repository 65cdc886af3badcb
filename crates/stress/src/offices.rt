//! Letters through an office: its senders and its receivers, each in a thread of its own.
use crate::loads::Load;
use crate::tallies::Tally;
use history::Refusal;
use picked::ValueQueue;
use post_office::PostOffice;
use shared_queue::{Receiver, Sender};
use std::alloc::Global;
use std::sync::Wait;
use std::thread;
use std::thread::{Threads, join};

/// How many senders and receivers there are, how many letters each sender sends, and how many places the office has.
#[derive(Clone, Copy)]
pub struct Office {
    pub senders: usize,
    pub receivers: usize,
    pub letters: u64,
    pub places: u32,
}

// Sends the letters of the numbers below so many, in order, and goes; what was sent. A letter doesn't tell its sender.
fn sends<R: Wait, T: Load>(
    rt: &R,
    alloc: Global,
    mut sender: Sender<ValueQueue<T>>,
    from: u64,
    letters: u64,
) -> Tally {
    let mut tally = Tally::new();
    for number in 0..letters {
        let Some(letter) = T::made(alloc, 0, number) else {
            break;
        };
        if sender.send(rt, letter).is_err() {
            break;
        }
        tally.pushes(from, number);
    }
    tally
}

// Reads letters until the last sender has gone; what was taken. Senders have the seats from 1 on.
fn reads<R: Wait, T: Load>(rt: &R, mut receiver: Receiver<ValueQueue<T>>) -> Tally {
    let mut tally = Tally::new();
    for _ in rt.forever() {
        let Ok(Some(letter)) = receiver.recv_or_end(rt) else {
            break;
        };
        let number = letter.value.told().unwrap_or(u64::MAX);
        tally.takes(u64::from(letter.from).wrapping_sub(1), number);
    }
    tally
}

/// Sends all letters through a new office, and reads them: what was sent, and what came.
pub fn posted<R: Threads + Wait + Sync, T: Load>(
    rt: &R,
    alloc: Global,
    asked: Office,
) -> Result<Tally, Refusal> {
    let Office {
        senders,
        receivers,
        letters,
        places,
    } = asked;
    let (_office, senders, receivers) = PostOffice::<ValueQueue<T>>::open(
        alloc, places, senders, receivers,
    )?;
    let mut numbered = Vec::new(alloc);
    let mut from = 0u64;
    for sender in senders {
        numbered.push((sender, from)).or(Err(Refusal::Memory))?;
        from = from.wrapping_add(1);
    }
    let (came, sent) = join(
        rt,
        || thread::map_vec(rt, receivers, &|receiver| reads(rt, receiver)),
        || {
            thread::map_vec(
                rt,
                numbered,
                &|(sender, from)| { sends(rt, alloc, sender, from, letters) },
            )
        },
    );
    let mut all = Tally::new();
    for tally in came.or(Err(Refusal::Memory))? {
        all = all.with(&tally);
    }
    for tally in sent.or(Err(Refusal::Memory))? {
        all = all.with(&tally);
    }
    Ok(all)
}
