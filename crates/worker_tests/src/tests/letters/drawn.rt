//! Letters of drawn senders with few nodes: senders sleep until there is a node, and the receiver until there is a letter.
use crate::{Came, Load, posted};
use history::Refusal;
use mail_engine::mail_queue;
use node_arena::MOST_COUNT;
use nonblocking::NonBlockingAlgorithm;
use rand::RngExt;
use rand_pcg::Pcg32;
use std::alloc::{Alloc, Global};
use std::env;
use std::rt::Env;
use std::sync::Wait;
use std::test::Fail;
use std::thread::Threads;
use std::time::Clock;
use two_lock::TwoLockAlgorithm;

/// How many runs there are, half of them over each queue, unless `MSQ_RUNS` says how many: by hand there were more.
const RUNS: u64 = 40;

/// The most senders of a run, and the most letters of each.
const SENDERS: u64 = 6;

const LETTERS: u64 = 24;

/// What is drawn.
#[derive(Clone, Copy, Debug)]
struct Sizes {
    nodes: u32,
    limit: u64,
    senders: u16,
    load: Load,
}

impl Sizes {
    // Every fourth run has counts that may wear out, to an odd limit: at an even one a sender may sleep for good.
    fn drawn(draw: &mut Pcg32) -> Sizes {
        let senders = draw.random_range(1..=SENDERS);
        let limit = if draw.random_range(0..4u32) == 0 {
            5 + 2 * draw.random_range(0..LETTERS)
        } else {
            MOST_COUNT
        };
        Sizes {
            nodes: (2 + draw.random_range(0..2 * SENDERS)) as u32,
            limit,
            senders: senders as u16,
            load: Load {
                first: draw.random_range(0..LETTERS) as usize,
                others: draw.random_range(0..LETTERS) as usize,
            },
        }
    }

    // How many letters are due.
    fn due(&self) -> usize {
        let others = usize::from(self.senders).wrapping_sub(1);
        self.load
            .others
            .wrapping_mul(others)
            .wrapping_add(self.load.first)
    }
}

// What came of such letters over a new queue.
fn came<R: Threads + Wait + Clock + Sync>(
    rt: &R,
    alloc: Global,
    number: u64,
    sizes: Sizes,
) -> Result<Came, Refusal> {
    let Sizes {
        nodes,
        limit,
        senders,
        load,
    } = sizes;
    if number % 2 == 0 {
        let (queue, seats, receiver) = mail_queue::<NonBlockingAlgorithm>(
            alloc, nodes, limit, senders,
        )?;
        posted(rt, alloc, queue, seats, receiver, load)
    } else {
        let (queue, seats, receiver) = mail_queue::<TwoLockAlgorithm>(
            alloc, nodes, limit, senders,
        )?;
        posted(rt, alloc, queue, seats, receiver, load)
    }
}

// How many runs are made.
fn runs<R: Env + Alloc>(rt: &R) -> u64 {
    match env::var(rt, "MSQ_RUNS") {
        Ok(text) => text.parse().unwrap_or(RUNS),
        Err(_) => RUNS,
    }
}

/// Each run ends. All letters come, each sender's in order, and the last sender shuts the queue, unless a count wears out.
#[test]
fn letters_of_drawn_senders_come(rt: HostRuntime) -> Result<(), Fail> {
    let mut draw = Pcg32::new(7, 0);
    let mut whole = 0u64;
    let runs = runs(&rt);
    for number in 0..runs {
        let sizes = Sizes::drawn(&mut draw);
        match came(&rt, rt.alloc(), number, sizes) {
            Ok(came) => {
                let found = (came.in_order, came.shut);
                assert_eq!(rt; found, (Some(sizes.due()), true), "run {number}: {sizes:?}");
                whole = whole.wrapping_add(1);
            }
            Err(refusal) => {
                assert!(rt;
                    sizes.limit < MOST_COUNT,
                    "run {number}: {sizes:?}: {refusal}"
                );
            }
        }
    }
    assert!(rt; whole > runs / 2, "{whole} of {runs} runs whole");
    Ok(())
}
