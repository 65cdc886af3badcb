//! The shared words as one table of numbers.
ghost use Rattle.counted_ref.specs.Ref.{IsSplit};

use super::events::Event::{self, Begin, Steps};
use super::expected::Call::{Deq, Enq, Shut};
use super::expected::Word::{self, Number, Reference};
use super::trials::{NON_BLOCKING, Sizes, TWO_LOCK, TrialOf};
use history::Refusal;
use std::alloc::Global;
use std::process::Abort;
use std::test::Fail;

const PUSH_AND_POP: [Event; 4] = [Begin(1, Enq(5)), Steps(1, 10), Begin(2, Deq), Steps(2, 9)];

/// Words of these worlds: the null reference with the count 1, node 1 and node 2 with the count 1, and a closed end with the count 1.
const NULL_1: Word = Reference(65_536, 16_777_216, 4_294_967_296);

const NODE_1: Word = Reference(65_537, 16_777_217, 4_294_967_297);

const NODE_2: Word = Reference(65_538, 16_777_218, 4_294_967_298);

const CLOSED: Word = Reference(131_071, 33_554_431, 8_589_934_591);

/// The values 5 and 6 of actor 1.
const FIVE: Word = Number(281_474_976_710_661);

const SIX: Word = Number(281_474_976_710_662);

const ZERO: Word = Number(0);

const ONE: Word = Number(1);

const TWO: Word = Number(2);

const THREE: Word = Number(3);

const AT_FIRST: [Word; 12] = [
    ONE, ZERO, ONE, ONE, ZERO, ZERO, ZERO, ZERO, ZERO, ZERO, ZERO, ZERO,
];

const OF_TWO_LOCK: [Word; 12] = [
    TWO, NODE_1, NODE_2, TWO, ZERO, ZERO, ZERO, ZERO, ZERO, FIVE, ZERO, ZERO,
];

const OF_NON_BLOCKING: [Word; 12] = [
    TWO, NODE_1, NODE_2, NODE_2, ZERO, ZERO, NULL_1, ZERO, ZERO, FIVE, ZERO, ZERO,
];

const SHUT: [Event; 10] = [
    Begin(1, Enq(5)),
    Steps(1, 10),
    Begin(2, Shut),
    Steps(2, 4),
    Begin(1, Enq(6)),
    Steps(1, 8),
    Begin(2, Deq),
    Steps(2, 9),
    Begin(2, Deq),
    Steps(2, 4),
];

/// The closed end stands in the last `next`.
const OF_SHUT: [Word; 12] = [
    THREE, NODE_1, NODE_2, NODE_2, ZERO, ZERO, NULL_1, ZERO, CLOSED, FIVE, ZERO, SIX,
];

/// What is tried: what a world is made of, what it goes through, and all its words then.
type Row = (&'static str, Sizes, &'static [Event], &'static [Word]);

const WORDS: [Row; 4] = [
    ("two-lock, at first", TWO_LOCK, &[], &AT_FIRST),
    ("two-lock", TWO_LOCK, &PUSH_AND_POP, &OF_TWO_LOCK),
    (
        "non-blocking",
        NON_BLOCKING,
        &PUSH_AND_POP,
        &OF_NON_BLOCKING,
    ),
    ("non-blocking, shut", NON_BLOCKING, &SHUT, &OF_SHUT),
];

fn worlds_tell<const B: u32>(rt: &impl Abort, alloc: Global, rows: &[Row]) -> Result<(), Refusal>
    requires split { IsSplit B }
{
    for (name, sizes, events, words) in rows {
        let mut trial = TrialOf::<B>::new(alloc, name, *sizes)?;
        trial.goes(rt, events);
        trial.tells(rt, words);
    }
    Ok(())
}

/// Each of these worlds has these words with the fewest bits for the number of a node, with the usual ones
/// and with the most.
#[test]
fn a_world_tells_its_words(rt: HostRuntime) -> Result<(), Fail> {
    worlds_tell::<16>(&rt, rt.alloc(), &WORDS)?;
    worlds_tell::<24>(&rt, rt.alloc(), &WORDS)?;
    worlds_tell::<32>(&rt, rt.alloc(), &WORDS)?;
    Ok(())
}
