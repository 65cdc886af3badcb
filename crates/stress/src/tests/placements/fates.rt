//! Many small histories, each against a search of all orders.
use crate::tests::chance::Chance;
use crate::tests::placements::comparisons::same;
use crate::tests::placements::drawn::{Kind, by_chance};
use crate::tests::placements::orders::has_order;
use history::Stamped;
use placing::{Placed, place};
use std::alloc::Global;
use std::process::Abort;
use std::test::Fail;

/// How many histories were placed, and were not, by a reason; and of how many the search of this crate says otherwise or nothing was
/// found.
#[derive(Clone, Copy, Debug, PartialEq, Eq)]
struct Tally {
    placed: u64,
    impossible: u64,
    wrong: u64,
}

/// Each value is pushed at most once, and nothing shuts the queue.
const ONCE: Kind = Kind {
    most: 9,
    bodies: 9,
    has_shuts: false,
};

const REPEATED: Kind = Kind { bodies: 2, ..ONCE };

const SHUT: Kind = Kind {
    has_shuts: true,
    ..ONCE
};

fn tallied(alloc: Global, seed: u64, histories: u64, kind: Kind) -> Result<Tally, Fail> {
    let mut chance = Chance::new(seed);
    let mut tally = Tally {
        placed: 0,
        impossible: 0,
        wrong: 0,
    };
    for _ in 0..histories {
        let history = by_chance(alloc, &mut chance, kind)?;
        judge(alloc, &history, &mut tally)?;
    }
    Ok(tally)
}

fn judge(alloc: Global, history: &[Stamped], tally: &mut Tally) -> Result<(), Fail> {
    let has_order = has_order(alloc, history)?;
    match place(alloc, history, 1 << 30)? {
        Placed::History(_) if has_order => tally.placed = tally.placed.saturating_add(1),
        Placed::Impossible(_) if !has_order => {
            tally.impossible = tally.impossible.saturating_add(1);
        }
        Placed::History(_) | Placed::Impossible(_) | Placed::Open(_) => {
            tally.wrong = tally.wrong.saturating_add(1);
        }
    }
    Ok(())
}

// Whether what is answered of many histories is what the search says, by points or by reasons.
fn agrees(rt: &(impl AllocGlobal + Abort), seed: u64) -> Result<(), Fail> {
    let tally = tallied(rt.alloc(), seed, 25_000, ONCE)?;
    let seen = tally.placed > 15_000 && tally.impossible > 1_000;
    same(rt, (tally.wrong, seen), (0, true), seed);
    Ok(())
}

// The same of histories for which it searches.
fn agrees_by_a_search(
    rt: &(impl AllocGlobal + Abort),
    histories: u64,
    kind: Kind,
) -> Result<(), Fail> {
    let tally = tallied(rt.alloc(), 7, histories, kind)?;
    let placed = tally.placed.saturating_mul(5) > histories.saturating_mul(2);
    let impossible = tally.impossible.saturating_mul(50) > histories;
    same(
        rt,
        (tally.wrong, placed, impossible),
        (0, true, true),
        tally.impossible,
    );
    Ok(())
}

#[test]
fn answers_where_values_are_repeated(rt: HostRuntime) -> Result<(), Fail> {
    agrees_by_a_search(&rt, 5_000, REPEATED)
}

#[test]
fn answers_where_the_queue_is_shut(rt: HostRuntime) -> Result<(), Fail> {
    agrees_by_a_search(&rt, 10_000, SHUT)
}

#[test]
fn answers_as_a_search_of_all_orders(rt: HostRuntime) -> Result<(), Fail> {
    agrees(&rt, 7)
}

#[test]
fn answers_so_from_a_second_seed(rt: HostRuntime) -> Result<(), Fail> {
    agrees(&rt, 1_000_003)
}

#[test]
fn answers_so_from_a_third_seed(rt: HostRuntime) -> Result<(), Fail> {
    agrees(&rt, 77_777)
}

#[test]
fn answers_so_from_a_fourth_seed(rt: HostRuntime) -> Result<(), Fail> {
    agrees(&rt, 987_654_321)
}
