//! The search in which pushes wait: many small histories, each against a search of all orders.
use crate::tests::chance::Chance;
use crate::tests::placements::comparisons::same;
use crate::tests::placements::drawn::{Kind, by_chance};
use crate::tests::placements::orders::{has_order, is_order};
use std::alloc::Global;
use std::process::Abort;
use std::test::Fail;
use waiting_orders::{Found, searched};

/// The most bytes that states may take.
const ROOM: u64 = 1 << 30;

const REPEATED: Kind = Kind {
    most: 8,
    bodies: 2,
    has_shuts: false,
};

const SHUT: Kind = Kind {
    has_shuts: true,
    ..REPEATED
};

// How many histories are ones of a queue by both searches, with an order that is one, and by neither, and of how many that
// isn't so.
fn tallied(alloc: Global, histories: u64, kind: Kind) -> Result<(u64, u64, u64), Fail> {
    let mut chance = Chance::new(7);
    let mut yes: u64 = 0;
    let mut no: u64 = 0;
    let mut wrong: u64 = 0;
    for _ in 0..histories {
        let history = by_chance(alloc, &mut chance, kind)?;
        let has_order = has_order(alloc, &history)?;
        match searched(alloc, &history, ROOM)? {
            Found::Order(order) if has_order && is_order(alloc, &history, &order)? => {
                yes = yes.saturating_add(1);
            }
            Found::Nothing if !has_order => no = no.saturating_add(1),
            Found::Order(_) | Found::Nothing | Found::Room => wrong = wrong.saturating_add(1),
        }
    }
    Ok((yes, no, wrong))
}

fn agrees(rt: &(impl AllocGlobal + Abort), kind: Kind) -> Result<(), Fail> {
    let (yes, no, wrong) = tallied(rt.alloc(), 3_000, kind)?;
    same(rt, (wrong, yes > 1_000, no > 100), (0, true, true), no);
    Ok(())
}

#[test]
fn waiting_pushes_decide_where_values_are_repeated(rt: HostRuntime) -> Result<(), Fail> {
    agrees(&rt, REPEATED)
}

#[test]
fn waiting_pushes_decide_where_the_queue_is_shut(rt: HostRuntime) -> Result<(), Fail> {
    agrees(&rt, SHUT)
}
