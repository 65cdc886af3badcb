//! Seats that are dropped, and queues that are ended before all are.
use super::threads::{last, owned_of, pop, push};
use carriers::ItemOf;
use history::Refusal;
use line_table::Kind;
use owned::Unended;
use std::alloc::Global;
use std::test::Fail;

// The shares that there are with both seats, after one seat couldn't end the queue since the other one has a share, and with
// that one alone; what it pops of the first one's push, which came back, and how many values the queue says were taken.
fn told(alloc: Global, kind: Kind) -> Result<([usize; 3], Option<ItemOf<u64>>, u64), Refusal> {
    let mut owned = owned_of(alloc, kind)?;
    let mut other = last(&mut owned)?;
    let one = last(&mut owned)?;
    let both = one.shares();
    let mut one = match one.close(alloc, Vec::new(alloc)) {
        Err(Unended::InUse(one, _)) => one,
        Err(Unended::Memory(_, _)) => return Err(Refusal::Memory),
        _ => return Err(Refusal::Lost),
    };
    push(&mut one, 5);
    let still = one.shares();
    drop(one);
    let alone = other.shares();
    let front = pop(&mut other);
    match other.close(alloc, Vec::new(alloc)) {
        Ok((rest, _)) => Ok(([both, still, alone], front, rest.taken())),
        Err(Unended::Memory(_, _)) => Err(Refusal::Memory),
        Err(_) => Err(Refusal::Lost),
    }
}

/// A queue lives as long as one of its seats, and ends by the last one; a seat that can't end it comes back.
#[test]
fn a_queue_lives_as_long_as_its_seats(rt: HostRuntime) -> Result<(), Fail> {
    for kind in [Kind::NonBlocking, Kind::TwoLock] {
        let (shares, front, count) = told(rt.alloc(), kind)?;
        let value = front.map(|it| (it.from, it.value));
        assert_eq!(rt; (shares, value, count), ([2, 2, 1], Some((1, 5)), 1));
    }
    Ok(())
}
