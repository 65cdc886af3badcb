//! Several senders and receivers in threads, whose handles come back.
use super::common::{Texts, both};
use crate::tests::comparisons::same;
use crate::tests::sleepers::stories::{Came, receives, sends};
use carriers::Carrier;
use history::Refusal;
use post_office::PostOffice;
use ring_values::RingValues;
use shared_queue::{Receiver, Sender};
use std::alloc::Global;
use std::sync::Wait;
use std::test::Fail;
use std::thread::{Threads, join};
use std::time::Clock;

/// How many letters each sender sends.
const EACH: u64 = 2_000;

/// An office whose letters have come, with its handles: the senders, and the receivers.
type Over<C> = (
    PostOffice<C>,
    (Sender<C>, Sender<C>),
    (Receiver<C>, Receiver<C>),
);

// What comes through this office of two senders and two receivers; it is shut behind the last letter.
fn passed<
    R: Threads + Wait + Clock + Sync,
    C: Carrier<Item = String, Seat: Sync> + Send + Sync + Drop,
>(
    rt: &R,
    alloc: Global,
    mut office: PostOffice<C>,
    mut senders: Vec<Sender<C>>,
    mut receivers: Vec<Receiver<C>>,
) -> Result<(Came, Over<C>), Refusal> {
    let (Some(mut a), Some(mut b), Some(mut c), Some(mut d)) = (
        senders.pop(),
        senders.pop(),
        receivers.pop(),
        receivers.pop(),
    ) else {
        return Err(Refusal::BadSize);
    };
    let (_, (one, other)) = join(
        rt,
        || {
            join(
                rt,
                || sends(rt, alloc, &mut a, EACH),
                || sends(rt, alloc, &mut b, EACH),
            );
            let _ = office.shut(rt);
        },
        || join(rt, || receives(rt, &mut c), || receives(rt, &mut d)),
    );
    Ok((one.with(other), (office, (a, b), (c, d))))
}

/// Each letter comes once, and each sender's in order; the rest is then whole, and nothing is left.
#[test]
fn each_letter_comes_once_and_none_is_missing(rt: HostRuntime) -> Result<(), Fail> {
    let alloc = rt.alloc();
    for places in [1, 64, 10_000] {
        let (office, senders, receivers) = PostOffice::<Texts>::open(alloc, places, 2, 2)?;
        let (came, over) = passed(&rt, alloc, office, senders, receivers)?;
        same(&rt, came, Came::all(EACH), places);
        let (office, (a, b), (c, d)) = over;
        let Ok((mut rest, _end)) = office.close(alloc, both(alloc, a, b)?, both(alloc, c, d)?)
        else {
            return Err(Refusal::Busy.into());
        };
        let found = (
            rest.whole(),
            rest.was_shut(),
            rest.taken(),
            rest.next().is_none(),
        );
        same(&rt, found, (true, true, 2 * EACH, true), places);
    }
    Ok(())
}

#[test]
fn each_letter_comes_once_over_a_ring(rt: HostRuntime) -> Result<(), Fail> {
    let alloc = rt.alloc();
    for places in [1, 64, 10_000] {
        let made = PostOffice::<RingValues<String>>::open_ring(alloc, places, 2, 2)?;
        let (came, _over) = passed(&rt, alloc, made.0, made.1, made.2)?;
        same(&rt, came, Came::all(EACH), places);
    }
    Ok(())
}
