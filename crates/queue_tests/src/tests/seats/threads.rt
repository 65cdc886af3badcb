//! Two threads, each with a seat of its own, which holds the queue.
use carriers::ItemOf;
use history::Refusal;
use line_table::Kind;
use node_arena::Role;
use owned::{OwnedSeat, Unended, deal};
use picked::AnyValues;
use std::alloc::Global;
use std::test::Fail;
use std::thread::{Threads, join};

/// How many values each thread pushes.
const MOST: u64 = 1000;

/// More turns than the other thread can be in the way.
const TURNS: u32 = 1_000_000;

/// A seat that holds a queue of values of either kind, of a picked split.
pub type Own = OwnedSeat<AnyValues<u64>>;

/// What a thread popped: how many values, and whether those of each pusher rose.
#[derive(Clone, Copy, Debug, PartialEq, Eq)]
struct Tally {
    last: [u64; 3],
    popped: u64,
    in_order: bool,
}

impl Tally {
    fn takes(&mut self, front: ItemOf<u64>) {
        let from = usize::from(front.from);
        if from < 3 && self.last[from] < front.value {
            self.last[from] = front.value;
        } else {
            self.in_order = false;
        }
        self.popped = self.popped.wrapping_add(1);
    }
}

/// The two seats of a new queue, each of which may push and pop.
pub fn owned_of(alloc: Global, kind: Kind) -> Result<Vec<Own>, Refusal> {
    let roles = [Role::Both, Role::Both];
    let (queue, seats) = AnyValues::new(alloc, kind, 64, &roles)?;
    deal(alloc, queue, seats)
}

/// The last of these seats.
pub fn last(owned: &mut Vec<Own>) -> Result<Own, Refusal> {
    match owned.pop() {
        Some(seat) => Ok(seat),
        None => Err(Refusal::Lost),
    }
}

/// Pushes a value, where the seat may.
pub fn push(seat: &mut Own, value: u64) -> bool {
    seat.may_push() && seat.try_push(value, TURNS).is_ok()
}

/// The value at the front, where the seat may pop and there is one.
pub fn pop(seat: &mut Own) -> Option<ItemOf<u64>> {
    if !seat.may_pop() {
        return None;
    }
    match seat.try_pop(TURNS) {
        Ok(front) => front,
        Err(_) => None,
    }
}

// Pushes a value, and pops after it.
fn round(seat: &mut Own, value: u64, tally: &mut Tally) {
    if !push(seat, value) {
        return;
    }
    if let Some(front) = pop(seat) {
        tally.takes(front);
    }
}

// Pushes 1, 2 and so on, and pops after each push.
fn rounds(mut seat: Own) -> (Own, Tally) {
    let mut tally = Tally {
        last: [0; 3],
        popped: 0,
        in_order: true,
    };
    for value in 1..=MOST {
        round(&mut seat, value, &mut tally);
    }
    (seat, tally)
}

// The rounds of two threads. Then one seat is dropped, and the other one ends the queue: whether both popped in order as many
// values as they pushed, and all of them were taken.
fn both_take_all<R: Threads + Sync>(rt: &R, alloc: Global, kind: Kind) -> Result<bool, Refusal> {
    let mut owned = owned_of(alloc, kind)?;
    let other = last(&mut owned)?;
    let one = last(&mut owned)?;
    let ((one, first), (other, second)) = join(rt, || rounds(one), || rounds(other));
    drop(other);
    match one.close(alloc, Vec::new(alloc)) {
        Ok((mut rest, _)) => Ok(
            first.in_order
                && second.in_order
                && first.popped == MOST
                && second.popped == MOST
                && rest.taken() == 2 * MOST
                && rest.next().is_none(),
        ),
        Err(Unended::Memory(_, _)) => Err(Refusal::Memory),
        Err(_) => Err(Refusal::Lost),
    }
}

/// Over both queues.
#[test]
fn threads_own_their_seats(rt: HostRuntime) -> Result<(), Fail> {
    let mut right = true;
    for kind in [Kind::NonBlocking, Kind::TwoLock] {
        right = both_take_all(&rt, rt.alloc(), kind)? && right;
    }
    assert_eq!(rt; right, true);
    Ok(())
}
