//! A queue of values of one to three words, each in its place.
ghost use Rattle.std.specs.Prelude.{◌≡◌, ◌≤◌, true, false, map, IfOk, IfErr};
ghost use Rattle.std.specs.List.{All};
ghost use Rattle.ring_queue.specs.Plans.{permits_by};
ghost use Rattle.ring_queue.specs.NewRings.{IsMadeOf, RingRefused};
ghost use Rattle.value_queue.specs.Queues.{AreNewOf};
ghost use Rattle.ring_values.specs.Words.{placed_of, width_of, words_known};

use carriers::{Carrier, ItemOf, Unpushed};
use history::Refusal;
use ring_queue::{RingQueue, Role, Seat};
use std::alloc::Global;

/// A bounded queue of values of `K` words on a ring, 1 to 3. Threads share it by reference, each with a seat of its own; its calls
/// are those of a `Carrier`. A value lies in its place, so a push needs no slot.
#[derive(Drop)]
pub struct RingWords<const K: usize> {
    pub(crate) ring: RingQueue,
    ghost placed: { placed_of ring ≡ true },
    ghost wide: { width_of ring ≡ K },
}

impl<const K: usize> RingWords<K> {
    ghost use Rattle.ring_values.specs.WordQueues.{ring_in, permits_at, IsSeat};

    /// A queue with room for `most` values, one at least, and a seat for each role, 1 to `MOST_SEATS` of them, in their order. Its slots
    /// are the least power of two that `most` fits in; its places go up to `limit`, from the number of slots to 2^62 - 1.
    ///
    /// Refusals: `BadSize` where one of them is out of its range, else `Memory`. Takes memory for two words a slot, four where values
    /// are of more than one, the seats and their roles, and doesn't wait.
    ///
    /// ```rust
    /// let roles = [Role::Giver, Role::Taker];
    /// let (queue, seats) = RingWords::<3>::new(alloc, 1024, (1 << 62) - 1, &roles)?;
    /// ```
    pub fn new(
        alloc: Global,
        most: u32,
        limit: u64,
        roles: &[Role],
    ) -> Result<(RingWords<K>, Vec<Seat>), Refusal>
        requires some { 1 ≤ K }
        requires few { K ≤ 3 }
        //= ring_values/words (ok, permits, seats, unused, refused): A new queue of words is a new ring whose values lie in their places;
        //=   each seat may do what its role says, is in no call, and has seen nothing.
        ensures ok { IfOk result
            (λ r. IsMadeOf false true K most limit roles.now (ring_in r.0) r.1.items) }
        ensures permits { IfOk result (λ r. permits_at r.0 ≡ permits_by roles.now) }
        ensures seats { IfOk result (λ r. All (IsSeat r.0) r.1.items) }
        ensures unused { IfOk result (λ r. AreNewOf (permits_at r.0) (map words_known r.1.items)) }
        ensures refused { IfErr result (RingRefused false most limit roles.now) }
    {
        let (ring, seats) = RingQueue::<()>::with_words(alloc, K, most, limit, roles)?;
        Ok((RingWords { ring }, seats))
    }
}

impl<const K: usize> Carrier for RingWords<K> {
    ghost use Rattle.ring_queue.specs.Causes.{PushCaused, PopCaused, ShutCaused};
    ghost use Rattle.ring_queue.specs.OneProof.{IsWordSeat-prop};
    ghost use Rattle.ring_values.specs.Words.{words_known, sound_words};
    ghost use Rattle.ring_values.specs.WordQueues.{plan_in, ring_in, permits_at, IsSeat};

    type Item = [u64; K];

    type Seat = Seat;

    ghost is_seat = { IsSeat };

    ghost permits = { permits_at };

    ghost known = { words_known };

    //= ring_values/word_causes (push_cause, pop_cause, shut_cause): A call of a queue of words is refused for the causes of one of a
    //=   ring of numbers.
    ghost push_cause = { λ q. PushCaused (plan_in q) };

    ghost pop_cause = { λ q. PopCaused (plan_in q) };

    ghost shut_cause = { λ q s t turns refusal. ShutCaused s t refusal };

    ghost sound = { λ q s h. sound_words (ring_in q) s h };

    ghost closed_alike = { λ _ _ _ _ cause. cause };

    ghost seat_prop = { λ q s. IsWordSeat-prop (ring_in q) s };

    /// Refusals: those of a push of a number, with their causes. Takes no memory and doesn't wait.
    fn try_push(
        &self,
        seat: &mut Seat,
        value: [u64; K],
        turns: u32,
    ) -> Result<(), Unpushed<[u64; K]>> {
        match self.ring.push_words(seat, &value, turns) {
            Ok(()) => Ok(()),
            Err(refusal) => Err(Unpushed { refusal, value }),
        }
    }

    /// Refusals: those of a pop of a number, with their causes. Takes no memory and doesn't wait.
    fn try_pop(&self, seat: &mut Seat, turns: u32) -> Result<Option<ItemOf<[u64; K]>>, Refusal> {
        let mut value = [0u64; K];
        match self.ring.pop_words(seat, &mut value, turns) {
            Ok(Some(taken)) => Ok(Some(ItemOf {
                from: taken.from,
                value,
            })),
            Ok(None) => Ok(None),
            Err(refusal) => Err(refusal),
        }
    }

    /// One step. Refusals: `Closed` where the queue was shut before. Takes no memory and doesn't wait.
    fn try_shut(&self, seat: &mut Seat, turns: u32) -> Result<(), Refusal> {
        let _ = turns;
        self.ring.shut_words(seat)
    }

    fn meet(&self, one: &mut Seat, other: &mut Seat) {
        self.ring.meet_words(one, other);
    }

    fn may_push(&self, seat: &Seat) -> bool {
        match seat.role() {
            Role::Giver | Role::Both => true,
            Role::Taker => false,
        }
    }

    fn may_pop(&self, seat: &Seat) -> bool {
        match seat.role() {
            Role::Taker | Role::Both => true,
            Role::Giver => false,
        }
    }
}
