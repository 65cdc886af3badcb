//! The queue, and a new one.
ghost use Rattle.std.specs.Prelude.{◌≡◌, true, IfOk, IfErr, OnOk};
ghost use Rattle.counted_ref.specs.Ref.{IsSplit};
ghost use Rattle.node_arena.specs.Plans.{IsPlanned};
ghost use Rattle.node_arena.specs.Seats.{carries_of};
ghost use Rattle.node_arena.specs.NewArenas.{value_plan, NewRefused};
ghost use Rattle.arena_queue.specs.Answers.{IsOfKind};

use arena_queue::Algorithm;
use history::Refusal;
use node_arena::{ArenaOf, Role, Seat};
use nonblocking::NonBlockingAlgorithm;
use std::alloc::Global;
use std::marker::PhantomData;
use std::sync::atomic::AtomicU64;
use two_lock::TwoLockAlgorithm;

/// A queue of values that runs an algorithm on an arena whose slots hold them. Threads share it by reference, each with a
/// seat of its own; its calls are those of a `Carrier`.
///
/// Nothing is asked of the values' type. A queue that isn't `Drop`, since its values aren't, has to be closed.
#[derive(Drop)]
pub struct QueueOf<T, A: Algorithm<B>, const B: u32> {
    pub(crate) arena: ArenaOf<B, T>,
    pub(crate) algorithm: PhantomData<A>,
    // Where the next push looks for a slot first: if it is odd, half of it behind that of its node's number. 0 unless a push failed.
    pub(crate) moved: AtomicU64,
    ghost runs: { IsOfKind arena A.kind },
    ghost carries: { carries_of arena ≡ true },
}

/// The non-blocking queue of values, in whose references `B` bits, 16 to 32, hold the number of a node and the others a
/// count.
pub type MsValueQueueOf<T, const B: u32> = QueueOf<T, NonBlockingAlgorithm, B>;

/// The non-blocking queue of values, with 24 bits for the number of a node: up to `MOST_NODE` nodes, and counts up to
/// `MOST_COUNT`.
pub type MsValueQueue<T> = MsValueQueueOf<T, 24>;

/// The two-lock queue of values, in whose references `B` bits, 16 to 32, hold the number of a node and the others a count.
pub type TwoLockValueQueueOf<T, const B: u32> = QueueOf<T, TwoLockAlgorithm, B>;

/// The two-lock queue of values, with 24 bits for the number of a node: up to `MOST_NODE` nodes, and counts up to
/// `MOST_COUNT`.
pub type TwoLockValueQueue<T> = TwoLockValueQueueOf<T, 24>;

impl<T, A: Algorithm<B>, const B: u32> QueueOf<T, A, B> {
    ghost use Rattle.std.specs.Prelude.{map};
    ghost use Rattle.std.specs.List.{All};
    ghost use Rattle.node_arena.specs.Plans.{permits_by};
    ghost use Rattle.value_queue.specs.ValuesSeen.{known_by};
    ghost use Rattle.value_queue.specs.Queues.{permits_of, AreNewOf, IsQueueSeat, IsQueueMade};

    /// A queue with so many nodes and slots, from 2 to the `most_node` of the split, the greatest count `limit`, from 1 to
    /// its `most_count`, and a seat for each role, 1 to 65,535 of them, in their order. One node is always in the queue, so
    /// that it holds a value less than it has nodes.
    ///
    /// Refusals: `BadSize` where one of them is out of its range, else `Memory`. Takes memory for three words and a slot a
    /// node, the seats and their roles, and doesn't wait.
    ///
    /// ```rust
    /// let roles = [Role::Giver, Role::Taker];
    /// let (queue, seats) = MsValueQueue::<String>::new(alloc, 1024, MOST_COUNT, &roles)?;
    /// ```
    pub fn new(
        alloc: Global,
        nodes: u32,
        limit: u64,
        roles: &[Role],
    ) -> Result<(QueueOf<T, A, B>, Vec<Seat<T>>), Refusal>
        requires split { IsSplit B }
        //= values/opening (ok, permits, seats, unused, sized, refused): A new queue of values is as a new arena that
        //=   carries them; each seat may do what its role says, is in no call, and has seen nothing.
        ensures ok { IfOk result (λ r. IsQueueMade A.kind nodes limit roles.now r.0 r.1.items) }
        ensures permits { IfOk result (λ r. permits_of r.0 ≡ permits_by roles.now) }
        ensures seats { IfOk result (λ r. All (IsQueueSeat r.0) r.1.items) }
        ensures unused { IfOk result (λ r. AreNewOf (permits_of r.0) (map known_by r.1.items)) }
        ensures sized { OnOk result (IsPlanned (value_plan B A.kind nodes limit roles.now)) }
        ensures refused { IfErr result (NewRefused (value_plan B A.kind nodes limit roles.now)) }
    {
        let (arena, seats) = ArenaOf::<B, T>::with_slots(alloc, A::kind(), nodes, limit, roles)?;
        Ok((
            QueueOf {
                arena,
                algorithm: PhantomData,
                moved: AtomicU64::new(0),
            },
            seats,
        ))
    }
}
