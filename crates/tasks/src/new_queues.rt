//! A new queue of values with the seats of a pool: one for each worker, and one for who offers the tasks.
ghost use Rattle.std.specs.Prelude.{◌≡◌, ◌⊎◌, ◌+◌, ◌≤◌, length, IfOk, IfErr};
ghost use Rattle.counted_ref.specs.Ref.{IsSplit};
ghost use Rattle.node_arena.specs.NewArenas.{value_plan, NewRefused};
ghost use Rattle.value_queue.specs.Queues.{IsQueueSeat, permits_of};
ghost use Rattle.value_queue.specs.ValuesSeen.{known_by};
ghost use Rattle.tasks.specs.Pools.{IsCrewOf};
ghost use Rattle.tasks.specs.Roles.{pool_roles};

use crate::runs::Numbered;
use arena_queue::Algorithm;
use history::Refusal;
use node_arena::{MOST_NODE, Role, Seat};
use std::alloc::Global;
use value_queue::QueueOf;

/// The greatest number of workers: the seats are 65,535 at most.
pub(crate) const MOST_WORKERS: usize = 65_534;

// The roles of so many workers, and of who offers the tasks.
fn roles_for(alloc: Global, workers: usize) -> Result<Vec<Role>, Refusal>
    ensures roles { IfOk result (λ roles. roles.items ≡ pool_roles workers) }
    ensures only_memory { IfErr result (λ refusal. refusal ≡ Refusal.Memory) }
{
    let mut roles = Vec::new(alloc);
    for _ in 0..workers {
        if roles.push(Role::Taker).is_err() {
            return Err(Refusal::Memory);
        }
    }
    match roles.push(Role::Giver) {
        Ok(()) => Ok(roles),
        Err(_) => Err(Refusal::Memory),
    }
}

/// How many nodes so many tasks take, one being always in the queue; as many as there may be, where they take more.
pub(crate) fn nodes_for(tasks: usize) -> u32
    ensures some { 2 ≤ result }
    ensures few { result ≤ 16777214 }
{
    match u32::try_from(tasks) {
        Ok(tasks) if tasks < MOST_NODE => tasks.saturating_add(1).max(2),
        _ => MOST_NODE,
    }
}

/// A queue of values with so many nodes and this greatest count, and the seats of a pool, as `run_on` wants them: one for
/// each of so many workers, and the last one for who offers the tasks.
///
/// Refusals: `BadSize` where one of them is out of its range, of workers 0 to 65,534, else `Memory`. Takes memory for the
/// queue, its seats and their roles, and doesn't wait.
///
/// ```rust
/// let (queue, seats) = pool_queue::<Page, NonBlockingAlgorithm, 24>(alloc, 1024, MOST_COUNT, 4)?;
/// let ran = run_on(rt, alloc, queue, seats, tasks);
/// ```
pub fn pool_queue<T, A: Algorithm<B>, const B: u32>(
    alloc: Global,
    nodes: u32,
    limit: u64,
    workers: usize,
) -> Result<(QueueOf<Numbered<T>, A, B>, Vec<Seat<Numbered<T>>>), Refusal>
    requires split { IsSplit B }
    //= tasks/pool_queue (crew, many, refused): A new queue of a pool has a seat for each worker, which may pop, and one behind
    //=   them, which may push; each has done nothing. It is refused as a new queue of values is, or by `Memory`.
    ensures crew { IfOk result (λ r. IsCrewOf IsQueueSeat permits_of known_by r.0 r.1.items) }
    ensures many { IfOk result (λ r. length r.1.items ≡ workers + 1) }
    ensures refused { IfErr result (λ refusal. (refusal ≡ Refusal.Memory)
        ⊎ NewRefused (value_plan B A.kind nodes limit (pool_roles workers)) refusal) }
{
    let roles = roles_for(alloc, workers)?;
    let (queue, seats) = QueueOf::<Numbered<T>, A, B>::new(alloc, nodes, limit, &roles)?;
    Ok((queue, seats))
}
