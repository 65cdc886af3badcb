//! New queues with the seats of a fed pool, and a pool over them.
ghost use Rattle.std.specs.Prelude.{◌≡◌, ◌⊎◌, ◌+◌, ◌≤◌, [], length, None, IfOk, IfErr};
ghost use Rattle.counted_ref.specs.Ref.{IsSplit};
ghost use Rattle.node_arena.specs.NewArenas.{value_plan, NewRefused};
ghost use Rattle.value_queue.specs.Queues.{IsQueueSeat, permits_of};
ghost use Rattle.value_queue.specs.ValuesSeen.{known_by};
ghost use Rattle.carriers.specs.Rests.{left_in};
ghost use Rattle.tasks.specs.FedPools.{IsLine, HasFed};
ghost use Rattle.tasks.specs.Roles.{line_roles};

use crate::executor::Unstarted;
use crate::fed_pools::{Fed, Line, Unfed, run_fed};
use crate::feeds::Feed;
use crate::runs::Task;
use arena_queue::Algorithm;
use history::Refusal;
use node_arena::{MOST_COUNT, MOST_NODE, Role, Seat};
use nonblocking::NonBlockingAlgorithm;
use std::alloc::Global;
use std::sync::Wait;
use std::thread;
use std::thread::Threads;
use value_queue::{MsValueQueue, QueueOf};

/// The greatest number of workers: the seats are 65,535 at most.
const MOST_WORKERS: usize = 65_534;

// The roles of so many workers, and of who hands out the tasks.
fn roles_for(alloc: Global, workers: usize) -> Result<Vec<Role>, Refusal>
    requires { workers ≤ 65534 }
    ensures roles { IfOk result (λ roles. roles.items ≡ line_roles workers) }
    ensures only_memory { IfErr result (λ refusal. refusal ≡ Refusal.Memory) }
{
    let mut roles = Vec::new(alloc);
    for _ in 0..workers + 1 {
        if roles.push(Role::Both).is_err() {
            return Err(Refusal::Memory);
        }
    }
    Ok(roles)
}

/// A queue of values with so many nodes and this greatest count, with a seat for each of so many workers and a further one
/// behind them, as `run_fed` wants two, one for the tasks and one for their results.
///
/// Refusals: `BadSize` where nodes or count are out of their range, else `Memory`. Takes memory for the queue, its seats and
/// their roles, and doesn't wait.
///
/// ```rust
/// let tasks = line::<Numbered<Page>, NonBlockingAlgorithm, 24>(alloc, 1024, MOST_COUNT, 4)?;
/// ```
pub fn line<N, A: Algorithm<B>, const B: u32>(
    alloc: Global,
    nodes: u32,
    limit: u64,
    workers: usize,
) -> Result<Line<QueueOf<N, A, B>, Seat<N>>, Refusal>
    requires split { IsSplit B }
    requires few { workers ≤ 65534 }
    //= tasks/line (line, many, refused): A new line has a seat for each worker and one behind them; each may push and pop,
    //=   and has done nothing. It is refused as a new queue of values is, or by `Memory`.
    ensures line { IfOk result (IsLine IsQueueSeat permits_of known_by) }
    ensures many { IfOk result (λ line. length line.seats.items ≡ workers + 1) }
    ensures refused { IfErr result (λ refusal. (refusal ≡ Refusal.Memory)
        ⊎ NewRefused (value_plan B A.kind nodes limit (line_roles workers)) refusal) }
{
    let roles = roles_for(alloc, workers)?;
    let (queue, seats) = QueueOf::<N, A, B>::new(alloc, nodes, limit, &roles)?;
    Ok(Line { queue, seats })
}

// The line of a non-blocking queue of so many nodes, whose counts go up to the greatest one.
fn lasting_line<N>(
    alloc: Global,
    nodes: u32,
    workers: usize,
) -> Result<Line<MsValueQueue<N>, Seat<N>>, Refusal>
    requires some { 2 ≤ nodes }
    requires few { nodes ≤ 16777214 }
    requires workers { workers ≤ 65534 }
    ensures line { IfOk result (IsLine IsQueueSeat permits_of known_by) }
    ensures many { IfOk result (λ line. length line.seats.items ≡ workers + 1) }
    ensures only_memory { IfErr result (λ refusal. refusal ≡ Refusal.Memory) }
{
    line::<N, NonBlockingAlgorithm, 24>(alloc, nodes, MOST_COUNT, workers)
}

// How many workers there are: as many as are asked for; else as many as run at once here, but for the caller's thread.
fn workers_for<R: Threads>(rt: &R, asked: Option<usize>) -> usize
    ensures { result ≤ 65534 }
{
    let workers = match asked {
        Some(workers) => workers,
        None => match thread::available_parallelism(rt) {
            Ok(count) => count.get() - 1,
            Err(_) => 0,
        },
    };
    workers.min(MOST_WORKERS)
}

// How many nodes a queue takes that has room for so many values: one is always in it.
fn nodes_for(room: u32) -> u32
    ensures some { 2 ≤ result }
    ensures few { result ≤ 16777214 }
{
    room.saturating_add(1).clamp(2, MOST_NODE)
}

/// Runs the tasks that a feed gives, in so many threads and in the caller's; where no number is said, in as many as run at
/// once here. So many tasks may wait to be run, and so many results to be told, each at most.
///
/// It ends once the feed gives no task and each result is told, as [`run_fed`] does, over two new queues.
///
/// Refused by `Memory` alone, before the feed is asked; it comes back. Takes memory for two queues, their seats and what the
/// workers bring back, and none while tasks are run; starts threads, and waits.
///
/// ```rust
/// let fed = run_feed(rt, alloc, Crawl::from(start), None, 1000)?;
/// println!(rt; "{} pages", fed.feed.pages)?;
/// ```
pub fn run_feed<R: Threads + Wait + Sync, T: Task, F: Feed<T>>(
    rt: &R,
    alloc: Global,
    feed: F,
    workers: Option<usize>,
    room: u32,
) -> Result<Fed<F, T>, Unstarted<F>>
    requires { F.stands feed [] [] }
    //= tasks/run_feed (told, all, kept, idle, feed, only_memory): Over two new queues a feed and its tasks end as by `run_fed`; of
    //=   workers nothing is said. `run_feed` is refused by `Memory` alone, and then gives the feed back as it was.
    ensures told { IfOk result (HasFed T.answers F.stands) }
    ensures all { IfOk result (λ fed. fed.refused ≡ None → left_in fed.left ≡ []) }
    ensures kept { IfOk result (λ fed. F.kept fed.feed ≡ F.kept feed) }
    ensures idle { IfOk result (λ fed. fed.refused ≡ None → F.idle fed.feed) }
    ensures feed { IfErr result (λ unstarted. unstarted.given ≡ feed) }
    ensures only_memory { IfErr result (λ unstarted. unstarted.refusal ≡ Refusal.Memory) }
{
    let workers = workers_for(rt, workers);
    let nodes = nodes_for(room);
    let tasks = match lasting_line(alloc, nodes, workers) {
        Ok(tasks) => tasks,
        Err(refusal) => return Err(Unstarted {
            refusal,
            given: feed,
        }),
    };
    let results = match lasting_line(alloc, nodes, workers) {
        Ok(results) => results,
        Err(refusal) => return Err(Unstarted {
            refusal,
            given: feed,
        }),
    };
    match run_fed(rt, alloc, feed, tasks, results) {
        Ok(fed) => Ok(fed),
        Err(unfed) => {
            let Unfed {
                feed,
                tasks: _,
                results: _,
            } = unfed;
            let refusal = Refusal::Memory;
            Err(Unstarted {
                refusal,
                given: feed,
            })
        }
    }
}
