//! A world behind a lock, which threads share.
ghost use Rattle.std.specs.Prelude.{length};
ghost use Rattle.std.specs.Sync.Mutex.{mutex_guard_value};
ghost use Rattle.step_machine.specs.Machine.{IsSized, IsMade, IsReached};

use crate::world::WorldOf;
use std::sync::{Mutex, MutexGuard, Wait};

/// A world that threads share. Who wants to make a move locks it, and calls `step_in` on the world that the guard
/// lends.
pub type BenchOf<const B: u32> = Mutex<WorldOf<B>>;

/// A shared world with 24 bits for the number of a node.
pub type Bench = BenchOf<24>;

/// Locks a bench, and lends its world until the guard is dropped. Whatever other threads did before, the world is one
/// that begins, steps and give moves led to, so every law of worlds holds of it.
///
/// Waits while another thread has the lock. Takes no memory.
///
/// ```rust
/// let mut world = on_bench(rt, &bench);
/// let told = step_in(&mut world, Move::Step(1))?;
/// ```
pub fn on_bench<'b, R: Wait, const B: u32>(
    rt: &R,
    bench: &'b BenchOf<B>,
) -> MutexGuard<'b, WorldOf<B>>
    //= both/benches (made, reached, sized): The world that `on_bench` lends, once it has got the bench's lock, is
    //=   reachable by its calls, with sizes in range.
    ensures made { IsMade (mutex_guard_value result) }
    ensures reached { IsReached (mutex_guard_value result) }
    ensures sized { IsSized (mutex_guard_value result).setup (length (mutex_guard_value result).actors) }
{
    let world = bench.lock(rt);
    world.is_made();
    world
}
