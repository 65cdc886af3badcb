//! The threads of a pool.
ghost use Rattle.std.specs.Prelude.{◌≡◌, ◌≤◌, [], length, vec_capacity};
ghost use Rattle.std.specs.List.{All, AllZip};
ghost use denote.Param.Send.{IsSend, IsSync};

use std::thread::{Threads, join};

/// Lets a worker work by each of these seats, in a thread of its own, and leads in this one: what came of that, and of each
/// worker, in the seats' order, once each of them has returned. A worker for which no thread can be made works here, once this
/// thread has led.
#[cycle(crew)]
pub(crate) fn run_crew<
    R: Threads + Sync,
    S: Send + Drop,
    W: Send + Drop,
    L,
    F: Fn(S) -> W + Sync,
    G: FnOnce() -> L,
>(rt: &R, work: &F, mut seats: Vec<S>, lead: G, workers: Vec<W>) -> (L, Vec<W>)
    requires work { All (F.pre work.now) seats.items }
    requires lead { G.pre lead }
    requires unused { workers.items ≡ [] }
    requires room { length seats.items ≤ vec_capacity workers }
    ensures led { G.post lead result.0 }
    ensures back { AllZip (F.post work.now) seats.items result.1.items }
    ensures room { vec_capacity result.1 ≡ vec_capacity workers }
{
    let Some(seat) = seats.pop() else {
        return (lead(), workers);
    };
    let one = move || -> W
        requires { F.pre work.now seat }
        ensures { F.post work.entry.now seat result }
    { work(seat) };
    let others = move || -> (L, Vec<W>)
        requires bounds { IsSync R.row × IsSync F.row × IsSend S.row × IsSend W.row }
        requires work { All (F.pre work.now) seats.items }
        requires lead { G.pre lead }
        requires unused { workers.items ≡ [] }
        requires room { length seats.items ≤ vec_capacity workers }
        ensures led { G.post lead result.0 }
        ensures back { AllZip (F.post work.entry.now) seats.items result.1.items }
        ensures room { vec_capacity result.1 ≡ vec_capacity workers }
    { run_crew(rt, work, seats, lead, workers) };
    let (worked, (led, mut workers)) = join(rt, one, others);
    workers.push_reserved(worked);
    (led, workers)
}
