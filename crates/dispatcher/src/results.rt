//! The results that workers brought back, in the order of the jobs.
ghost use Rattle.std.specs.Prelude.{◌≡◌, ◌⊎◌, ◌+◌, ◌<◌, ◌≤◌, ◌++◌, ◌∷◌, [], map, length, replicate, None, Err, vec_capacity, IfOk, IfErr};
ghost use Rattle.job_results.specs.Gathers.{jobs_in, found_in};
ghost use Rattle.job_results.specs.Jobs.{job_rows};
ghost use Rattle.job_results.specs.Results.{number_in, row_of, HaveJobs};
ghost use Rattle.dispatcher.specs.Workers.{StopsWorkers};
ghost use Rattle.std.specs.List.{All};
ghost use Rattle.job_results.specs.GatheredResults.{IsListed};
ghost use Rattle.dispatcher.specs.Goings.{OnlyAdds, Fills, AreListed, Came, numbers_in, seats_in};

use crate::crews::JobsRun;
use crate::workers::Back;
use history::Refusal;
use job_results::{Gather, JobResult};
use std::alloc::Global;

/// The results of all jobs, in their order, and the seats, the giver's first.
#[derive(Drop)]
pub struct Dispatched<'a, S> {
    pub results: Vec<JobResult<'a>>,
    pub seats: Vec<S>,
}

/// Room for the seats of so many workers and of the submitter.
pub(crate) fn seats_for<S: Drop>(alloc: Global, workers: usize) -> Result<Vec<S>, Refusal>
    ensures none { IfOk result (λ seats. seats.items ≡ []) }
    ensures room { IfOk result (λ seats. workers < vec_capacity seats) }
    ensures only_memory { IfErr result (λ refusal. refusal ≡ Refusal.Memory) }
{
    let mut seats = Vec::new(alloc);
    match seats.reserve(workers.saturating_add(1)) {
        Ok(()) => Ok(seats),
        Err(_) => Err(Refusal::Memory),
    }
}

// Adds these results. One that is refused changes nothing: its job has a result, or is still missing.
fn add_all<'a>(gather: &mut Gather<'a>, results: Vec<JobResult<'a>>)
    ensures jobs { jobs_in gather.new ≡ jobs_in gather.old }
    ensures adds { OnlyAdds (found_in gather.old) (map number_in results.entry.items)
        (found_in gather.new) }
    ensures fills { All (IsListed (jobs_in gather.old)) results.entry.items
        → Fills (found_in gather.old) (map number_in results.entry.items) (found_in gather.new) }
{
    for result in results {
        let _ = gather.add(result);
    }
}

// Adds what each of these workers did; their seats go behind the others.
fn add_each<'a, S: Drop>(
    gather: &mut Gather<'a>,
    workers: Vec<Back<'a, S>>,
    mut seats: Vec<S>,
) -> Vec<S>
    requires { length seats.items + length workers.items ≤ vec_capacity seats }
    ensures jobs { jobs_in gather.new ≡ jobs_in gather.old }
    ensures adds { OnlyAdds (found_in gather.old) (numbers_in workers.entry.items) (found_in gather.new) }
    ensures fills { AreListed (jobs_in gather.old) workers.entry.items
        → Fills (found_in gather.old) (numbers_in workers.entry.items) (found_in gather.new) }
    ensures seats { result.items ≡ seats.items ++ seats_in workers.entry.items }
{
    for back in workers {
        let Back {
            seat,
            results,
            end: _,
        } = back;
        add_all(gather, results);
        seats.push_reserved(seat);
    }
    seats
}

/// The results of all jobs, in their order, and the seats. The gather has no result yet, and there is room for the seats.
///
/// Refusals: `Lost` where a job has no result, since no worker brought one back, then `Memory`.
pub(crate) fn gathered<'a, S: Drop>(
    mut gather: Gather<'a>,
    run: JobsRun<'a, S>,
    mut seats: Vec<S>,
) -> Result<Dispatched<'a, S>, Refusal>
    requires new { found_in gather ≡ replicate (length (jobs_in gather)) None }
    requires none { seats.items ≡ [] }
    requires room { length run.workers.items < vec_capacity seats }
    ensures rows { IfOk result (λ d. map row_of d.results.items ≡ job_rows 1 (jobs_in gather.entry)) }
    ensures same { IfOk result (λ d. HaveJobs d.results.items (jobs_in gather.entry)) }
    ensures seats { IfOk result
        (λ d. d.seats.items ≡ run.entry.giver.seat ∷ seats_in run.entry.workers.items) }
    ensures came { IfOk result
        (λ d. Came (length (jobs_in gather.entry)) (numbers_in run.entry.workers.items)) }
    ensures refusal { IfErr result StopsWorkers }
    ensures lost { AreListed (jobs_in gather.entry) run.entry.workers.items → result ≡ Err Refusal.Lost
        → Came (length (jobs_in gather.entry)) (numbers_in run.entry.workers.items) → ⊥ }
{
    let JobsRun { giver, workers } = run;
    seats.push_reserved(giver.seat);
    let seats = add_each(&mut gather, workers, seats);
    match gather.finish() {
        Ok(results) => Ok(Dispatched { results, seats }),
        Err(refusal) => Err(refusal),
    }
}
