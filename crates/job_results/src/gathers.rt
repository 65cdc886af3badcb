//! Gathering the results of a list of jobs.
ghost use Rattle.std.specs.Prelude.{◌≡◌, ◌+◌, ◌<◌, ◌⊎◌, ◌↔◌, true, map, length, vec_len, replicate, is_none, IfOk, IfErr, IfSome, IfNone, OnOk, OnSome, OnErr, Some, None, Err};
ghost use Rattle.std.specs.List.{filter_map, list_any};
ghost use Rattle.job_results.specs.Jobs.{job_rows};
ghost use Rattle.job_results.specs.Results.{row_of, HaveJobs};
ghost use Rattle.job_results.specs.GatheredResults.{are_found, Names, MissesOne};

use crate::jobs::Job;
use crate::results::JobResult;
use history::Refusal;
use std::alloc::{AllocError, Global};

/// The results of a list of jobs, at most one a job. The first job has number 1.
#[derive(Drop)]
pub struct Gather<'a> {
    alloc: Global,
    jobs: &'a [Job],
    found: Vec<Option<JobResult<'a>>>,
    ghost sized: { vec_len found ≡ length jobs.now },
    ghost right: { are_found 1 jobs.now found.items ≡ true },
}

impl<'a> Gather<'a> {
    ghost use Rattle.job_results.specs.Gathers.{jobs_in, found_in, Adds, RefusesToAdd};

    /// No results yet.
    ///
    /// Refused by `Memory` alone. Takes memory for a result of each job.
    pub fn new(alloc: Global, jobs: &'a [Job]) -> Result<Gather<'a>, Refusal>
        //= jobs/gathering (jobs, none, only_memory): A gathering begins with no result, and has at most one a job. Or
        //=   Memory.
        ensures jobs { IfOk result (λ gather. jobs_in gather ≡ jobs.now) }
        ensures none { IfOk result (λ gather. found_in gather ≡ replicate (length jobs.now) None) }
        ensures only_memory { IfErr result (λ refusal. refusal ≡ Refusal.Memory) }
    {
        let Ok(found) = none_of(alloc, jobs.len()) else {
            return Err(Refusal::Memory);
        };
        Ok(Gather { alloc, jobs, found })
    }

    // The place of a result in the list, where the job there is the result's.
    fn place_of(&self, number: u64, job: &Job) -> Option<usize>
        ensures place { IfSome result (λ place. number ≡ place + 1) }
        ensures within { IfSome result (λ place. place < length (jobs_in self.now)) }
        ensures named { OnSome result (Names (jobs_in self.now) number job.now) }
        ensures stranger { IfNone result (¬ (Names (jobs_in self.now) number job.now)) }
    {
        let place = (number as usize).checked_sub(1)?;
        if job == self.jobs.get(place)? {
            Some(place)
        } else {
            None
        }
    }

    /// Adds a result.
    ///
    /// Refusals: `Stranger` where its number is of no job in the list, or of another job than its own; then `Double` where
    /// that job has a result. All is then as before. Takes no memory.
    pub fn add(&mut self, added: JobResult<'a>) -> Result<(), Refusal>
        //= jobs/adding (jobs, added, refused, refusal): A result is added exactly in its place, or refused, and then
        //=   nothing changes: `Stranger` where its number is of no job in the list or of another than its own, else
        //=   `Double` where that job has a result.
        ensures jobs { jobs_in self.new ≡ jobs_in self.old }
        //= jobs/gathering
        ensures added { OnOk result (Adds self.old added.entry self.new) }
        ensures refused { OnErr result (self.new ≡ self.old) }
        ensures refusal { IfErr result (RefusesToAdd self.old added.entry) }
    {
        let Some(place) = self.place_of(added.number(), added.job()) else {
            return Err(Refusal::Stranger);
        };
        if self.found[place].is_some() {
            return Err(Refusal::Double);
        }
        self.found[place] = Some(added);
        Ok(())
    }

    /// The results, in the order of the jobs.
    ///
    /// Refusals: `Lost` where a job has no result, then `Memory`. Takes memory for the list of results.
    pub fn finish(self) -> Result<Vec<JobResult<'a>>, Refusal>
        //= jobs/finished (rows, same, all, lost, refusal): What is finished are the results added, in the order of the
        //=   jobs, with each job's number, kind and value; `Lost` comes exactly where one is missing, and else only
        //=   `Memory`.
        ensures rows { IfOk result (λ results.
            map row_of results.items ≡ job_rows 1 (jobs_in self.entry)) }
        ensures same { IfOk result (λ results. HaveJobs results.items (jobs_in self.entry)) }
        ensures all { IfOk result (λ results. map Some results.items ≡ found_in self.entry) }
        ensures lost { (result ≡ Err Refusal.Lost) ↔ MissesOne (found_in self.entry) }
        ensures refusal { IfErr result
            (λ refusal. (refusal ≡ Refusal.Lost) ⊎ (refusal ≡ Refusal.Memory)) }
    {
        if misses_one(&self.found) {
            return Err(Refusal::Lost);
        }
        match present(self.alloc, &self.found) {
            Ok(results) => Ok(results),
            Err(_) => Err(Refusal::Memory),
        }
    }
}

// No results, in so many places.
fn none_of<'a>(alloc: Global, places: usize) -> Result<Vec<Option<JobResult<'a>>>, AllocError>
    ensures { IfOk result (λ found. found.items ≡ replicate places None) }
{
    vec![in alloc; None; places]
}

// Whether a job has no result.
fn misses_one(found: &[Option<JobResult>]) -> bool
    ensures { result ≡ list_any is_none found.now }
{
    found.iter().any(|place| place.is_none())
}

// The results that are there.
fn present<'a>(
    alloc: Global,
    found: &[Option<JobResult<'a>>],
) -> Result<Vec<JobResult<'a>>, AllocError>
    ensures { IfOk result (λ results. results.items ≡ filter_map (λ o. o) found.now) }
{
    found.iter().filter_map(|place| *place).collect(alloc)
}
