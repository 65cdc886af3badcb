//! The result of a job.
ghost use Rattle.std.specs.Prelude.{◌≡◌};
ghost use Rattle.job_results.specs.Jobs as jobs;

use crate::jobs::{Job, Value, value_of};

/// A job with its number and its value. The value is the job's: no other one can be made.
#[derive(Clone, Copy, Debug)]
pub struct JobResult<'a> {
    number: u64,
    job: &'a Job,
    value: Value,
    ghost right: { value ≡ jobs.value_of job.now },
}

impl<'a> JobResult<'a> {
    ghost use Rattle.job_results.specs.Results.{number_in, job_in, value_in};

    /// The result of this job, with this number. Takes no memory.
    pub fn new(number: u64, job: &'a Job) -> JobResult<'a>
        //= jobs/result (number, job, value): A result has the number and the job that it was made with, and that job's
        //=   value: no other one can be made.
        ensures number { number_in result ≡ number }
        ensures job { job_in result ≡ job.now }
        ensures value { value_in result ≡ jobs.value_of job.now }
    {
        JobResult {
            number,
            job,
            value: value_of(job),
        }
    }

    /// The job's number. Takes no memory.
    pub fn number(&self) -> u64
        //= jobs/result
        ensures { result ≡ number_in self.now }
    {
        self.number
    }

    /// The job. Takes no memory.
    pub fn job(&self) -> &'a Job
        //= jobs/result
        ensures { result.now ≡ job_in self.now }
    {
        self.job
    }

    /// The job's value. Takes no memory.
    pub fn value(&self) -> Value
        //= jobs/result (value, right)
        ensures value { result ≡ value_in self.now }
        ensures right { result ≡ jobs.value_of (job_in self.now) }
    {
        self.value
    }
}
