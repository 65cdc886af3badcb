//! Jobs back from their text.
ghost use Rattle.std.specs.Prelude.{◌≡◌, IfOk, IfErr};
ghost use Rattle.job_results.specs.JobTexts.{jobs_text, AreJobsInRange, IsFirstFaultOfJobs};
ghost use Rattle.job_results.specs.JobReading.{said_jobs};

use crate::jobs::Job;
use crate::lines::{count_of, job_of, owned};
use history::Refusal;
use std::alloc::Global;
use text_io::{ItemError, ListingFormat, TextCause, parse_listing};

/// The format of jobs.
struct JobFormat;

impl ListingFormat for JobFormat {
    ghost use Rattle.std.specs.Prelude.{ℕ};
    ghost use Rattle.job_results.specs.JobTexts.{SaidJob, said_job, jobs_listing};

    type Header = u64;

    type Item = Job;

    ghost HeaderSaid = { ℕ };

    ghost ItemSaid = { SaidJob };

    ghost listing = { jobs_listing };

    ghost header_said = { λ count. count };

    ghost item_said = { said_job };

    fn parse_header(line: &[u8]) -> Result<u64, TextCause> {
        count_of(line)
    }

    fn count(header: &u64) -> u64 {
        *header
    }

    fn parse_item(alloc: Global, _: &u64, line: &[u8]) -> Result<Job, ItemError> {
        match job_of(line) {
            Ok(read) => owned(alloc, read),
            Err(cause) => Err(ItemError::Wrong(cause)),
        }
    }
}

/// The jobs that a text is, in the order of its lines.
///
/// It is refused with `Memory` where room for a job or its text is refused, and with `Text` exactly
/// where the text is none of jobs: with the number of its first faulty line, from 1, and what is wrong
/// with it. It goes over the text once, takes memory for the jobs read so far, and doesn't wait.
pub fn parse_jobs(alloc: Global, text: &[u8]) -> Result<Vec<Job>, Refusal>
    //= texts/parse (text, range, err)
    ensures text { IfOk result (λ jobs. text.now ≡ jobs_text (said_jobs jobs.items)) }
    ensures range { IfOk result (λ jobs. AreJobsInRange (said_jobs jobs.items)) }
    ensures err { IfErr result (IsFirstFaultOfJobs text.now) }
{
    let (_, jobs) = parse_listing::<JobFormat>(alloc, text)?;
    Ok(jobs)
}
