//! Texts of jobs, as they are parsed.
use history::Refusal;
use job_results::{Job, parse_jobs};
use std::alloc::Global;
use text_io::Parser;

/// Texts of jobs.
pub struct JobTexts;

impl Parser for JobTexts {
    ghost use Rattle.text_io.specs.Listings.{First, ListingDue, ListingLine, listing_grammar};
    ghost use Rattle.job_results.specs.JobTexts.{AreJobsInRange, SaidJob, jobs_listing, jobs_text};
    ghost use Rattle.job_results.specs.JobReading.{said_jobs};
    ghost use Rattle.std.specs.Prelude.{ℕ};

    type Parsed = Vec<Job>;

    ghost State = { ListingDue ℕ };

    ghost Said = { ListingLine ℕ SaidJob };

    ghost grammar = { listing_grammar jobs_listing };

    ghost first = { First };

    ghost text_of = { λ jobs. jobs_text (said_jobs jobs.items) };

    ghost in_range = { λ jobs. AreJobsInRange (said_jobs jobs.items) };

    fn parse(alloc: Global, text: &[u8]) -> Result<Vec<Job>, Refusal> {
        parse_jobs(alloc, text)
    }
}
