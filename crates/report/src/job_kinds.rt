//! The names of kinds of jobs, and how many jobs there are of each.
ghost use Rattle.std.specs.Prelude.{◌≡◌, map, IfOk, IfErr};
ghost use Rattle.job_results.specs.Jobs.{kind_of};
ghost use Rattle.job_results.specs.Results.{job_in};
ghost use Rattle.report.specs.JobKinds.{same_job_kind};
ghost use Rattle.report.specs.Counts.{counts};

use crate::count_rows::Named;
use history::Refusal;
use indexmap::IndexMap;
use job_results::{JobKind, JobResult};
use std::alloc::Global;

impl Named for JobKind {
    ghost use Rattle.report.specs.JobKinds.{job_kind_text};

    ghost name_text = { job_kind_text };

    fn name(self) -> &'static [u8] {
        match self {
            JobKind::Add => b"add",
            JobKind::Mul => b"mul",
            JobKind::Div => b"div",
            JobKind::Len => b"len",
        }
    }
}

// How many results there are of each kind of job, in the order in which each kind first occurs.
pub(crate) fn job_counts_of(
    alloc: Global,
    results: &[JobResult],
) -> Result<IndexMap<JobKind, u64>, Refusal>
    ensures ok { IfOk result (λ found.
        found.entries ≡ counts same_job_kind (map (λ r. kind_of (job_in r)) results.now)) }
    ensures only_memory { IfErr result (λ refusal. refusal ≡ Refusal.Memory) }
{
    let mut counts = IndexMap::new(alloc);
    for result_of in results {
        let kind = result_of.job().kind();
        let number = counts.get(&kind).copied().unwrap_or(0);
        let Ok(_) = counts.insert(kind, number + 1) else {
            return Err(Refusal::Memory);
        };
    }
    Ok(counts)
}
