//! Reading the lines of jobs.
ghost use Rattle.std.specs.Prelude.{◌≡◌, ℕ, List, IfOk, IfErr};
ghost use Rattle.text_io.specs.LineReadings.{Reads, ReadsBack, ReadsLine};
ghost use Rattle.job_results.specs.JobTexts.{Add, Mul, Div, Len, said_job, IsCount};
ghost use Rattle.job_results.specs.JobReading.{said_of, AreTwo, AreBoth, SaysCount};
ghost use Rattle.job_results.specs.JobReading.{KeepsText, KeepsJob, ReadsWordsOfJob, ReadsJob};

use crate::jobs::Job;
use std::alloc::Global;
use text_io::{ItemError, TextCause, Words, counted, kept_or_range, printable_in};

const MOST_JOBS: u64 = 1_000_000;

const LONGEST_TEXT: usize = 200;

/// A job as its line says it: the text still lies in the line.
#[derive(Drop)]
pub enum ReadJob<'a> {
    Add(u64, u64),
    Mul(u64, u64),
    Div(u64, u64),
    Len(&'a str),
}

/// How many jobs the first line says that there are.
pub fn count_of(line: &[u8]) -> Result<u64, TextCause>
    ensures { ReadsLine (SaysCount line.now) IsCount result }
{
    counted(line, b"jobs", MOST_JOBS)
}

/// The job that a line says.
pub fn job_of(line: &[u8]) -> Result<ReadJob<'_>, TextCause>
    ensures { ReadsJob line.now result }
{
    kept_or_range(parts_of(Words::of(line)))
}

fn parts_of(mut words: Words) -> Result<Option<ReadJob>, TextCause>
    ensures { ReadsWordsOfJob words.entry result }
{
    let Some(word) = words.next_word() else {
        return Err(TextCause::Form);
    };
    if word == b"add".as_slice() {
        return Ok(sum(numbers_of(words)?));
    }
    if word == b"mul".as_slice() {
        return Ok(product(numbers_of(words)?));
    }
    if word == b"div".as_slice() {
        return Ok(quotient(numbers_of(words)?));
    }
    if word != b"len".as_slice() {
        return Err(TextCause::Form);
    }
    let Some(text) = words.remaining() else {
        return Err(TextCause::Form);
    };
    Ok(length(printable_in(text, LONGEST_TEXT)?))
}

fn sum(two: Option<(u64, u64)>) -> Option<ReadJob<'static>>
    ensures { (given : ℕ × ℕ) → ReadsBack AreBoth given two → KeepsJob (Add given.0 given.1) result }
{
    let (a, b) = two?;
    Some(ReadJob::Add(a, b))
}

fn product(two: Option<(u64, u64)>) -> Option<ReadJob<'static>>
    ensures { (given : ℕ × ℕ) → ReadsBack AreBoth given two → KeepsJob (Mul given.0 given.1) result }
{
    let (a, b) = two?;
    Some(ReadJob::Mul(a, b))
}

fn quotient(two: Option<(u64, u64)>) -> Option<ReadJob<'static>>
    ensures { (given : ℕ × ℕ) → ReadsBack AreBoth given two → KeepsJob (Div given.0 given.1) result }
{
    let (a, b) = two?;
    Some(ReadJob::Div(a, b))
}

fn length(text: Option<&str>) -> Option<ReadJob>
    ensures { (given : List ℕ) → KeepsText given text.entry → KeepsJob (Len given) result }
{
    Some(ReadJob::Len(text?))
}

/// Two numbers, to the end of the line.
fn numbers_of(mut words: Words) -> Result<Option<(u64, u64)>, TextCause>
    ensures { Reads (AreTwo words.entry) AreBoth result }
{
    let a = words.number(0, u64::MAX)?;
    let b = words.number(0, u64::MAX)?;
    words.expect_end()?;
    Ok(a.zip(b))
}

/// The job with a text of its own.
pub fn owned(alloc: Global, read: ReadJob) -> Result<Job, ItemError>
    ensures ok { IfOk result (λ job. said_job job ≡ said_of read.entry) }
    ensures err { IfErr result (λ error. error ≡ ItemError.Memory) }
{
    match read {
        ReadJob::Add(a, b) => Ok(Job::Add(a, b)),
        ReadJob::Mul(a, b) => Ok(Job::Mul(a, b)),
        ReadJob::Div(a, b) => Ok(Job::Div(a, b)),
        ReadJob::Len(text) => match String::from_str(alloc, text) {
            Ok(text) => Ok(Job::Len(text)),
            Err(_) => Err(ItemError::Memory),
        },
    }
}
