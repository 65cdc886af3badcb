//! What no clause says: that texts of jobs are read where memory is there, tables of results as they stand in a file, and the faults of known texts.
use crate::tests::comparisons::same;
use history::{Refusal, TextCause};
use job_results::{Job, JobResult, parse_jobs};
use report::results_table;
use std::alloc::{AllocError, Global};
use std::test::Fail;
use text_io::Script;

const FOUR: &[u8] = b"jobs 4
add 2 3
mul 4 5
div 7 0
len abc
";

const FOUR_TABLE: &[u8] = b"results 4
       1 add 5
       2 mul 20
       3 div by-zero
       4 len 3
add              1
mul              1
div              1
len              1
";

const WIDE: &[u8] = b"jobs 8
len \x20
mul 18446744073709551615 18446744073709551615
add 18446744073709551615 18446744073709551615
div 7 2
len\x20
div 0 0
mul 0 0
len  ~ add 1 2\x20
";

const WIDE_TABLE: &[u8] = b"results 8
       1 len 1
       2 mul 340282366920938463426481119284349108225
       3 add 36893488147419103230
       4 div 3
       5 len 0
       6 div by-zero
       7 mul 0
       8 len 11
len              3
mul              2
add              1
div              2
";

// The results of these jobs, numbered from 1.
fn results_of(alloc: Global, jobs: &[Job]) -> Result<Vec<JobResult<'_>>, AllocError> {
    let mut results = Vec::new(alloc);
    for (place, job) in jobs.iter().enumerate() {
        results.push(JobResult::new((place as u64).saturating_add(1), job))?;
    }
    Ok(results)
}

/// Texts of jobs, and the tables of their results.
const TABLES: [(&[u8], &[u8]); 3] = [
    (FOUR, FOUR_TABLE),
    (WIDE, WIDE_TABLE),
    (b"jobs 0\n", b"results 0\n"),
];

#[test]
fn tables_the_results_of_the_jobs_it_read(rt: HostRuntime) -> Result<(), Fail> {
    for (text, table) in &TABLES {
        let jobs = parse_jobs(rt.alloc(), text)?;
        let results = results_of(rt.alloc(), &jobs)?;
        let mut writer = Script::writer(rt.alloc(), 1000, 1)?;
        results_table(rt.alloc(), &results, &mut writer)?;
        same(&rt, writer.written(), *table, "");
    }
    Ok(())
}

#[test]
fn tells_the_end_of_each_truncated_text_of_jobs(rt: HostRuntime) {
    let mut number = 1u64;
    for (len, byte) in FOUR.iter().enumerate() {
        let fault = parse_jobs(rt.alloc(), &FOUR[..len]).err();
        same(&rt, fault, Some(Refusal::Text(number, TextCause::End)), len);
        if *byte == 10 {
            number = number.saturating_add(1);
        }
    }
}

// A text of one job, which this line says.
fn text_of(alloc: Global, line: &[u8]) -> Result<Vec<u8>, AllocError> {
    let mut text = Vec::new(alloc);
    text.extend_from_slice(b"jobs 1\n")?;
    text.extend_from_slice(line)?;
    text.push(b'\n')?;
    Ok(text)
}

/// Lines that are faulty in the place of a job, and for what.
const JOBS: [(&[u8], TextCause); 16] = [
    (b"len", TextCause::Form),
    (b"len \xc8", TextCause::Form),
    (b"len a\x7f", TextCause::Form),
    (b"len a\r", TextCause::Form),
    (b"add 1", TextCause::Form),
    (b"add 1 2 3", TextCause::Form),
    (b"add 1 02", TextCause::Form),
    (b"add  1 2", TextCause::Form),
    (b"add 1 2 ", TextCause::Form),
    (b"sub 1 2", TextCause::Form),
    (b"Add 1 2", TextCause::Form),
    (b"div 18446744073709551616 x", TextCause::Form),
    (b"", TextCause::Form),
    (b"add 1 18446744073709551616", TextCause::Range),
    (b"mul 18446744073709551616 1", TextCause::Range),
    (b"div 1 2\nx", TextCause::Extra),
];

#[test]
fn tells_what_is_wrong_with_a_job(rt: HostRuntime) -> Result<(), Fail> {
    for (line, cause) in &JOBS {
        let text = text_of(rt.alloc(), line)?;
        let number = if *cause == TextCause::Extra { 3 } else { 2 };
        let fault = parse_jobs(rt.alloc(), &text).err();
        same(
            &rt,
            fault,
            Some(Refusal::Text(number, *cause)),
            format_args!("{number} {cause}"),
        );
    }
    Ok(())
}

// A text of one job, the length of so many letters.
fn long_text(alloc: Global, letters: usize, last: u8) -> Result<Vec<u8>, AllocError> {
    let mut text = Vec::new(alloc);
    text.extend_from_slice(b"jobs 1\nlen ")?;
    for _ in 0..letters {
        text.push(b'a')?;
    }
    text.push(last)?;
    text.push(b'\n')?;
    Ok(text)
}

/// Numbers of letters, with a last one, and what is wrong with such a text.
const LENGTHS: [(usize, u8, Option<Refusal>); 3] = [
    (199, b'a', None),
    (200, b'a', Some(Refusal::Text(2, TextCause::Range))),
    (200, 200, Some(Refusal::Text(2, TextCause::Form))),
];

#[test]
fn takes_200_bytes_and_no_more(rt: HostRuntime) -> Result<(), Fail> {
    for (letters, last, fault) in &LENGTHS {
        let text = long_text(rt.alloc(), *letters, *last)?;
        same(&rt, parse_jobs(rt.alloc(), &text).err(), *fault, *letters);
    }
    Ok(())
}

/// Texts that are faulty from their first line on: the line, and for what.
const FIRST_LINES: [(&[u8], u64, TextCause); 6] = [
    (b"", 1, TextCause::End),
    (b"jobs 1000001\n", 1, TextCause::Range),
    (b"jobs 00\n", 1, TextCause::Form),
    (b"jobs\n", 1, TextCause::Form),
    (b"Jobs 0\n", 1, TextCause::Form),
    (b"jobs 0\n\n", 2, TextCause::Extra),
];

#[test]
fn tells_what_is_wrong_with_the_number_of_jobs(rt: HostRuntime) {
    for (text, number, cause) in &FIRST_LINES {
        let fault = parse_jobs(rt.alloc(), text).err();
        same(
            &rt,
            fault,
            Some(Refusal::Text(*number, *cause)),
            format_args!("{number} {cause}"),
        );
    }
}
