//! Reads the text of jobs, has workers do them, and writes the table of their results.
ghost use Rattle.std.specs.Prelude.{◌≡◌, ◌≢◌, ◌↔◌, IfErr, IfOk, OnOk, IsTrue, Err};
ghost use Rattle.text_io.specs.Blocks.{GivesUp};
ghost use Rattle.text_io.specs.Readings.{EndsReadingFor};
ghost use Rattle.job_engine.specs.Crews.{IsCrewQueue};
ghost use Rattle.job_engine.specs.Overs.{WentFor};
ghost use Rattle.job_engine.specs.Queues.{queue_in, seats_in};
ghost use Rattle.job_engine.specs.Works.{AreSized, IsBadSize, IsTextOf, WritesResults, BeginsResults, TellsOfText, IsReadingRefusal, IsWorkRefusal, EndsReadingOrUnread};

use crate::crews::{JobQueue, results_by};
use crate::texts::JobTexts;
use history::Refusal;
use job_results::Job;
use line_table::QueueKind;
use node_arena::MOST_NODE;
use report::results_table;
use std::alloc::Global;
use std::sync::Wait;
use std::thread::Threads;
use text_io::{Sink, Source, parse_source};

/// The greatest number of workers.
const MOST_WORKERS: u32 = 64;

/// How many nodes more than workers there are at least.
const SPARE_NODES: u32 = 3;

/// Does the jobs whose text the reader gives, by so many workers, 1 to 64, each in a thread of its own, over a queue of
/// this kind and with so many nodes, or values that make a ring full, from 3 more than workers to `MOST_NODE`; and writes the
/// table of their results. Answers the queue.
///
/// Refusals: `BadSize` where a size is out of its range, before a byte is read; then `Memory`, as soon as a growth is
/// refused; `Read` where a call of the reader fails; `Text` where the bytes are no jobs; `Lost` where a job has no result,
/// since a worker or the submitter was refused memory or met a worn word; `Write` where a call of the writer fails or takes
/// nothing. The greatest count is the greatest of all. Takes memory, starts threads, and waits.
pub fn work_text<T: Threads + Wait + Sync, R: Source, W: Sink>(
    rt: &T,
    alloc: Global,
    reader: &mut R,
    writer: &mut W,
    workers: u32,
    kind: QueueKind,
    nodes: u32,
) -> Result<JobQueue, Refusal>
    //= program/work (ok, quiet): At Ok `work_text` has written the results of the jobs read, each job's once and in
    //=   their order.
    //= program/work_sizes (ok, sized, unread, text, prefix, refusal): `work_text` is refused `BadSize` exactly if
    //=   workers aren't 1 to 64, or nodes aren't workers plus 3 to the greatest node's number; its reader is then as
    //=   it was. A text that isn't one of jobs is refused with its first faulty line and what is wrong with it,
    //=   unless memory or reading is refused; at `Lost` and `Write` it was one of jobs.
    ensures ok { OnOk result (WritesResults (R.state reader.old).left (W.state writer.old)
        (W.state writer.new)) }
    ensures quiet { OnOk result ((W.state writer.new).failures ≡ (W.state writer.old).failures) }
    //= program/work_queue: At Ok `work_text` answers a queue made for just the kind, nodes and workers asked for,
    //=   with a seat for each worker, that may pop, one that may push, and the greatest count of 24 bits; a ring is
    //=   full of as many values, and ends at the last place of all.
    ensures over { IfOk result (λ done. IsCrewQueue kind nodes workers (queue_in done)) }
    //= program/work_went: At Ok the jobs read went over the queue that `work_text` answers: with it come seats of it, one for
    //=   each worker and one more, in no call, and the number of each job, from 1 on, was taken from it by one of them.
    ensures went { IfOk result (λ done. WentFor (R.state reader.old).left workers (queue_in done)
        (seats_in done)) }
    // A size out of its range is refused before anything is read.
    ensures sized { (result ≡ Err Refusal.BadSize) ↔ IsBadSize workers nodes }
    ensures unread { IfErr result (λ refusal. refusal ≡ Refusal.BadSize → reader.new ≡ reader.old) }
    // A text is refused by its first faulty line. Where jobs are lost, it was the text of jobs.
    ensures text { IfErr result (TellsOfText (R.state reader.old).left) }
    // Where writing fails, a prefix of the table is written.
    //= program/work_refusals (prefix, write, unwritten, refusal, reader): If `work_text` is refused `Write`, a prefix
    //=   of the results was written, and a write failed or took nothing; at any other refusal nothing was written. It
    //=   is refused `BadSize`, `Lost`, `Write`, `Memory`, `Read` or `Text`. At Ok, and at each refusal but `BadSize`,
    //=   `Memory` and `Read`, its reader has told its end and didn't fail; at `Read` one call of it failed, at
    //=   `BadSize` and `Memory` none.
    ensures prefix { IfErr result (λ refusal. refusal ≡ Refusal.Write
        → BeginsResults (R.state reader.old).left (W.state writer.old) (W.state writer.new)) }
    ensures write { IfErr result (λ refusal. refusal ≡ Refusal.Write
        → GivesUp (W.state writer.old) (W.state writer.new)) }
    // At any other refusal nothing is.
    ensures unwritten { IfErr result
        (λ refusal. refusal ≢ Refusal.Write → writer.new ≡ writer.old) }
    ensures refusal { IfErr result IsWorkRefusal }
    ensures reader { EndsReadingOrUnread result (R.state reader.old) (R.state reader.new) }
{
    if !are_sized(workers, nodes) {
        return Err(Refusal::BadSize);
    }
    let jobs = jobs_in(alloc, reader)?;
    let (results, queue) = results_by(rt, alloc, workers, kind, nodes, &jobs)?;
    results_table(alloc, &results, writer)?;
    Ok(queue)
}

/// Whether both sizes are in their ranges.
fn are_sized(workers: u32, nodes: u32) -> bool
    ensures sized { IsTrue result ↔ AreSized workers nodes }
    ensures outside { ¬ IsTrue result ↔ IsBadSize workers nodes }
{
    1 <= workers && workers <= MOST_WORKERS && workers + SPARE_NODES <= nodes && nodes <= MOST_NODE
}

/// The jobs whose text a source gives.
fn jobs_in<R: Source>(alloc: Global, reader: &mut R) -> Result<Vec<Job>, Refusal>
    ensures ok { IfOk result (λ jobs. IsTextOf (R.state reader.old).left jobs.items) }
    ensures text { IfErr result (TellsOfText (R.state reader.old).left) }
    ensures refusal { IfErr result IsReadingRefusal }
    ensures reader { EndsReadingFor result (R.state reader.old) (R.state reader.new) }
{
    parse_source::<JobTexts, R>(alloc, reader)
}
