//! The schedule whose text a source gives.
ghost use Rattle.std.specs.Prelude.{◌≡◌, ◌⊎◌, Some, IfOk, IfErr, IfSome, MatchResult, OnOk};
ghost use Rattle.text_io.specs.Readings.{ReachesEnd};
ghost use Rattle.schedule_text.specs.EventStreams.{IsRefusedReading};
ghost use Rattle.schedule_text.specs.Schedules.{Schedule};
ghost use Rattle.schedule_text.specs.Texts.{schedule_text, IsInRange};

use crate::event_stream::EventStream;
use crate::readers::keep;
use crate::schedules::Schedule;
use history::Refusal;
use std::alloc::Global;
use text_io::Source;

/// The schedule whose text a source gives, whole; the text isn't held.
///
/// It is refused with `Memory`, with `Read` where a call of the source fails, and with `Text` as
/// `parse` refuses the text that the source gives, however it is split into pieces. The source is read to
/// its end but where memory is refused or a call fails. It takes memory as the events come; whether
/// it waits is up to the source.
pub fn read_schedule<R: Source>(alloc: Global, reader: &mut R) -> Result<Schedule, Refusal>
    //= texts/sources (text, range, end, err, back): A schedule is read from a source, in pieces of any length, just as
    //=   `parse` reads its text, unless a call fails.
    ensures text { IfOk result (λ schedule. IfSome (R.state reader.old).left
        (λ text. text ≡ schedule_text schedule)) }
    ensures range { IfOk result IsInRange }
    ensures end { OnOk result (ReachesEnd (R.state reader.old) (R.state reader.new)) }
    ensures err { IfErr result (IsRefusedReading (R.state reader.old) (R.state reader.new)) }
    // The text of a schedule in range is read as that schedule, unless memory is refused or a call fails.
    ensures back { (s : Schedule) → IsInRange s → (R.state reader.old).left ≡ Some (schedule_text s)
        → MatchResult result (λ schedule. schedule ≡ s)
        (λ refusal. (refusal ≡ Refusal.Memory) ⊎ (refusal ≡ Refusal.Read)) }
{
    schedule_from(alloc, reader)
}

fn schedule_from<R: Source>(alloc: Global, reader: &mut R) -> Result<Schedule, Refusal>
    ensures text { IfOk result (λ schedule. IfSome (R.state reader.old).left
        (λ text. text ≡ schedule_text schedule)) }
    ensures range { IfOk result IsInRange }
    ensures end { OnOk result (ReachesEnd (R.state reader.old) (R.state reader.new)) }
    ensures err { IfErr result (IsRefusedReading (R.state reader.old) (R.state reader.new)) }
{
    let mut stream = EventStream::start(reader)?;
    let mut events = Vec::new(alloc);
    while let Some(event) = stream.next(reader)? {
        keep(&mut events, event)?;
    }
    let header = stream.header();
    Ok(Schedule {
        version: header.version,
        kind: header.kind,
        bits: header.bits,
        nodes: header.nodes,
        limit: header.limit,
        actors: header.actors,
        events,
    })
}
