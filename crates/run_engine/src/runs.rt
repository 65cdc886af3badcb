//! Makes the events of a schedule as a source gives them.
ghost use Rattle.std.specs.Prelude.{◌≡◌, ◌++◌, List, IfErr, IfOk, OnOk};
ghost use Rattle.history.specs.declared.refusals.Refusal.TheVariants.{Memory};
ghost use Rattle.counted_ref.specs.Ref.{IsSplit};
ghost use Rattle.run_engine.specs.Runs.{IsRunOf, StopsRun};
ghost use Rattle.run_engine.specs.Starts.{IsBegun, WasBegun};
ghost use Rattle.text_io.specs.Devices.{SourceState};
ghost use Rattle.text_io.specs.Readings.{ReachesEnd};
ghost use Rattle.schedule_text.specs.EventStreams.{HasRead, HasReadAll, IsRefused, schedule_with};
ghost use Rattle.schedule_text.specs.Readers.{IsHeaderInRange};
ghost use Rattle.schedule_text.specs.Streams.{stream};
ghost use Rattle.schedule_text.specs.Texts.{version_due};
ghost use Rattle.schedule_text.specs.declared.event_stream.Stage.TheVariants.{Going};
ghost use Rattle.schedule_text.specs.declared.schedules.Event.{Event};
ghost use Rattle.step_machine.specs.Calls.{setup_from};
ghost use Rattle.step_machine.specs.Machine.{opening};

use crate::by_bits;
use crate::events::make;
use engine_faults::Fault;
use history::{Refusal, Stamped};
use schedule_text::{EventStream, Header};
use std::alloc::Global;
use step_machine::WorldOf;
use text_io::Source;

/// The world of a schedule in which nothing happened yet.
fn opening_world<const B: u32>(alloc: Global, header: &Header) -> Result<WorldOf<B>, Refusal>
    requires range { IsHeaderInRange header.now }
    requires bits { header.now.bits ≡ B }
    ensures ok { IfOk result (λ w. w ≡ opening
        (setup_from header.now.bits header.now.kind header.now.nodes header.now.limit) header.now.actors) }
    ensures err { IfErr result (λ refusal. refusal ≡ Memory) }
{
    let actors = u32::from(header.actors);
    WorldOf::new(alloc, header.kind, header.nodes, header.limit, actors)
}

/// Reads the rest of a schedule, to the end of its source, and makes none of its events.
fn read_rest<R: Source>(events: &mut EventStream, reader: &mut R) -> Result<(), Refusal>
    requires { events.old.stage ≡ Going }
    ensures ok { OnOk result ((given : List Event) (first : SourceState)
        → HasRead events.old given first (stream events.old.ahead (R.state reader.old))
        → (later : List Event) × HasReadAll (schedule_with events.old.header (given ++ later)) first
        (stream events.new.ahead (R.state reader.new))) }
    ensures err { IfErr result (λ refusal. (given : List Event) (first : SourceState)
        → HasRead events.old given first (stream events.old.ahead (R.state reader.old))
        → IsRefused 0 version_due first (stream events.new.ahead (R.state reader.new)) refusal) }
{
    while events.next(reader)?.is_some() {}
    Ok(())
}

/// The history of the events that a stream begins to give, made on a world of `B` bits.
///
/// Where an event is refused, the rest of the text is read first, since a fault there is told in its place.
fn run_with_bits<const B: u32, R: Source>(
    alloc: Global,
    events: &mut EventStream,
    reader: &mut R,
) -> Result<Vec<Stamped>, Fault>
    requires bits { events.old.header.bits ≡ B }
    requires begun { WasBegun events.old (R.state reader.old) }
    ensures ok { IfOk result (λ history. (first : SourceState) → IsBegun first events.old (R.state reader.old)
        → IsRunOf first.left history.items) }
    ensures end { OnOk result ((first : SourceState) → IsBegun first events.old (R.state reader.old)
        → ReachesEnd first (R.state reader.new)) }
    ensures err { IfErr result (λ fault. (first : SourceState) → IsBegun first events.old (R.state reader.old)
        → StopsRun first (R.state reader.new) fault.refusal fault.line) }
{
    let mut world = opening_world::<B>(alloc, events.header())?;
    let mut line = events.header().version.header_lines() + 1;
    while let Some(event) = events.next(reader)? {
        match make(&mut world, event) {
            Ok(()) => line += 1,
            Err(Refusal::Memory) => return Err(Fault::from(Refusal::Memory)),
            Err(refusal) => {
                read_rest(events, reader)?;
                return Err(Fault::at(line, refusal));
            }
        }
    }
    let history = world.history(alloc)?;
    Ok(history)
}

/// The same on a world of as many bits as the header says.
fn run_events<R: Source>(
    alloc: Global,
    events: &mut EventStream,
    reader: &mut R,
) -> Result<Vec<Stamped>, Fault>
    requires split { IsSplit events.old.header.bits }
    requires begun { WasBegun events.old (R.state reader.old) }
    ensures ok { IfOk result (λ history. (first : SourceState) → IsBegun first events.old (R.state reader.old)
        → IsRunOf first.left history.items) }
    ensures end { OnOk result ((first : SourceState) → IsBegun first events.old (R.state reader.old)
        → ReachesEnd first (R.state reader.new)) }
    ensures err { IfErr result (λ fault. (first : SourceState) → IsBegun first events.old (R.state reader.old)
        → StopsRun first (R.state reader.new) fault.refusal fault.line) }
{
    let bits = events.header().bits;
    by_bits!(bits, run_with_bits<R>(alloc, events, reader))
}

/// The history of the schedule whose text a source gives.
pub(crate) fn run_source<R: Source>(alloc: Global, reader: &mut R) -> Result<Vec<Stamped>, Fault>
    ensures ok { IfOk result (λ history. IsRunOf (R.state reader.old).left history.items) }
    ensures end { OnOk result (ReachesEnd (R.state reader.old) (R.state reader.new)) }
    ensures err { IfErr result (λ fault. StopsRun (R.state reader.old) (R.state reader.new)
        fault.refusal fault.line) }
{
    let mut events = EventStream::start(reader)?;
    run_events(alloc, &mut events, reader)
}
