//! The events of a schedule, with the source that gives its text.
ghost use Rattle.std.specs.Prelude.{◌≡◌, [], IfOk, IfErr, None, Ok, Err};
ghost use Rattle.text_io.specs.Devices.{SourceState};
ghost use Rattle.schedule_text.specs.EventStreams.{IsNext, IsRefused, IsStarted};
ghost use Rattle.schedule_text.specs.Streams.{stream};
ghost use Rattle.schedule_text.specs.Texts.{version_due};
ghost use Rattle.schedule_text.specs.declared.event_stream.Stage.{Stage};

use crate::event_stream::{EventStream, Stage};
use crate::readers::Header;
use crate::schedules::Event;
use history::Refusal;
use text_io::Source;

/// The events of a schedule, with the source that gives its text: an `EventStream` that keeps its source.
#[derive(Drop)]
pub struct Events<R> {
    stream: EventStream,
    reader: R,
}

impl<R: Source + Drop> Events<R> {
    /// Reads the lines of the header, as `EventStream::start` does.
    ///
    /// At a refusal the source is dropped. A caller that has to know what became of it, or that needs
    /// it back, uses an `EventStream`.
    pub fn start(reader: R) -> Result<Events<R>, Refusal>
        //= texts/events (ok, err)
        ensures ok { IfOk result (λ events. IsStarted events.stream
            (stream [] (R.state reader)) (stream events.stream.ahead (R.state events.reader))) }
        ensures err { IfErr result (λ refusal. (last : SourceState)
            × IsRefused 0 version_due (R.state reader) last refusal) }
    {
        let mut reader = reader;
        let stream = EventStream::start(&mut reader)?;
        Ok(Events { stream, reader })
    }
}

impl<R: Source> Events<R> {
    /// What the header says.
    pub fn header(&self) -> &Header
        ensures { result.now ≡ self.now.stream.header }
    {
        self.stream.header()
    }

    /// The next event, as `EventStream::next` tells it.
    pub fn next(&mut self) -> Result<Option<Event>, Refusal>
        //= texts/events (next, ended, refused)
        ensures next { self.old.stream.stage ≡ Stage.Going → IsNext self.old.stream self.new.stream
            (stream self.old.stream.ahead (R.state self.old.reader))
            (stream self.new.stream.ahead (R.state self.new.reader)) result }
        ensures ended { self.old.stream.stage ≡ Stage.Ended → (result ≡ Ok None) × (self.new ≡ self.old) }
        ensures refused { (refusal : Refusal) → self.old.stream.stage ≡ Stage.Refused refusal
            → (result ≡ Err refusal) × (self.new ≡ self.old) }
    {
        self.stream.next(&mut self.reader)
    }

    /// The source, as it is after the calls so far: up to 4,096 bytes of it may have been read ahead.
    pub fn into_source(self) -> R
        ensures { result ≡ self.reader }
    {
        let Events { stream: _, reader } = self;
        reader
    }
}
