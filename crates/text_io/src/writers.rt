//! The writers of std as sinks, for a program's standard output.
use crate::devices::Sink;
use std::io;
use std::io::Write;

/// A writer of std as a sink, with no buffer of its own: it holds the bytes that the writer holds, where that says them.
/// It takes no memory.
///
/// Once 2^64 - 1 calls have failed, it takes nothing more.
#[derive(Debug, Drop)]
pub struct WriterSink<W> {
    inner: W,
    failures: u64,
    full: bool,
}

impl<W> WriterSink<W> {
    ghost use Rattle.text_io.specs.Writers.{IsUnwritten};

    /// A sink that hands its bytes to this writer.
    pub fn new(inner: W) -> WriterSink<W>
        ensures { IsUnwritten result inner }
    {
        WriterSink {
            inner,
            failures: 0,
            full: false,
        }
    }
}

impl<W: Write> Sink for WriterSink<W> {
    //= texts/devices
    ghost state = { λ s. record {
      contents = W.contents s.inner;
      failures = s.failures;
      is_full = s.full;
    } };

    fn write(&mut self, bytes: &[u8]) -> io::Result<usize> {
        let answer = if self.failures == u64::MAX {
            Ok(0)
        } else {
            self.inner.write(bytes)
        };
        match &answer {
            Ok(count) if !bytes.is_empty() => self.full = *count == 0,
            Ok(_) => {}
            Err(_) => self.failures += 1,
        }
        answer
    }
}
