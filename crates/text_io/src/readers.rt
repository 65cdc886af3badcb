//! The readers of std as sources, for a program's files and its standard input.
use crate::devices::Source;
use std::io;
use std::io::{ErrorKind, Read};

/// How many bytes a reader gives before it fails: 2^40.
pub const MOST_BYTES: u64 = 1_099_511_627_776;

/// A reader of std as a source. It gives at most a set number of bytes; from then on each call fails.
///
/// The bytes left are those that the reader has left, where it says them. It keeps no bytes of its own, and takes no
/// memory. Once 2^64 - 1 calls have failed, it tells its end and reads no more.
#[derive(Debug, Drop)]
pub struct ReaderSource<R> {
    inner: R,
    budget: u64,
    failures: u64,
    ended: bool,
}

impl<R> ReaderSource<R> {
    ghost use Rattle.text_io.specs.Readers.{IsUnread};

    /// A source of this reader's bytes, of at most 2^40 of them.
    pub fn new(inner: R) -> ReaderSource<R>
        ensures { IsUnread result inner MOST_BYTES }
    {
        ReaderSource::limited(inner, MOST_BYTES)
    }

    /// A source of this reader's bytes, of at most `budget` of them.
    pub fn limited(inner: R, budget: u64) -> ReaderSource<R>
        ensures { IsUnread result inner budget }
    {
        ReaderSource {
            inner,
            budget,
            failures: 0,
            ended: false,
        }
    }
}

impl<R: Read> Source for ReaderSource<R> {
    ghost use Rattle.text_io.specs.Devices.{known_below};

    //= texts/devices
    ghost state = { λ s. record {
      left = known_below s.failures (R.remaining s.inner);
      failures = s.failures;
      budget = s.budget;
      has_ended = s.ended;
    } };

    fn read(&mut self, into: &mut [u8]) -> io::Result<usize> {
        let answer = if self.failures == u64::MAX {
            Ok(0)
        } else if self.budget == 0 {
            Err(io::Error::new(ErrorKind::FileTooLarge, "the input is too long"))
        } else {
            let room = into.len().min(self.budget as usize);
            self.inner.read(&mut into[..room])
        };
        match &answer {
            Ok(count) => {
                self.budget -= *count as u64;
                if !into.is_empty() {
                    self.ended = *count == 0;
                }
            }
            Err(_) => self.failures += 1,
        }
        answer
    }
}
