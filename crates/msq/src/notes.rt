//! What is noted of a call's text and of its devices, to explain a fault of it.
ghost use Rattle.std.specs.Prelude.{◌≡◌, ◌-◌, IfSome};

use crate::progress::Progress;
use std::alloc::Global;
use std::io;
use std::rt::Runtime;
use text_io::{Sink, Source, line_at};

/// How many bytes of a text are kept at most: 2^24.
const MOST_KEPT: usize = 16_777_216;

/// What is noted of a call.
#[derive(Drop)]
pub(crate) struct Notes {
    pub(crate) text: Kept,
    /// Why the file couldn't be opened or read.
    pub(crate) unread: Option<String>,
    /// Why standard output couldn't be written.
    pub(crate) unwritten: Option<String>,
}

impl Notes {
    /// The notes of a call whose file couldn't be opened.
    pub(crate) fn unopened(alloc: Global, unread: Option<String>) -> Notes {
        Notes {
            text: Kept::new(alloc, false),
            unread,
            unwritten: None,
        }
    }
}

/// The first bytes of a text, no more than there is room for.
#[derive(Drop)]
pub(crate) struct Kept {
    bytes: Vec<u8>,
    most: usize,
}

impl Kept {
    ghost use Rattle.msq.specs.Notes.{IsLineAt, KeepsOrStops};

    /// No bytes yet; none are kept where they aren't asked for.
    pub(crate) fn new(alloc: Global, keeps: bool) -> Kept {
        Kept {
            bytes: Vec::new(alloc),
            most: if keeps { MOST_KEPT } else { 0 },
        }
    }

    /// The bytes that are kept.
    pub(crate) fn as_slice(&self) -> &[u8] {
        self.bytes.as_slice()
    }

    /// The line with this number, from 1, without its line feed, where all of it is kept.
    pub(crate) fn line(&self, number: u64) -> Option<&[u8]>
        ensures { IfSome result (λ line. IsLineAt (number - 1) self.now.bytes.items line.now) }
    {
        let mut rest = self.bytes.as_slice();
        for _ in 0..number.checked_sub(1)? {
            (_, rest) = line_at(rest)?;
        }
        match line_at(rest) {
            Some((line, _)) => Some(line),
            None if self.most > 0 => Some(rest),
            None => None,
        }
    }

    /// Keeps more bytes, unless one of all before was left out.
    fn keep(&mut self, more: &[u8])
        ensures { KeepsOrStops self.old self.new more.now }
    {
        if more.len() > self.most.saturating_sub(self.bytes.len()) {
            self.most = 0;
        } else if self.bytes.extend_from_slice(more).is_err() {
            self.most = 0;
        }
    }
}

/// A source whose bytes are kept and counted, and whose failure is noted.
#[derive(Drop)]
pub(crate) struct NotedSource<'a, S, R> {
    pub(crate) inner: S,
    pub(crate) alloc: Global,
    pub(crate) text: Kept,
    pub(crate) unread: Option<String>,
    pub(crate) progress: &'a Progress<'a, R>,
}

impl<S: Source, R: Runtime> Source for NotedSource<'_, S, R> {
    ghost state = { λ s. S.state s.inner };

    fn read(&mut self, into: &mut [u8]) -> io::Result<usize> {
        let answer = self.inner.read(into);
        match &answer {
            Ok(count) => {
                self.text.keep(&into[..*count]);
                self.progress.has_read(*count);
            }
            Err(error) => self.unread = format!(in self.alloc; "{error}").ok(),
        }
        answer
    }
}

/// A sink whose bytes are counted, and whose failure is noted.
#[derive(Drop)]
pub(crate) struct NotedSink<'a, W, R> {
    pub(crate) inner: W,
    pub(crate) alloc: Global,
    pub(crate) unwritten: Option<String>,
    pub(crate) progress: &'a Progress<'a, R>,
}

impl<W: Sink, R: Runtime> Sink for NotedSink<'_, W, R> {
    ghost state = { λ s. W.state s.inner };

    fn write(&mut self, bytes: &[u8]) -> io::Result<usize> {
        self.progress.before_writing();
        let answer = self.inner.write(bytes);
        match &answer {
            Ok(count) => self.progress.has_written(*count),
            Err(error) => self.unwritten = format!(in self.alloc; "{error}").ok(),
        }
        answer
    }
}
