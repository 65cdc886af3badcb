//! A source and a sink over memory, for tests: bytes in pieces, and a call that fails.
ghost use Rattle.std.specs.Prelude.{◌≡◌, ◌<◌, ◌≤◌, ◌++◌, min, take, drop, length, [], IfOk, vec_len};

use crate::devices::{Sink, Source};
use std::alloc::{AllocError, Global};
use std::io;
use std::io::ErrorKind;

/// What a script does at one of its calls in place of giving or taking bytes.
#[derive(Clone, Copy, Debug, PartialEq, Eq)]
pub enum Trouble {
    /// The call answers an error.
    Failure,
    /// A write takes nothing. A read is as ever.
    Standstill,
}

#[derive(Clone, Copy, Debug)]
struct Plan {
    trouble: Trouble,
    calls_before: u64,
}

/// A source of set bytes and a sink into memory, at most `piece` bytes a call.
#[derive(Debug, Drop)]
pub struct Script {
    given: Vec<u8>,
    at: usize,
    written: Vec<u8>,
    piece: usize,
    plan: Option<Plan>,
    failures: u64,
    ended: bool,
    full: bool,
    ghost within: { at ≤ vec_len given },
    ghost moves: { 0 < piece },
}

impl Script {
    ghost use Rattle.std.specs.Prelude.{◌≡◌, ◌+◌, ◌-◌, ◌<◌, [], IfOk, vec_capacity};
    ghost use Rattle.text_io.specs.Scripts.{unread_of, written_of, failures_of, failures_in, IsDue, IsFresh, SameBytes, SameDevice};

    /// A script that gives these bytes, at most `piece` of them a call, and takes none.
    ///
    /// It answers an error where the memory for a copy of them is refused.
    pub fn reader(alloc: Global, bytes: &[u8], piece: usize) -> Result<Script, AllocError>
        requires { 0 < piece }
        ensures { IfOk result (λ script. IsFresh script bytes.now 0 piece) }
    {
        let given = Vec::from_slice(alloc, bytes)?;
        Ok(Script::over(given, Vec::new(alloc), piece))
    }

    /// A script that takes `room` bytes in all, at most `piece` of them a call, and gives none.
    ///
    /// It answers an error where the memory for that room is refused; its writes then take none.
    pub fn writer(alloc: Global, room: usize, piece: usize) -> Result<Script, AllocError>
        requires { 0 < piece }
        ensures { IfOk result (λ script. IsFresh script [] room piece) }
    {
        let written = Vec::with_capacity(alloc, room)?;
        Ok(Script::over(Vec::new(alloc), written, piece))
    }

    fn over(given: Vec<u8>, written: Vec<u8>, piece: usize) -> Script
        requires empty { written.items ≡ [] }
        requires moves { 0 < piece }
        ensures { IsFresh result given.items (vec_capacity written) piece }
    {
        Script {
            given,
            at: 0,
            written,
            piece,
            plan: None,
            failures: 0,
            ended: false,
            full: false,
        }
    }

    /// The script with trouble at one of its calls from here on, the next one being number 1, in place
    /// of any trouble that was set before. It takes no memory.
    pub fn with(mut self, trouble: Trouble, call: u64) -> Script
        requires { 0 < call }
        ensures planned { IsDue result trouble (call - 1) }
        ensures others { SameDevice self result }
    {
        let calls_before = call - 1;
        self.plan = Some(Plan {
            trouble,
            calls_before,
        });
        self
    }

    /// The bytes that it has still to give. It takes no memory.
    pub fn left(&self) -> &[u8]
        ensures { result.now ≡ unread_of self.now }
    {
        &self.given[self.at..]
    }

    /// The bytes taken so far. It takes no memory.
    pub fn written(&self) -> &[u8]
        ensures { result.now ≡ written_of self.now }
    {
        self.written.as_slice()
    }

    // What is planned for this call. A failure is counted; one that the count has no room for is left out.
    fn meets(&mut self) -> Option<Trouble>
        ensures counted { failures_of self.new ≡ failures_of self.old + failures_in result }
        ensures others { SameBytes self.old self.new }
    {
        let (trouble, plan) = due(self.plan);
        self.plan = plan;
        if trouble == Some(Trouble::Failure) {
            if self.failures == u64::MAX {
                return None;
            }
            self.failures += 1;
        }
        trouble
    }
}

// What is planned for this call, and for the calls after it.
fn due(plan: Option<Plan>) -> (Option<Trouble>, Option<Plan>) {
    match plan {
        Some(
            Plan {
                trouble,
                calls_before: 0,
            },
        ) => (Some(trouble), None),
        Some(
            Plan {
                trouble,
                calls_before,
            },
        ) => {
            let calls_before = calls_before - 1;
            let plan = Plan {
                trouble,
                calls_before,
            };
            (None, Some(plan))
        }
        None => (None, None),
    }
}

// Copies as many bytes as both have, at most `most`, and answers how many.
fn copied(from: &[u8], into: &mut [u8], most: usize) -> usize
    requires { 0 < most }
    ensures count { result ≡ min (min (length from.now) (length into.new)) most }
    ensures copied { from.now ≡ take result into.new ++ drop result from.now }
    ensures none { result ≡ 0 → 0 < length into.new → drop result from.now ≡ [] }
{
    let count = from.len().min(into.len()).min(most);
    into[..count].copy_from_slice(&from[..count]);
    count
}

// Appends as many bytes as there is room for, at most `most`, and answers how many.
fn append_fitting(from: &[u8], into: &mut Vec<u8>, most: usize) -> usize
    ensures count { result ≤ length from.now }
    ensures append_fitting { into.new.items ≡ into.old.items ++ take result from.now }
{
    let room = into.capacity() - into.len();
    let count = from.len().min(room).min(most);
    match into.extend_from_slice(&from[..count]) {
        Ok(()) => count,
        Err(_) => 0,
    }
}

impl Source for Script {
    ghost use Rattle.std.specs.Prelude.{Some, length};
    ghost use Rattle.text_io.specs.Scripts.{unread_of, failures_of};

    //= texts/devices
    ghost state = { λ s. record {
      left = Some (unread_of s);
      failures = failures_of s;
      budget = length (unread_of s);
      has_ended = s.ended;
    } };

    fn read(&mut self, into: &mut [u8]) -> io::Result<usize> {
        if self.meets() == Some(Trouble::Failure) {
            return Err(io::Error::from(ErrorKind::Other));
        }
        let count = copied(self.left(), into, self.piece);
        self.at += count;
        if !into.is_empty() {
            self.ended = count == 0;
        }
        Ok(count)
    }
}

impl Sink for Script {
    ghost use Rattle.std.specs.Prelude.{Some};
    ghost use Rattle.text_io.specs.Scripts.{written_of, failures_of};

    //= texts/devices
    ghost state = { λ s. record {
      contents = Some (written_of s);
      failures = failures_of s;
      is_full = s.full;
    } };

    fn write(&mut self, bytes: &[u8]) -> io::Result<usize> {
        let count = match self.meets() {
            Some(Trouble::Failure) => return Err(io::Error::from(ErrorKind::Other)),
            Some(Trouble::Standstill) => 0,
            None => append_fitting(bytes, &mut self.written, self.piece),
        };
        if !bytes.is_empty() {
            self.full = count == 0;
        }
        Ok(count)
    }
}
