//! A block of bytes on its way to a sink, so that a writer makes few calls and takes no memory.
ghost use Rattle.std.specs.Prelude.{◌≡◌, ◌+◌, ◌≤◌, ◌++◌, [], length, OnOk};
ghost use Rattle.text_io.specs.Blocks.{Puts, Writes};

use crate::devices::Sink;
use arrayvec::ArrayVec;
use history::Refusal;
use std::marker::Model;

/// How many bytes a block holds back.
pub const BLOCK: usize = 4096;

/// The bytes that were put and that the sink has not been handed yet. They lie in an array.
///
/// Each call is handed the same sink. A block that isn't finished drops the bytes that it holds.
#[derive(Drop)]
pub struct Block {
    bytes: ArrayVec<u8, BLOCK>,
}

impl Model for Block {
    ghost use Rattle.std.specs.Prelude.{ℕ, List};

    ghost Value = { List ℕ };

    ghost view = { λ b. b.bytes.items };
}

impl Block {
    /// A block that holds nothing. It takes no memory.
    pub fn new() -> Block
        ensures { result ≡ [] }
    {
        Block {
            bytes: ArrayVec::new(),
        }
    }

    /// Puts bytes behind those held, and hands the sink what there is no room for.
    ///
    /// It takes no memory. It is refused by `Write` where a call of the sink fails or takes nothing; the
    /// block is then of no further use.
    pub fn put<W: Sink>(&mut self, sink: &mut W, bytes: &[u8]) -> Result<(), Refusal>
        ensures { Puts (W.state sink.old) (W.state sink.new)
            (self.old ++ bytes.now) self.new result }
    {
        if bytes.len() > self.bytes.remaining_capacity() {
            self.empty(sink)?;
            if bytes.len() > BLOCK {
                return write_all(sink, bytes);
            }
        }
        self.keep(bytes);
        Ok(())
    }

    /// Hands the sink all that is held.
    pub fn finish<W: Sink>(self, sink: &mut W) -> Result<(), Refusal>
        ensures { Writes (W.state sink.old) (W.state sink.new) self result }
    {
        let rest = self.held();
        write_all(sink, rest)
    }

    fn held(&self) -> &[u8]
        ensures { result.now ≡ self.now }
    {
        self.bytes.as_slice()
    }

    // Hands the sink all that is held, and then holds nothing.
    fn empty<W: Sink>(&mut self, sink: &mut W) -> Result<(), Refusal>
        ensures written { Writes (W.state sink.old) (W.state sink.new) self.old result }
        ensures emptied { OnOk result (self.new ≡ []) }
    {
        write_all(sink, self.held())?;
        self.bytes.clear();
        Ok(())
    }

    fn keep(&mut self, bytes: &[u8])
        requires { length self.old + length bytes.now ≤ 4096 }
        ensures { self.new ≡ self.old ++ bytes.now }
    {
        self.bytes.try_extend_from_slice(bytes).unwrap();
    }
}

// Hands a sink all these bytes, in as many calls as it takes.
fn write_all<W: Sink>(sink: &mut W, bytes: &[u8]) -> Result<(), Refusal>
    ensures { Writes (W.state sink.old) (W.state sink.new) bytes.now result }
{
    let mut rest = bytes;
    while !rest.is_empty() {
        match sink.write(rest) {
            Ok(0) | Err(_) => return Err(Refusal::Write),
            Ok(count) => rest = &rest[count..],
        }
    }
    Ok(())
}
