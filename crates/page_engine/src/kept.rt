//! A sink that keeps what it is handed in memory.
ghost use Rattle.std.specs.Prelude.{◌≡◌, ◌++◌, ◌≤◌, [], IfErr, OnOk, length, take};

use history::Refusal;
use std::alloc::Global;
use std::io;
use text_io::Sink;

/// The bytes that were handed on, as long as there is memory for them.
#[derive(Drop)]
pub(crate) struct KeptText {
    bytes: Vec<u8>,
    is_full: bool,
}

impl KeptText {
    ghost use Rattle.std.specs.Prelude.{Some, false};
    ghost use Rattle.page_engine.specs.Kept.{kept_state};

    /// No bytes yet. It takes no memory.
    pub(crate) fn new(alloc: Global) -> KeptText
        ensures { kept_state result ≡ record { contents = Some []; failures = 0; is_full = false } }
    {
        KeptText {
            bytes: Vec::new(alloc),
            is_full: false,
        }
    }

    /// Keeps these too.
    pub(crate) fn put(&mut self, bytes: &[u8]) -> Result<(), Refusal>
        ensures kept { OnOk result (self.new.bytes.items ≡ self.old.bytes.items ++ bytes.now) }
        ensures only_memory { IfErr result (λ refusal. refusal ≡ Refusal.Memory) }
    {
        match self.bytes.extend_from_slice(bytes) {
            Ok(()) => Ok(()),
            Err(_) => Err(Refusal::Memory),
        }
    }

    /// All of them.
    pub(crate) fn as_slice(&self) -> &[u8]
        ensures { result.now ≡ self.now.bytes.items }
    {
        self.bytes.as_slice()
    }
}

// Appends all of the bytes and answers how many, or none where memory is refused.
fn append(from: &[u8], into: &mut Vec<u8>) -> usize
    ensures count { result ≤ length from.now }
    ensures appended { into.new.items ≡ into.old.items ++ take result from.now }
{
    match into.extend_from_slice(from) {
        Ok(()) => from.len(),
        Err(_) => 0,
    }
}

impl Sink for KeptText {
    ghost use Rattle.page_engine.specs.Kept.{kept_state};

    //= texts/devices
    ghost state = { kept_state };

    fn write(&mut self, bytes: &[u8]) -> io::Result<usize> {
        let count = append(bytes, &mut self.bytes);
        if !bytes.is_empty() {
            self.is_full = count == 0;
        }
        Ok(count)
    }
}
