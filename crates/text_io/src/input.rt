//! Reads from a source, to its end or to a number of bytes.
ghost use Rattle.std.specs.Prelude.{◌≡◌, ◌+◌, ◌<◌, ◌≤◌, IfOk, IfErr, OnOk, IsTrue, length, take, vec_len, true};
ghost use Rattle.std.specs.Io.KnownBytes.{Consumes};
ghost use Rattle.text_io.specs.Readings.{AddsGiven, EndsReadingFor, HasEnded, ReadsOrFails};

use crate::devices::Source;
use history::Refusal;
use std::alloc::Global;

/// How many bytes are asked for at a time.
pub(crate) const BLOCK: usize = 65_536;

/// So many bytes to read into.
pub(crate) fn block_of(alloc: Global, len: usize) -> Result<Vec<u8>, Refusal>
    ensures len { IfOk result (λ block. vec_len block ≡ len) }
    ensures err { IfErr result (λ refusal. refusal ≡ Refusal.Memory) }
{
    match vec![in alloc; 0; len] {
        Ok(block) => Ok(block),
        Err(_) => Err(Refusal::Memory),
    }
}

/// Reads what one call of a source gives into the front of a block, and answers how many bytes they are.
fn read_block<R: Source>(reader: &mut R, block: &mut [u8]) -> Result<usize, Refusal>
    requires { 0 < length block.old }
    ensures bound { IfOk result (λ count. count ≤ length block.new) }
    ensures bytes { IfOk result (λ count. Consumes (R.state reader.old).left (R.state reader.new).left
        (take count block.new)) }
    ensures end { IfOk result (λ count. count ≡ 0 → HasEnded (R.state reader.new)) }
    ensures budget { IfOk result (λ count.
        (R.state reader.new).budget + count ≡ (R.state reader.old).budget) }
    ensures only_read { IfErr result (λ refusal. refusal ≡ Refusal.Read) }
    ensures failures { ReadsOrFails result (R.state reader.old) (R.state reader.new) }
{
    match reader.read(block) {
        Ok(count) => Ok(count),
        Err(_) => Err(Refusal::Read),
    }
}

/// Adds what one call of a source gives to a text, and answers how many bytes they are.
fn read_more<R: Source>(
    reader: &mut R,
    block: &mut [u8],
    text: &mut Vec<u8>,
) -> Result<usize, Refusal>
    requires { 0 < length block.old }
    ensures text { OnOk result (AddsGiven (R.state reader.old) (R.state reader.new)
        text.old.items text.new.items) }
    ensures end { IfOk result (λ count. count ≡ 0 → HasEnded (R.state reader.new)) }
    ensures budget { IfOk result (λ count.
        (R.state reader.new).budget + count ≡ (R.state reader.old).budget) }
    ensures err { ReadsOrFails result (R.state reader.old) (R.state reader.new) }
{
    let count = read_block(reader, block)?;
    match text.extend_from_slice(&block[..count]) {
        Ok(()) => Ok(count),
        Err(_) => Err(Refusal::Memory),
    }
}

/// Adds what a source gives to a text until that has `most` bytes, or the source is at its end; whether it is.
pub(crate) fn read_to<R: Source>(
    reader: &mut R,
    block: &mut [u8],
    text: &mut Vec<u8>,
    most: usize,
) -> Result<bool, Refusal>
    requires { 0 < length block.old }
    ensures text { OnOk result (AddsGiven (R.state reader.old) (R.state reader.new)
        text.old.items text.new.items) }
    ensures end { IfOk result (λ ended. IsTrue ended → HasEnded (R.state reader.new)) }
    ensures budget { IfOk result (λ ended. ¬ IsTrue ended
        → (R.state reader.new).budget < (R.state reader.old).budget) }
    ensures err { ReadsOrFails result (R.state reader.old) (R.state reader.new) }
{
    while read_more(reader, block, text)? > 0 {
        if most <= text.len() {
            return Ok(false);
        }
    }
    Ok(true)
}

/// Reads a source to its end, and keeps nothing.
pub(crate) fn read_rest<R: Source>(reader: &mut R, block: &mut [u8]) -> Result<(), Refusal>
    requires { 0 < length block.old }
    ensures only_read { IfErr result (λ refusal. refusal ≡ Refusal.Read) }
    ensures reader { EndsReadingFor result (R.state reader.old) (R.state reader.new) }
{
    while read_block(reader, block)? > 0 {}
    Ok(())
}
