//! Hands a sink a short text whole.
ghost use Rattle.text_io.specs.Blocks.{Writes};

use crate::blocks::Block;
use crate::devices::Sink;
use history::Refusal;

/// Hands a sink all these bytes. It takes no memory.
///
/// It is refused by `Write` where a call of the sink fails or takes nothing; a prefix of the bytes
/// is written then.
pub fn send<W: Sink>(text: &[u8], sink: &mut W) -> Result<(), Refusal>
    ensures { Writes (W.state sink.old) (W.state sink.new) text.now result }
{
    let mut block = Block::new();
    block.put(sink, text)?;
    block.finish(sink)
}
