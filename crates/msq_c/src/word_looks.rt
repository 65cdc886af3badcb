//! A look at its queue of words by a handle.
ghost use Rattle.msq_c.specs.WordLooks.{TellsEmptiness, TellsLen, AnswersLook};

use crate::bounds::MsqLen;
use crate::slots::{Slot, lift};
use crate::troubles::Trouble;
use crate::word_blocks::WordsBlock;
use node_arena::{Emptiness, Seat};
use owned::Look;
use picked::AnyValues;
use std::alloc::Global;

/// A look at whether the queue is empty.
pub(crate) struct ForWords;

impl<T: Send + Drop> Look<AnyValues<T>> for ForWords {
    type Told = Emptiness;

    ghost tells = { TellsEmptiness };

    fn look(queue: &AnyValues<T>, seat: &mut Seat<T>) -> Emptiness {
        queue.emptiness(seat)
    }
}

/// A look at how many values the queue holds.
pub(crate) struct ForCount;

impl<T: Send + Drop> Look<AnyValues<T>> for ForCount {
    type Told = Option<MsqLen>;

    ghost tells = { TellsLen };

    fn look(queue: &AnyValues<T>, seat: &mut Seat<T>) -> Option<MsqLen> {
        let len = queue.len(seat)?;
        Some(MsqLen {
            least: len.least,
            most: len.most,
        })
    }
}

// A look by a handle.
fn look<T: Send + Drop, L: Look<AnyValues<T>>, H: Slot<WordsBlock<AnyValues<T>>>>(
    alloc: Global,
    slot: &mut H,
) -> Result<L::Told, Trouble>
    ensures { AnswersLook H.holds H.own L.tells slot.old slot.new result }
{
    if !slot.is_full() {
        return Err(Trouble::NoHandle);
    }
    let mut own = lift(alloc, slot);
    let told = own.look::<L>();
    *slot = H::of(own);
    Ok(told)
}

/// A look by a handle at whether the queue is empty.
pub(crate) fn emptiness<T: Send + Drop, H: Slot<WordsBlock<AnyValues<T>>>>(
    alloc: Global,
    slot: &mut H,
) -> Result<Emptiness, Trouble>
    ensures { AnswersLook H.holds H.own TellsEmptiness slot.old slot.new result }
{
    look::<T, ForWords, H>(alloc, slot)
}

/// A look by a handle at how many values the queue holds.
pub(crate) fn count<T: Send + Drop, H: Slot<WordsBlock<AnyValues<T>>>>(
    alloc: Global,
    slot: &mut H,
) -> Result<Option<MsqLen>, Trouble>
    ensures { AnswersLook H.holds H.own TellsLen slot.old slot.new result }
{
    look::<T, ForCount, H>(alloc, slot)
}
