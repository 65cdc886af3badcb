//! A seat of a queue of three words behind a pointer, as C holds it.
ghost use Rattle.std.specs.Prelude.{◌≡◌, Bool, true};
ghost use Rattle.msq_c.specs.Boxed.{box_if};
ghost use Rattle.msq_c.specs.WordRows.{OwnThree, three_row};

use crate::parts::Parts;
use crate::slots::Slot;
use crate::word_blocks::WordsBlock;
use crate::words::MsqWords;
use picked::AnyValues;
use std::alloc::Global;
use std::marker::Model;
use std::ptr;

/// A seat of a queue of three words, with its share.
type ThreeSeat = WordsBlock<AnyValues<MsqWords>>;

/// A pointer to a seat, where it is full; it then owns the seat's block.
#[repr(C)]
#[derive(Drop)]
pub struct WordHandle {
    at: *mut u8,
    ghost full: { Bool },
    ghost value: { OwnThree } by { three_row.coded },
}

impl Model for WordHandle {
    ghost also_owns = { λ h. box_if three_row h.full h.at h.value };
}

/// What C holds of a seat of a queue of three words: a handle, and whether it is full. All zeros are an empty one.
#[repr(C)]
#[derive(Drop)]
pub struct MsqWordsSeat {
    handle: WordHandle,
    full: bool,
    ghost tells: { handle.full ≡ full },
}

impl Slot<ThreeSeat> for MsqWordsSeat {
    ghost use Rattle.msq_c.specs.Three.{is_full, block_at};

    ghost holds = { is_full };

    ghost own = { block_at };

    fn is_full(&self) -> bool {
        self.full
    }

    fn empty_like(&self) -> MsqWordsSeat {
        MsqWordsSeat {
            handle: WordHandle {
                at: ptr::null_mut(),
            },
            full: false,
        }
    }

    fn into_parts(self, alloc: Global) -> Parts<ThreeSeat, Global> {
        let MsqWordsSeat { handle, full: _ } = self;
        let WordHandle { at } = handle;
        Parts {
            ptr: at as *mut ThreeSeat,
            alloc,
        }
    }

    fn of_parts(parts: Parts<ThreeSeat, Global>) -> MsqWordsSeat
        ensures value { block_at result ≡ parts.value }
        ensures full { is_full result ≡ true }
    {
        let Parts { ptr, alloc: _ } = parts;
        MsqWordsSeat {
            handle: WordHandle { at: ptr as *mut u8 },
            full: true,
        }
    }
}

//= library/send
// SAFETY: proved, in proofs/word_handles/WordHandle/TheSendSync: the block may go, and a pointer is owned by one handle.
unsafe impl Send for WordHandle {}
