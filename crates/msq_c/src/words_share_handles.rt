//! A share of a queue of three words whose calls are stepped, behind a pointer, as C holds it.
ghost use Rattle.std.specs.Prelude.{◌≡◌, Bool, true};
ghost use Rattle.msq_c.specs.Boxed.{box_if};
ghost use Rattle.msq_c.specs.ShareRows.{WordsShare, words_row};

use crate::parts::Parts;
use crate::share_blocks::ShareBlock;
use crate::slots::Slot;
use crate::words_shares::WordsQueue;
use std::alloc::Global;
use std::marker::Model;
use std::ptr;

/// A seat of a queue of three words, with its share.
type WordsShare = ShareBlock<WordsQueue>;

/// A pointer to a share, where it is full; it then owns the share's block.
#[repr(C)]
#[derive(Drop)]
pub struct WordsShareHandle {
    at: *mut u8,
    ghost full: { Bool },
    ghost value: { WordsShare } by { words_row.coded },
}

impl Model for WordsShareHandle {
    ghost also_owns = { λ h. box_if words_row h.full h.at h.value };
}

/// What C holds of a share of a queue of three words: a handle, and whether it is full. All zeros are an empty one.
#[repr(C)]
#[derive(Drop)]
pub struct MsqWordsShare {
    handle: WordsShareHandle,
    full: bool,
    ghost tells: { handle.full ≡ full },
}

impl Slot<WordsShare> for MsqWordsShare {
    ghost use Rattle.msq_c.specs.WordsShares.{is_full, block_at};

    ghost holds = { is_full };

    ghost own = { block_at };

    fn is_full(&self) -> bool {
        self.full
    }

    fn empty_like(&self) -> MsqWordsShare {
        MsqWordsShare {
            handle: WordsShareHandle {
                at: ptr::null_mut(),
            },
            full: false,
        }
    }

    fn into_parts(self, alloc: Global) -> Parts<WordsShare, Global> {
        let MsqWordsShare { handle, full: _ } = self;
        let WordsShareHandle { at } = handle;
        Parts {
            ptr: at as *mut WordsShare,
            alloc,
        }
    }

    fn of_parts(parts: Parts<WordsShare, Global>) -> MsqWordsShare
        ensures value { block_at result ≡ parts.value }
        ensures full { is_full result ≡ true }
    {
        let Parts { ptr, alloc: _ } = parts;
        MsqWordsShare {
            handle: WordsShareHandle { at: ptr as *mut u8 },
            full: true,
        }
    }
}

//= library/send
// SAFETY: proved, in proofs/words_share_handles/WordsShareHandle/TheSendSync: the block may go, and a pointer is owned by one handle.
unsafe impl Send for WordsShareHandle {}
