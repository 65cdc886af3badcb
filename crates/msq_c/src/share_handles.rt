//! A share of a queue whose calls are stepped, behind a pointer, as C holds it.
ghost use Rattle.std.specs.Prelude.{◌≡◌, Bool, true};
ghost use Rattle.msq_c.specs.Boxed.{box_if};
ghost use Rattle.msq_c.specs.ShareRows.{NumbersShare, numbers_row};

use crate::parts::Parts;
use crate::seat_blocks::Queue;
use crate::share_blocks::ShareBlock;
use crate::slots::Slot;
use carriers::Numbers;
use std::alloc::Global;
use std::marker::Model;
use std::ptr;

/// A seat of a queue of numbers, with its share.
type NumbersShare = ShareBlock<Numbers<Queue>>;

/// A pointer to a share, where it is full; it then owns the share's block.
#[repr(C)]
#[derive(Drop)]
pub struct ShareHandle {
    at: *mut u8,
    ghost full: { Bool },
    ghost value: { NumbersShare } by { numbers_row.coded },
}

impl Model for ShareHandle {
    ghost also_owns = { λ h. box_if numbers_row h.full h.at h.value };
}

/// What C holds of a share: a handle, and whether it is full. All zeros are an empty one.
#[repr(C)]
#[derive(Drop)]
pub struct MsqShare {
    handle: ShareHandle,
    full: bool,
    ghost tells: { handle.full ≡ full },
}

impl Slot<NumbersShare> for MsqShare {
    ghost use Rattle.msq_c.specs.Shares.{is_full, block_at};

    ghost holds = { is_full };

    ghost own = { block_at };

    fn is_full(&self) -> bool {
        self.full
    }

    fn empty_like(&self) -> MsqShare {
        MsqShare {
            handle: ShareHandle {
                at: ptr::null_mut(),
            },
            full: false,
        }
    }

    fn into_parts(self, alloc: Global) -> Parts<NumbersShare, Global> {
        let MsqShare { handle, full: _ } = self;
        let ShareHandle { at } = handle;
        Parts {
            ptr: at as *mut NumbersShare,
            alloc,
        }
    }

    fn of_parts(parts: Parts<NumbersShare, Global>) -> MsqShare
        ensures value { block_at result ≡ parts.value }
        ensures full { is_full result ≡ true }
    {
        let Parts { ptr, alloc: _ } = parts;
        MsqShare {
            handle: ShareHandle { at: ptr as *mut u8 },
            full: true,
        }
    }
}

//= library/send
// SAFETY: proved, in proofs/share_handles/ShareHandle/TheSendSync: the block may go, and a pointer is owned by one handle.
unsafe impl Send for ShareHandle {}
