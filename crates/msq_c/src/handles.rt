//! A seat behind a pointer, as C holds it.
ghost use Rattle.std.specs.Prelude.{◌≡◌, Bool, true};
ghost use Rattle.msq_c.specs.Boxed.{box_if};
ghost use Rattle.msq_c.specs.declared.seat_blocks.SeatBlock.{SeatBlock};
ghost use Rattle.msq_c.specs.contracts.seat_blocks.SeatBlock.{the_row};

use crate::parts::Parts;
use crate::seat_blocks::SeatBlock;
use crate::slots::Slot;
use std::alloc::Global;
use std::marker::Model;
use std::ptr;

/// A pointer to a seat, where it is full; it then owns the seat's block.
#[repr(C)]
#[derive(Drop)]
pub struct Handle {
    at: *mut u8,
    ghost full: { Bool },
    ghost value: { SeatBlock } by { the_row.coded },
}

impl Model for Handle {
    ghost also_owns = { λ h. box_if the_row h.full h.at h.value };
}

/// What C holds of a seat: a handle, and whether it is full. All zeros are an empty one.
#[repr(C)]
#[derive(Drop)]
pub struct MsqSeat {
    handle: Handle,
    full: bool,
    ghost tells: { handle.full ≡ full },
}

impl Slot<SeatBlock> for MsqSeat {
    ghost use Rattle.msq_c.specs.Seats.{is_full, block_at};

    ghost holds = { is_full };

    ghost own = { block_at };

    fn is_full(&self) -> bool {
        self.full
    }

    fn empty_like(&self) -> MsqSeat {
        MsqSeat {
            handle: Handle {
                at: ptr::null_mut(),
            },
            full: false,
        }
    }

    fn into_parts(self, alloc: Global) -> Parts<SeatBlock, Global> {
        let MsqSeat { handle, full: _ } = self;
        let Handle { at } = handle;
        Parts {
            ptr: at as *mut SeatBlock,
            alloc,
        }
    }

    fn of_parts(parts: Parts<SeatBlock, Global>) -> MsqSeat
        ensures value { block_at result ≡ parts.value }
        ensures full { is_full result ≡ true }
    {
        let Parts { ptr, alloc: _ } = parts;
        MsqSeat {
            handle: Handle { at: ptr as *mut u8 },
            full: true,
        }
    }
}

//= library/send: A handle, `MsqSeat`, `MsqWordsSeat` or `MsqShare`, may go to another thread; the calls that
//=   make queues need this.
// SAFETY: proved, in proofs/handles/Handle/TheSendSync: the block may go, and a pointer is owned by one handle.
unsafe impl Send for Handle {}
