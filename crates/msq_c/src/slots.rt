//! What C holds of a seat or of a share, whatever its values are.
ghost use Rattle.std.specs.Prelude.{◌≡◌, Bool, MatchBool, IfOk, IfErr, length, map, true, false};
ghost use Rattle.msq_c.specs.Ends.{IsMemory};
ghost use Rattle.msq_c.specs.WordEnds.{AreFull, AreEmpty, ArePut};

use crate::parts::Parts;
use crate::troubles::Trouble;
use history::Refusal;
use std::alloc::Global;
use std::mem;

/// What C holds of a seat: a pointer to it, where it is full, which then owns the seat's block.
pub trait Slot<O: Drop>: Send + Drop + Sized {
    // Whether there is a seat.
    ghost holds: { Self → Bool };

    // The seat, where there is one.
    ghost own: { Self → O };

    /// Whether there is a seat.
    fn is_full(&self) -> bool
        ensures { result ≡ holds self.now };

    /// An empty handle.
    fn empty_like(&self) -> Self
        ensures { holds result ≡ false };

    /// What a full handle owns, with its allocator.
    fn into_parts(self, alloc: Global) -> Parts<O, Global>
        requires { holds self ≡ true }
        ensures { result.value ≡ own self };

    /// A full handle, which owns what these parts owned.
    fn of_parts(parts: Parts<O, Global>) -> Self
        ensures value { own result ≡ parts.value }
        ensures full { holds result ≡ true };

    /// The seat of a full handle.
    final fn into_seat(self, alloc: Global) -> Box<O, Global>
        requires { holds self ≡ true }
        ensures { result.value ≡ own self }
    {
        self.into_parts(alloc).into_box()
    }

    /// A full handle of this seat.
    final fn of(seat: Box<O, Global>) -> Self
        ensures value { own result ≡ seat.value }
        ensures full { holds result ≡ true }
    {
        Self::of_parts(Parts::of(seat))
    }
}

/// The seat of a full handle, which is left empty.
pub(crate) fn lift<O: Drop, H: Slot<O>>(alloc: Global, slot: &mut H) -> Box<O, Global>
    requires { H.holds slot.old ≡ true }
    ensures value { result.value ≡ H.own slot.old }
    ensures empty { H.holds slot.new ≡ false }
{
    let empty = slot.empty_like();
    mem::replace(slot, empty).into_seat(alloc)
}

/// Whether each handle is empty.
pub(crate) fn all_are_empty<O: Drop, H: Slot<O>>(slots: &[H]) -> bool
    ensures { MatchBool result (AreEmpty H.holds slots.now) (¬ AreEmpty H.holds slots.now) }
{
    slots.iter().all(|slot| !slot.is_full())
}

/// Whether each handle is full.
pub(crate) fn all_are_full<O: Drop, H: Slot<O>>(slots: &[H]) -> bool
    ensures { MatchBool result (AreFull H.holds slots.now) (¬ AreFull H.holds slots.now) }
{
    slots.iter().all(|slot| slot.is_full())
}

/// As many empty handles.
pub(crate) fn empties<O: Drop, H: Slot<O>>(alloc: Global, like: &[H]) -> Result<Vec<H>, Trouble>
    ensures empty { IfOk result (λ handles. AreEmpty H.holds handles.items) }
    ensures len { IfOk result (λ handles. length handles.items ≡ length like.now) }
    ensures only_memory { IfErr result IsMemory }
{
    let mut handles = Vec::new(alloc);
    for slot in like {
        if handles.push(slot.empty_like()).is_err() {
            return Err(Trouble::Refused(Refusal::Memory));
        }
    }
    Ok(handles)
}

/// A full handle of each block. There is memory for all before the first one is made, since a handle that is dropped frees nothing.
pub(crate) fn sealed<O: Drop, H: Slot<O>>(
    alloc: Global,
    boxes: Vec<Box<O, Global>>,
) -> Result<Vec<H>, Trouble>
    ensures put { IfOk result
        (λ h. ArePut H.holds H.own (map (λ b. b.value) boxes.items) h.items) }
    ensures len { IfOk result (λ h. length h.items ≡ length boxes.items) }
    ensures only_memory { IfErr result IsMemory }
{
    let Ok(mut handles) = Vec::with_capacity(alloc, boxes.len()) else {
        return Err(Trouble::Refused(Refusal::Memory));
    };
    for boxed in boxes {
        handles.push_reserved(H::of(boxed));
    }
    Ok(handles)
}
