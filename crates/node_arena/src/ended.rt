//! The table of an arena that was closed.
ghost use Rattle.std.specs.Prelude.{◌≡◌, ◌<◌, ◌≤◌, ℕ, false, [], vec_capacity, slice_index_or};
ghost use Rattle.std.specs.Slots.{slots_items, slots_filled, slots_len, IsFull};

use crate::remains::ClosedTable;
use crate::views::{Open, SeatToken, WordTable};

/// The table of an arena, once no thread shares it any more, with a token of that table, so that it can't be taken for
/// another one. Nothing lies in its slots any more. `of` and `emptied` alone make one.
pub struct Ended<T = ()> {
    closed: ClosedTable<T>,
    token: SeatToken<T>,
    ghost full: { IsFull closed.words },
    ghost none: { (k : ℕ) → k < slots_len closed.slots →
        slice_index_or (slots_filled closed.slots) k false ≡ false },
}

// What lay in each slot, in order, put into an empty list that has room for it.
fn take_all<T>(closed: &mut ClosedTable<T>, mut room: Vec<Option<T>>) -> Vec<Option<T>>
    requires full { IsFull closed.old.slots }
    requires room { slots_len closed.old.slots ≤ vec_capacity room }
    requires empty { room.items ≡ [] }
    ensures items { result.items ≡ slots_items closed.old.slots }
    ensures words { closed.new.words ≡ closed.old.words }
    ensures none { (k : ℕ) → k < slots_len closed.new.slots →
        slice_index_or (slots_filled closed.new.slots) k false ≡ false }
{
    for i in 0..closed.slot_count() {
        room.push(closed.take(i)).unwrap();
    }
    room
}

impl<T> Ended<T> {
    ghost use Rattle.atomic_table.specs.Table.{Final, Seen};
    ghost use Rattle.node_arena.specs.Beside.{HoldsFor};
    ghost use Rattle.node_arena.specs.Ended.{ended_id, closed_of};

    /// The end of a table without slots, whose last state has the view of a token. Takes no memory.
    pub(crate) fn of(table: WordTable<T>, gatherer: SeatToken<T>) -> Ended<T>
        requires words { 0 < table.shared.table_id.words }
        requires slots { table.shared.table_id.slots ≡ 0 }
        requires gatherer { gatherer.table_id ≡ table.shared.table_id }
        ensures id { ended_id result ≡ table.shared.table_id }
        ensures words { slots_len (closed_of result).words ≡ table.shared.table_id.words }
        ensures values { Final (Seen (HoldsFor table.shared.key) gatherer.id gatherer.me.0)
            (slots_items (closed_of result).words) (slots_items (closed_of result).slots) }
    {
        let shared = &table.shared;
        let token = shared.load_new_seat::<Open>(0).1;
        Ended {
            closed: table.close_with(gatherer),
            token,
        }
    }

    /// The end of a table, whose last state has the view of a token, and what lay in each of its slots, in order. That is
    /// put into an empty list, which has room for it. Takes no memory.
    pub(crate) fn emptied(
        table: WordTable<T>,
        gatherer: SeatToken<T>,
        room: Vec<Option<T>>,
    ) -> (Ended<T>, Vec<Option<T>>)
        requires words { 0 < table.shared.table_id.words }
        requires gatherer { gatherer.table_id ≡ table.shared.table_id }
        requires room { table.shared.table_id.slots ≤ vec_capacity room }
        requires empty { room.items ≡ [] }
        ensures id { ended_id result.0 ≡ table.shared.table_id }
        ensures values { Final (Seen (HoldsFor table.shared.key) gatherer.id gatherer.me.0)
            (slots_items (closed_of result.0).words) result.1.items }
    {
        let shared = &table.shared;
        let token = shared.load_new_seat::<Open>(0).1;
        let mut closed = table.close_with(gatherer);
        let slots = take_all(&mut closed, room);
        (Ended { closed, token }, slots)
    }

    /// The words. Takes no memory.
    pub(crate) fn closed(&self) -> &ClosedTable<T>
        ensures closed { result.now ≡ closed_of self.now }
        ensures full { IsFull result.now.words }
    {
        &self.closed
    }
}

impl<T> Drop for Ended<T> {
    fn drop(self) {
        let Ended { closed, token: _ } = self;
        closed.free();
    }
}
