//! What is left in a ring, by the words of its closed table.
ghost use Rattle.std.specs.Prelude.{◌≡◌, ℕ, ◌+◌, ◌-◌, ◌*◌, ◌%◌, ◌^◌, ◌<◌, ◌≤◌, ◌++◌, [], length, true, false};
ghost use Rattle.std.specs.Prelude.{slice_index_or, vec_capacity, vec_len};
ghost use Rattle.std.specs.Slots.{slots_items, slots_filled, slots_len, IsFull};
ghost use Rattle.history.specs.Rests.{left_of, taken_of, whole_of, was_shut_of};
ghost use Rattle.ring_queue.specs.Remains.{values_from, HasWords, was_shut_in};
ghost use Rattle.ring_queue.specs.Moments.{head_in, tail_in};
ghost use Rattle.ring_queue.specs.Placed.{parts_from, beside_from, HasParts};

use crate::acts::taken_of;
use crate::places::{HEAD, SHUT, SLOTS, TAIL, part_word};
use atomic_table::Closed;
use history::{Rest, Taken};
use std::alloc::Global;

/// The table of a ring, once no thread shares it any more.
pub(crate) type ClosedTable<T = ()> = Closed<Option<T>, Global>;

// The word with an index.
fn word_at<T>(closed: &ClosedTable<T>, index: usize) -> u64
    requires full { IsFull closed.now.words }
    requires there { index < length (slots_items closed.now.words) }
    ensures { result ≡ slice_index_or (slots_items closed.now.words) index 0 }
{
    closed.word(index)
}

// The values from a place on, up to Tail, put into an empty list that has room for them.
fn values_left<T>(
    closed: &ClosedTable<T>,
    slots: u64,
    head: u64,
    tail: u64,
    mut values: Vec<Taken>,
) -> Vec<Taken>
    requires full { IsFull closed.now.words }
    requires words { HasWords slots (slots_items closed.now.words) }
    requires room { tail - head ≤ vec_capacity values }
    requires empty { values.items ≡ [] }
    ensures { result.items ≡ values_from slots (slots_items closed.now.words) head (tail - head) }
{
    for place in head..tail {
        let word = word_at(closed, SLOTS + 2 * (place % slots) as usize);
        values.push(taken_of(word)).unwrap();
    }
    values
}

/// What is left in a ring of so many slots in which each place that was claimed is filled, how many values were taken from it,
/// and whether it was shut. The list is an empty one with room for the values left.
pub(crate) fn rest_of<T>(closed: &ClosedTable<T>, slots: u64, room: Vec<Taken>) -> Rest
    requires full { IsFull closed.now.words }
    requires words { HasWords slots (slots_items closed.now.words) }
    requires low { slots ≤ head_in (slots_items closed.now.words) }
    requires room { tail_in (slots_items closed.now.words) - head_in (slots_items closed.now.words)
        ≤ vec_capacity room }
    requires empty { room.items ≡ [] }
    ensures left { left_of result ≡ values_from slots (slots_items closed.now.words)
        (head_in (slots_items closed.now.words))
        (tail_in (slots_items closed.now.words) - head_in (slots_items closed.now.words)) }
    ensures taken { taken_of result + slots ≡ head_in (slots_items closed.now.words) }
    ensures whole { whole_of result ≡ true }
    ensures shut { was_shut_of result ≡ was_shut_in (slots_items closed.now.words) }
{
    let tail = word_at(closed, TAIL);
    let head = word_at(closed, HEAD);
    let values = values_left(closed, slots, head, tail % SHUT, room);
    Rest::of(values, head - slots, true, tail >= SHUT)
}

// The words of the value of a place, put behind others into a list that has room for them.
fn value_left<T>(
    closed: &ClosedTable<T>,
    slots: u64,
    width: usize,
    place: u64,
    mut values: Vec<u64>,
) -> Vec<u64>
    requires full { IsFull closed.now.words }
    requires words { HasParts slots width (slots_items closed.now.words) }
    requires room { vec_len values + width ≤ vec_capacity values }
    ensures items { result.items ≡ values.items
        ++ parts_from slots (slots_items closed.now.words) place 0 width }
    ensures count { vec_len result ≡ vec_len values + width }
    ensures room { vec_capacity values ≤ vec_capacity result }
{
    let slot = (place % slots) as usize;
    for part in 0..width {
        let word = word_at(closed, part_word(slots, slot, part));
        values.push(word).unwrap();
    }
    values
}

// The words of the values of places from one on, up to Tail, put into an empty list that has room for them.
fn parts_left<T>(
    closed: &ClosedTable<T>,
    slots: u64,
    width: usize,
    head: u64,
    tail: u64,
    mut values: Vec<u64>,
) -> Vec<u64>
    requires full { IsFull closed.now.words }
    requires words { HasParts slots width (slots_items closed.now.words) }
    requires room { (tail - head) * width ≤ vec_capacity values }
    requires empty { values.items ≡ [] }
    ensures { result.items ≡ beside_from slots width (slots_items closed.now.words) head (tail - head) }
{
    for place in head..tail {
        values = value_left(closed, slots, width, place, values);
    }
    values
}

/// The words of the values left in a ring of so many slots whose values lie in their places, one value after another, put into an
/// empty list that has room for them.
pub(crate) fn words_left<T>(
    closed: &ClosedTable<T>,
    slots: u64,
    width: usize,
    room: Vec<u64>,
) -> Vec<u64>
    requires full { IsFull closed.now.words }
    requires words { HasParts slots width (slots_items closed.now.words) }
    requires room { (tail_in (slots_items closed.now.words) - head_in (slots_items closed.now.words))
        * width ≤ vec_capacity room }
    requires empty { room.items ≡ [] }
    ensures { result.items ≡ beside_from slots width (slots_items closed.now.words)
        (head_in (slots_items closed.now.words))
        (tail_in (slots_items closed.now.words) - head_in (slots_items closed.now.words)) }
{
    let tail = word_at(closed, TAIL);
    let head = word_at(closed, HEAD);
    parts_left(closed, slots, width, head, tail % SHUT, room)
}

/// What lay in each slot, in order, put into an empty list that has room for it.
pub(crate) fn take_all<T>(closed: &mut ClosedTable<T>, mut room: Vec<Option<T>>) -> Vec<Option<T>>
    requires full { IsFull closed.old.slots }
    requires room { slots_len closed.old.slots ≤ vec_capacity room }
    requires empty { room.items ≡ [] }
    ensures items { result.items ≡ slots_items closed.old.slots }
    ensures words { closed.new.words ≡ closed.old.words }
    ensures none { (k : ℕ) → k < slots_len closed.new.slots →
        slice_index_or (slots_filled closed.new.slots) k false ≡ false }
{
    for i in 0..closed.slot_count() {
        room.push(closed.take(i)).unwrap();
    }
    room
}
