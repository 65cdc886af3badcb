//! What is left of a queue, by the words of its closed table.
ghost use Rattle.std.specs.Prelude.{◌≡◌, ◌↔◌, ◌+◌, ◌*◌, ◌<◌, IsTrue, [], length};
ghost use Rattle.std.specs.Prelude.{slice_index, vec_capacity};
ghost use Rattle.std.specs.Slots.{slots_items, IsFull};
ghost use Rattle.counted_ref.specs.Ref.{IsSplit};
ghost use Rattle.history.specs.Rests.{left_of, taken_of, whole_of, was_shut_of};
ghost use Rattle.line_steps.specs.Words as words;
ghost use Rattle.node_arena.specs.Places.{shared_words};
ghost use Rattle.node_arena.specs.Remains.{ref_at, HasNode, HaveValues, HasValues};
ghost use Rattle.node_arena.specs.Remains.{AreLeft, IsQueue};

use crate::places::place;
use atomic_table::Closed;
use counted_ref::{CountedRefOf, shut_node};
use history::{Rest, Taken};
use line_steps::value_of;
use std::alloc::Global;

/// The table of an arena, once no thread shares it any more.
pub(crate) type ClosedTable<T> = Closed<Option<T>, Global>;

/// How many pushes and pops some seats made, and whether one of them made a shut. There is room for those of any list of
/// seats.
#[derive(Clone, Copy)]
pub(crate) struct Made {
    pub(crate) pushes: u128,
    pub(crate) pops: u128,
    pub(crate) shut: bool,
}

// The values of a chain, and whether it ends at a closed end.
struct Chain {
    values: Vec<Taken>,
    shut: bool,
}

// The shared word with an index.
fn word_at<T>(closed: &ClosedTable<T>, index: usize) -> u64
    requires full { IsFull closed.now.words }
    requires there { index < length (shared_words (slots_items closed.now.words)) }
    ensures { result ≡ slice_index (shared_words (slots_items closed.now.words)) index }
{
    closed.word(place(index))
}

fn reference_at<const B: u32, T>(closed: &ClosedTable<T>, index: usize) -> CountedRefOf<B>
    requires split { IsSplit B }
    requires full { IsFull closed.now.words }
    requires there { index < length (shared_words (slots_items closed.now.words)) }
    ensures { result ≡ ref_at B (shared_words (slots_items closed.now.words)) index }
{
    CountedRefOf::of_word(word_at(closed, index))
}

// The node that a node names as the next one.
fn next_of<const B: u32, T>(closed: &ClosedTable<T>, node: u32) -> u32
    requires split { IsSplit B }
    requires full { IsFull closed.now.words }
    requires there { HasNode (shared_words (slots_items closed.now.words)) node }
    ensures { result ≡ (ref_at B (shared_words (slots_items closed.now.words)) (4 + 2 * node)).node }
{
    reference_at::<B, T>(closed, 4 + 2 * node as usize).node()
}

fn value_at<T>(closed: &ClosedTable<T>, node: u32) -> Taken
    requires full { IsFull closed.now.words }
    requires there { HasNode (shared_words (slots_items closed.now.words)) node }
    ensures { result ≡ words.value_of
        (slice_index (shared_words (slots_items closed.now.words)) (5 + 2 * node)) }
{
    value_of(word_at(closed, 5 + 2 * node as usize))
}

// The values from a node on, put into an empty list that has room for them.
fn values_from<const B: u32, T>(
    closed: &ClosedTable<T>,
    first: u32,
    mut values: Vec<Taken>,
) -> Chain
    requires split { IsSplit B }
    requires full { IsFull closed.now.words }
    requires some { HasValues B (shared_words (slots_items closed.now.words)) first
        (vec_capacity values) }
    requires empty { values.items ≡ [] }
    ensures { HaveValues B (shared_words (slots_items closed.now.words)) result.shut first
        result.values.items }
{
    let end = shut_node(B);
    let mut node = first;
    while node != 0 && node != end {
        values.push(value_at(closed, node)).unwrap();
        node = next_of::<B, T>(closed, node);
    }
    Chain {
        values,
        shut: node == end,
    }
}

/// What is left in a queue, how many values were taken from it, whether these are all pushes and pops and, where it was shut,
/// the shut, and whether it was. The list is an empty one with room for the values left.
pub(crate) fn rest_of<const B: u32, T>(
    closed: &ClosedTable<T>,
    made: Made,
    room: Vec<Taken>,
) -> Rest
    requires split { IsSplit B }
    requires full { IsFull closed.now.words }
    requires queue { IsQueue B (shared_words (slots_items closed.now.words)) (vec_capacity room) }
    requires empty { room.items ≡ [] }
    ensures left { AreLeft B (shared_words (slots_items closed.now.words)) (was_shut_of result)
        (left_of result) }
    ensures taken { taken_of result ≡ (ref_at B (shared_words (slots_items closed.now.words)) 2).count }
    ensures whole { IsTrue (whole_of result) ↔
        ((made.pops ≡ taken_of result) × (made.pushes ≡ taken_of result + length (left_of result)) ×
        (IsTrue (was_shut_of result) → IsTrue made.shut)) }
{
    let head = reference_at::<B, T>(closed, 2);
    let Chain { values, shut } = values_from::<B, T>(
        closed,
        next_of::<B, T>(closed, head.node()),
        room,
    );
    let taken = head.count();
    let pushes = u128::from(taken) + values.len() as u128;
    let shut_is_theirs = made.shut || !shut;
    let whole = made.pops == u128::from(taken) && made.pushes == pushes && shut_is_theirs;
    Rest::of(values, taken, whole, shut)
}
