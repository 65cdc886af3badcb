//! The end of a queue of words.
ghost use Rattle.std.specs.Prelude.{◌≡◌, ◌*◌, ◌≤◌, [], map, length, vec_capacity};
ghost use Rattle.std.specs.List.{All};
ghost use Rattle.history.specs.Rests.{left_of, taken_of, whole_of, was_shut_of};
ghost use Rattle.carriers.specs.Ends.{ClosesOf};
ghost use Rattle.carriers.specs.Rests.{left_in, taken_in, whole_in, was_shut_in};
ghost use Rattle.ring_values.specs.Words.{words_known};
ghost use Rattle.ring_values.specs.WordQueues.{joined};

use crate::words::RingWords;
use carriers::{CloseCarrier, ItemOf, RestOf};
use history::{Refusal, Rest, Taken};
use ring_queue::Seat;
use std::alloc::Global;

/// Memory for what may be left of a queue of words: for a number, the words and the value of each slot.
#[derive(Drop)]
pub struct WordRoom<const K: usize> {
    numbers: Vec<Taken>,
    words: Vec<u64>,
    values: Vec<ItemOf<[u64; K]>>,
}

// The values left: the words of each, so many, with the number of the seat that pushed it, put into an empty list that has room for
// them.
fn rest_of_words<const K: usize>(
    mut rest: Rest,
    words: Vec<u64>,
    mut values: Vec<ItemOf<[u64; K]>>,
) -> RestOf<[u64; K]>
    requires same { length words.items ≡ length (left_of rest) * K }
    requires room { length (left_of rest) ≤ vec_capacity values }
    requires empty { values.items ≡ [] }
    ensures left { left_in result ≡ joined K (left_of rest) words.items }
    ensures taken { taken_in result ≡ taken_of rest }
    ensures whole { whole_in result ≡ whole_of rest }
    ensures shut { was_shut_in result ≡ was_shut_of rest }
{
    let taken = rest.taken();
    let whole = rest.whole();
    let was_shut = rest.was_shut();
    let mut at = 0;
    while let Some(number) = rest.next() {
        let mut value = [0u64; K];
        value.copy_from_slice(&words[at..at + K]);
        let from = number.from;
        values.push(ItemOf { from, value }).unwrap();
        at += K;
    }
    RestOf::of(values, taken, whole, was_shut)
}

impl<const K: usize> CloseCarrier for RingWords<K> {
    ghost use Rattle.ring_values.specs.WordQueues.{permits_at, HasRoomAt, IsSeat};

    type Room = WordRoom<K>;

    type End = ();

    ghost ends = { λ _ _ _. Unit {0} };

    //= ring_values/rest
    ghost asks = { λ q seats. length seats ≡ length (permits_at q) };

    //= ring_values/word_room: Room for what is left of a queue of words is room for a number, the words and the value of each slot.
    ghost has_room = { HasRoomAt K };

    fn room(&self, alloc: Global) -> Result<WordRoom<K>, Refusal> {
        let (numbers, words) = self.ring.word_rooms(alloc)?;
        match Vec::with_capacity(alloc, numbers.capacity()) {
            Ok(values) => Ok(WordRoom {
                numbers,
                words,
                values,
            }),
            Err(_) => Err(Refusal::Memory),
        }
    }

    fn close_with(self, room: WordRoom<K>, seats: Vec<Seat>) -> (RestOf<[u64; K]>, ())
        requires room { HasRoomAt K self room }
        requires seats { All (IsSeat self) seats.items }
        requires asked { length (map words_known seats.items) ≡ length (permits_at self) }
        //= ring_values/rest
        ensures rest { ClosesOf (permits_at self.entry) (map words_known seats.items) result.0 }
    {
        let WordRoom {
            numbers,
            words,
            values,
        } = room;
        let RingWords { ring } = self;
        let (rest, words) = ring.close_words(numbers, words, seats);
        (rest_of_words(rest, words, values), ())
    }
}
