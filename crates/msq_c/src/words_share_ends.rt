//! The end of a queue of three words whose calls may wait.
ghost use Rattle.std.specs.Prelude.{◌≡◌, MatchBool, length};
ghost use Rattle.std.specs.List.{All};
ghost use Rattle.msq_c.specs.WordsQueues.{IsSeat, IsEnough};
ghost use Rattle.msq_c.specs.WordsShareEnds.{has_words_room, closes_words, ends_words};

use crate::share_ends::EndQueue;
use crate::troubles::Trouble;
use crate::words::MsqWords;
use crate::words_shares::{WordsQueue, WordsSeat};
use carriers::RestOf;
use node_arena::{Ended, Seat};
use picked::{EitherEnd, EitherQueue, EitherRoom};
use ring_queue::Seat as RingSeat;
use ring_values::Room as RingRoom;
use std::alloc::Global;
use value_queue::Room;

/// What an end of a queue of three words gives beside the rest.
type WordsEnd = EitherEnd<Ended<MsqWords>, ()>;

/// Memory for the end of a queue of three words: for what is left and its seats as those of its kind.
type WordsRoom = EitherRoom<Room<MsqWords>, Seat<MsqWords>, RingRoom<MsqWords>, RingSeat<MsqWords>>;

// Whether so many seats are enough for an end of the queue.
fn are_enough(queue: &WordsQueue, count: usize) -> bool
    ensures { MatchBool result (IsEnough queue.now count) (¬ IsEnough queue.now count) }
{
    match queue {
        EitherQueue::First(_) => true,
        EitherQueue::Second(ring) => count == ring.seat_count(),
    }
}

impl EndQueue for WordsQueue {
    type Room = WordsRoom;

    type Rest = RestOf<MsqWords>;

    type End = WordsEnd;

    ghost has_room = { has_words_room };

    ghost closes = { closes_words };

    ghost ends = { ends_words };

    fn end_room(&self, alloc: Global, count: usize) -> Result<WordsRoom, Trouble> {
        if !are_enough(self, count) {
            return Err(Trouble::InUse);
        }
        match self.values_room(alloc, count) {
            Ok(room) => Ok(room),
            Err(refusal) => Err(Trouble::Refused(refusal)),
        }
    }

    fn end_with(self, room: WordsRoom, seats: Vec<WordsSeat>) -> (RestOf<MsqWords>, WordsEnd)
        requires room { has_words_room self (length seats.items) room }
        requires seats { All (IsSeat self) seats.items }
        ensures closes { closes_words self seats.items result.0 }
        ensures ends { ends_words self result.1 result.0 }
    {
        self.close_values_with(room, seats)
    }
}
