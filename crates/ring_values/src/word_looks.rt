//! What a seat can see of its queue of words without taking anything.
ghost use Rattle.std.specs.Prelude.{◌≡◌, length};
ghost use Rattle.ring_queue.specs.Lengths.{WasSoLong};
ghost use Rattle.ring_queue.specs.Seats.{KeepsName, known_of};
ghost use Rattle.ring_values.specs.Words.{words_known};

use crate::words::RingWords;
use node_arena::Len;
use ring_queue::Seat;

impl<const K: usize> RingWords<K> {
    ghost use Rattle.ring_values.specs.WordQueues.{permits_at, IsSeat};

    /// How many seats the queue was made with. Takes no memory and doesn't wait.
    pub fn seat_count(&self) -> usize
        //= ring_values/seat_count
        ensures { result ≡ length (permits_at self.now) }
    {
        self.ring.seat_count()
    }

    /// How many values the queue holds, as `len` of a ring of numbers tells, by three loads. Takes no memory and doesn't wait.
    pub fn len(&self, seat: &mut Seat) -> Len
        requires { IsSeat self.now seat.old }
        ensures seat { IsSeat self.now seat.new }
        ensures name { KeepsName seat.old seat.new }
        ensures number { (words_known seat.new).number ≡ (words_known seat.old).number }
        //= ring_values/word_len (seat, name, number, long): A seat that looks how long its queue of words is is told what a ring of
        //=   numbers tells of its own length, and is in no call, as before.
        ensures long { WasSoLong (known_of seat.old) result (known_of seat.new) }
    {
        self.ring.len_words(seat)
    }
}
