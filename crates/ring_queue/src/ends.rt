//! The end of a ring.
ghost use Rattle.std.specs.Prelude.{◌≡◌, ◌<◌, [], true, length, map, IfOk, IfErr};
ghost use Rattle.std.specs.List.{All};
ghost use Rattle.history.specs.Ends.{Closes};
ghost use Rattle.ring_queue.specs.Ends.{HasToken, HasGathered, HasRoomFor, HasWordRoom, ClosesValues, ClosesWords};
ghost use Rattle.ring_queue.specs.PlacedSeats.{IsWordSeat};
ghost use Rattle.ring_queue.specs.Queues.{IsNumberSeat, IsRingSeat, permits_in};
ghost use Rattle.ring_queue.specs.Seats.{HasNoSlot, known_of};

use crate::queue::RingQueue;
use crate::remains::{rest_of, take_all, words_left};
use crate::seats::Seat;
use crate::views::{Gather, Open, SeatToken, WordTable};
use history::{Close, Refusal, Rest, Taken};
use std::alloc::Global;

// The token takes in those of the seats.
fn gather<T>(table: &WordTable<T>, gatherer: &mut SeatToken<T>, seats: Vec<Seat<T>>)
    requires words { 0 < table.now.shared.table_id.words }
    requires gatherer { HasGathered table.now.shared.table_id gatherer.old [] }
    requires seats { All (HasToken table.now.shared.table_id) seats.items }
    ensures { HasGathered table.now.shared.table_id gatherer.new seats.items }
{
    for seat in seats {
        let Seat {
            token,
            number: _,
            role: _,
            head: _,
            tail: _,
            near: _,
        } = seat;
        let shared = &table.shared;
        shared.join_seat::<Gather>(gatherer, token);
    }
}

impl RingQueue {
    // Memory for the values left, of which there are no more than slots. Or Memory.
    fn end_room(&self, alloc: Global) -> Result<Vec<Taken>, Refusal>
        ensures room { IfOk result (HasRoomFor self.now) }
        ensures only_memory { IfErr result (λ refusal. refusal ≡ Refusal.Memory) }
    {
        match Vec::with_capacity(alloc, self.sizes().slots as usize) {
            Ok(room) => Ok(room),
            Err(_) => Err(Refusal::Memory),
        }
    }

    // Ends the ring with all its seats, each of which is in no call, so that each place that was claimed is filled.
    fn end_with(self, room: Vec<Taken>, seats: Vec<Seat>) -> Rest
        requires room { HasRoomFor self room }
        requires seats { All (IsNumberSeat self) seats.items }
        requires all { length seats.items ≡ length (permits_in self) }
        ensures rest { Closes (permits_in self) (map known_of seats.items) result }
    {
        let RingQueue { table, plan } = self;
        let shared = &table.shared;
        let mut gatherer = shared.load_new_seat::<Open>(0).1;
        gather(&table, &mut gatherer, seats);
        let closed = table.close_with(gatherer);
        let rest = rest_of(&closed, plan.slots, room);
        closed.free();
        rest
    }
}

impl<T> RingQueue<T> {
    /// How many seats the ring was made with. Takes no memory and doesn't wait.
    pub fn seat_count(&self) -> usize
        //= ring/seat_count: A ring tells how many seats it was made with.
        ensures { result ≡ length (permits_in self.now) }
    {
        self.sizes().roles.len()
    }

    /// Memory for the numbers left in a ring that carries values, and for what lies in its slots.
    ///
    /// Refused by `Memory` alone. Takes that memory, and doesn't wait.
    pub fn rooms(&self, alloc: Global) -> Result<(Vec<Taken>, Vec<Option<T>>), Refusal>
        //= ring/rooms (numbers, slots, only_memory): Room for the rest of a ring that carries values is room for a number of
        //=   each slot, and for what lies in each. Or Memory.
        ensures numbers { IfOk result (λ r. HasRoomFor self.now r.0) }
        ensures slots { IfOk result (λ r. HasRoomFor self.now r.1) }
        ensures only_memory { IfErr result (λ refusal. refusal ≡ Refusal.Memory) }
    {
        let slots = self.sizes().slots as usize;
        let Ok(numbers) = Vec::with_capacity(alloc, slots) else {
            return Err(Refusal::Memory);
        };
        let Ok(inside) = Vec::with_capacity(alloc, slots) else {
            return Err(Refusal::Memory);
        };
        Ok((numbers, inside))
    }

    /// Ends a ring that carries values with all its seats, each in no call and without a slot: the numbers left, each that of the
    /// slot in which its value lies, and all that `close_with` tells; and what lies in each slot, in order.
    ///
    /// Takes no memory and doesn't wait.
    pub fn close_values(
        self,
        numbers: Vec<Taken>,
        slots: Vec<Option<T>>,
        seats: Vec<Seat<T>>,
    ) -> (Rest, Vec<Option<T>>)
        requires numbers { HasRoomFor self numbers }
        requires slots { HasRoomFor self slots }
        requires seats { All (IsRingSeat self) seats.items }
        requires apart { All HasNoSlot seats.items }
        requires carries { self.plan.carries ≡ true }
        requires all { length seats.items ≡ length (permits_in self) }
        //= ring/values_left: The values left in a closed ring that carries them lie in the slots that the numbers left name, and
        //=   are those to which the history of its values leads, in order, each of the seat that pushed it; no more than slots.
        //=   That history begins with what each seat had seen of it, and goes one by one with that of the numbers. What is said
        //=   of any closed queue is so of the numbers.
        ensures { ClosesValues self seats.items result.0 result.1.items }
    {
        let RingQueue { table, plan } = self;
        let shared = &table.shared;
        let mut token = shared.load_new_seat::<Open>(0).1;
        gather(&table, &mut token, seats);
        let mut closed = table.close_with(token);
        let slots = take_all(&mut closed, slots);
        let rest = rest_of(&closed, plan.slots, numbers);
        closed.free();
        (rest, slots)
    }

    /// Memory for the numbers and for the words of the values left in a ring whose values lie in their places.
    ///
    /// Refused by `Memory` alone. Takes that memory, and doesn't wait.
    pub fn word_rooms(&self, alloc: Global) -> Result<(Vec<Taken>, Vec<u64>), Refusal>
        //= ring/word_rooms (numbers, values, only_memory): Room for the rest of a ring whose values lie in their places is room
        //=   for a number and the words of a value of each slot. Or Memory.
        ensures numbers { IfOk result (λ r. HasRoomFor self.now r.0) }
        ensures values { IfOk result (λ r. HasWordRoom self.now r.1) }
        ensures only_memory { IfErr result (λ refusal. refusal ≡ Refusal.Memory) }
    {
        let slots = self.sizes().slots as usize;
        let Ok(numbers) = Vec::with_capacity(alloc, slots) else {
            return Err(Refusal::Memory);
        };
        let Ok(values) = Vec::with_capacity(alloc, slots * self.sizes().width) else {
            return Err(Refusal::Memory);
        };
        Ok((numbers, values))
    }

    /// Ends a ring whose values lie in their places with all its seats, each in no call: what `close_with` tells of the numbers,
    /// each 0, and the words of the values left, in order, one value after another.
    ///
    /// Takes no memory and doesn't wait.
    pub fn close_words(
        self,
        numbers: Vec<Taken>,
        values: Vec<u64>,
        seats: Vec<Seat<T>>,
    ) -> (Rest, Vec<u64>)
        requires numbers { HasRoomFor self numbers }
        requires values { HasWordRoom self values }
        requires seats { All (IsWordSeat self) seats.items }
        requires placed { self.plan.placed ≡ true }
        requires all { length seats.items ≡ length (permits_in self) }
        //= ring/words_left: The values left in a closed ring whose values lie in their places are those to which their history
        //=   leads, in order, each of the seat that pushed it and whole, no more than slots. That history begins with what each seat
        //=   had seen of it, and goes one by one with that of the numbers. What is said of any closed queue is so of the numbers.
        ensures { ClosesWords self seats.items result.0 result.1.items }
    {
        let RingQueue { table, plan } = self;
        let shared = &table.shared;
        let mut token = shared.load_new_seat::<Open>(0).1;
        gather(&table, &mut token, seats);
        let closed = table.close_with(token);
        let values = words_left(&closed, plan.slots, plan.width, values);
        let rest = rest_of(&closed, plan.slots, numbers);
        closed.free();
        (rest, values)
    }
}

impl Close for RingQueue {
    ghost use Rattle.std.specs.Prelude.{◌≡◌, length};
    ghost use Rattle.ring_queue.specs.Ends.{HasRoomFor};
    ghost use Rattle.ring_queue.specs.Queues.{permits_in};

    type End = ();

    ghost ends = { λ _ _ _. Unit {0} };

    //= ring/rest: An end of a ring asks for as many seats as it has. Where each of its seats is among them, what is left
    //=   is whole.
    ghost asks = { λ q seats. length seats ≡ length (permits_in q) };

    //= ring/room: Room for what is left of a ring is room for a value of each slot.
    ghost has_room = { HasRoomFor };

    fn room(&self, alloc: Global) -> Result<Vec<Taken>, Refusal> {
        self.end_room(alloc)
    }

    fn close_with(self, room: Vec<Taken>, seats: Vec<Seat>) -> (Rest, ())
        requires room { HasRoomFor self room }
        requires seats { All (IsNumberSeat self) seats.items }
        requires asked { length (map known_of seats.items) ≡ length (permits_in self) }
        //= ring/rest
        ensures rest { Closes (permits_in self) (map known_of seats.items) result.0 }
    {
        (self.end_with(room, seats), ())
    }
}
