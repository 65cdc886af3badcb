//! The end of an arena.
ghost use Rattle.std.specs.Prelude.{◌≡◌, ◌<◌, true, false, nat_lt, [], map, IfOk, IfErr};
ghost use Rattle.std.specs.List.{All};
ghost use Rattle.history.specs.Ends.{pushes_of, pops_of, shuts_of, Closes};
ghost use Rattle.node_arena.specs.Seats.{known_of, permits_of, carries_of, HasNoSlot, IsReady};
ghost use Rattle.node_arena.specs.Ends.{HasToken, HasGathered, CountsItsOwn};
ghost use Rattle.node_arena.specs.Ended.{HasRoomFor, Leaves};
ghost use Rattle.node_arena.specs.Leftovers.{ClosesValues, rest_in};

use crate::arena::ArenaOf;
use crate::ended::Ended;
use crate::leftovers::LeftValues;
use crate::remains::{Made, rest_of};
use crate::seats::Seat;
use crate::views::{Gather, Open, SeatToken, WordTable};
use history::{Refusal, Rest, Taken};
use std::alloc::Global;

// How many pushes the seats made.
fn pushes_by<T>(seats: &[Seat<T>]) -> u128
    requires { All CountsItsOwn seats.now }
    ensures { result ≡ pushes_of (map known_of seats.now) }
{
    let mut pushes: u128 = 0;
    for seat in seats {
        pushes += u128::from(seat.pushes);
    }
    pushes
}

// How many pops the seats made.
fn pops_by<T>(seats: &[Seat<T>]) -> u128
    requires { All CountsItsOwn seats.now }
    ensures { result ≡ pops_of (map known_of seats.now) }
{
    let mut pops: u128 = 0;
    for seat in seats {
        pops += u128::from(seat.pops);
    }
    pops
}

// Whether one of the seats made a shut.
fn shut_by<T>(seats: &[Seat<T>]) -> bool
    requires { All CountsItsOwn seats.now }
    ensures { result ≡ nat_lt 0 (shuts_of (map known_of seats.now)) }
{
    let mut shut = false;
    for seat in seats {
        if seat.shut {
            shut = true;
        }
    }
    shut
}

// The token takes in those of the seats.
fn gather<T>(table: &WordTable<T>, gatherer: &mut SeatToken<T>, seats: Vec<Seat<T>>)
    requires words { 0 < table.now.shared.table_id.words }
    requires gatherer { HasGathered table.now.shared.table_id gatherer.old [] }
    requires seats { All (HasToken table.now.shared.table_id) seats.items }
    ensures { HasGathered table.now.shared.table_id gatherer.new seats.items }
{
    for seat in seats {
        let Seat {
            token,
            number: _,
            role: _,
            full: _,
            held: _,
            failed: _,
            pushes: _,
            pops: _,
            shut: _,
            keeps: _,
        } = seat;
        let shared = &table.shared;
        shared.join_seat::<Gather>(gatherer, token);
    }
}

// A token that took in those of the seats, and what these made.
fn gathered<T>(table: &WordTable<T>, seats: Vec<Seat<T>>) -> (SeatToken<T>, Made)
    requires words { 0 < table.now.shared.table_id.words }
    requires seats { All (HasToken table.now.shared.table_id) seats.items }
    requires counts { All CountsItsOwn seats.items }
    ensures token { HasGathered table.now.shared.table_id result.0 seats.items }
    ensures pushes { result.1.pushes ≡ pushes_of (map known_of seats.items) }
    ensures pops { result.1.pops ≡ pops_of (map known_of seats.items) }
    ensures shut { result.1.shut ≡ nat_lt 0 (shuts_of (map known_of seats.items)) }
{
    let pushes = pushes_by(&seats);
    let pops = pops_by(&seats);
    let shut = shut_by(&seats);
    let shared = &table.shared;
    let mut gatherer = shared.load_new_seat::<Open>(0).1;
    gather(table, &mut gatherer, seats);
    (gatherer, Made { pushes, pops, shut })
}

impl<const B: u32> ArenaOf<B> {
    /// Memory for the values left in the queue, of which there are no more than nodes.
    ///
    /// Refused by `Memory` alone. Takes that memory, and doesn't wait.
    pub fn room(&self, alloc: Global) -> Result<Vec<Taken>, Refusal>
        //= atomics/room (room, only_memory): Room for the rest of an arena is room for a value of each node. Or Memory.
        ensures room { IfOk result (HasRoomFor self.now) }
        ensures only_memory { IfErr result (λ refusal. refusal ≡ Refusal.Memory) }
    {
        match Vec::with_capacity(alloc, self.plan.setup.size as usize) {
            Ok(room) => Ok(room),
            Err(_) => Err(Refusal::Memory),
        }
    }

    /// Ends the arena and the seats handed in, each of which is one of its own and in no call: which values are left in
    /// the queue, how many were taken from it, whether these seats made all its pushes and pops and, where it was shut, the
    /// shut, and whether it was; with it comes the arena's end.
    ///
    /// Takes no memory and doesn't wait.
    pub fn close_with(self, room: Vec<Taken>, seats: Vec<Seat>) -> (Rest, Ended)
        requires room { HasRoomFor self room }
        requires seats { All (IsReady self) seats.items }
        requires numbers { carries_of self ≡ false }
        //= atomics/rest (rest, ends): A closed arena tells of its rest what `Close::close_with` does. The values left are
        //=   those of the chain from Head on in the words of the `Ended` that comes with it, and Head's count there is how
        //=   many were taken, whichever seats are handed in. It has a token of this arena's table; that the words are that
        //=   table's, its one maker sees to, and no clause.
        ensures rest { Closes (permits_of self.entry) (map known_of seats.items) result.0 }
        ensures ends { Leaves self.entry result.1 result.0 }
    {
        let ArenaOf { table, plan: _ } = self;
        let (gatherer, made) = gathered(&table, seats);
        let ended = Ended::of(table, gatherer);
        let rest = rest_of::<B, ()>(ended.closed(), made, room);
        (rest, ended)
    }
}

impl<const B: u32, T> ArenaOf<B, T> {
    /// Memory for the numbers left in an arena that carries values, as an `Arena` doesn't, and for what lies in its slots.
    ///
    /// Refused by `Memory` alone. Takes that memory, and doesn't wait.
    pub fn rooms(&self, alloc: Global) -> Result<(Vec<Taken>, Vec<Option<T>>), Refusal>
        //= atomics/rooms (numbers, slots, only_memory): Room for the rest of an arena that carries values is room for a
        //=   number of each node, and for what lies in each slot. Or Memory.
        ensures numbers { IfOk result (λ r. HasRoomFor self.now r.0) }
        ensures slots { IfOk result (λ r. HasRoomFor self.now r.1) }
        ensures only_memory { IfErr result (λ refusal. refusal ≡ Refusal.Memory) }
    {
        let size = self.plan.setup.size as usize;
        let Ok(numbers) = Vec::with_capacity(alloc, size) else {
            return Err(Refusal::Memory);
        };
        let Ok(slots) = Vec::with_capacity(alloc, size) else {
            return Err(Refusal::Memory);
        };
        Ok((numbers, slots))
    }

    /// Ends an arena that carries values and the seats handed in, each of which is one of its own, in no call and without a
    /// slot: which values are left in the queue, and all that `close_with` tells; with it comes the arena's end.
    ///
    /// Takes no memory and doesn't wait.
    pub fn close_values(
        self,
        numbers: Vec<Taken>,
        slots: Vec<Option<T>>,
        seats: Vec<Seat<T>>,
    ) -> (LeftValues<T>, Ended<T>)
        requires numbers { HasRoomFor self numbers }
        requires slots { HasRoomFor self slots }
        requires seats { All (IsReady self) seats.items }
        requires apart { All HasNoSlot seats.items }
        requires carries { carries_of self ≡ true }
        //= atomics/values_left (values, ends): The values left in a closed arena that carries them are those to which the
        //=   history of its values leads, in order, each with the number of the seat that pushed it; no more than nodes.
        //=   That history begins with what each seat handed in had seen of it, and goes one by one with that of the
        //=   numbers. What is said of any closed queue is so of the numbers, which are those in the words of the `Ended`
        //=   that comes with it.
        ensures values { ClosesValues self seats.items result.0 }
        ensures ends { Leaves self result.1 (rest_in result.0) }
    {
        let ArenaOf { table, plan: _ } = self;
        let (gatherer, made) = gathered(&table, seats);
        let (ended, slots) = Ended::emptied(table, gatherer, slots);
        let rest = rest_of::<B, T>(ended.closed(), made, numbers);
        (LeftValues::of(rest, slots), ended)
    }
}
