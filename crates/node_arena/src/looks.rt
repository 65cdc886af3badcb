//! A look of a seat at a word.
ghost use Rattle.std.specs.Prelude.{◌+◌, ◌*◌, ◌<◌};

use crate::arena::ArenaOf;
use crate::places::place;
use crate::seats::Seat;
use std::marker::Brand;

impl<const B: u32, T> ArenaOf<B, T> {
    ghost use Rattle.node_arena.specs.Seats.{IsReady, setup_of};
    ghost use Rattle.node_arena.specs.Looks.{Looks};

    /// What a word holds, by one load of a seat in no call, which has then seen the history of that moment. Takes no memory
    /// and doesn't wait.
    pub fn look(&self, seat: &mut Seat<T>, word: usize) -> u64
        requires ready { IsReady self.now seat.old }
        requires word { word < 6 + 2 * (setup_of self.now).size }
        //= atomics/look: A seat that looks at a word has seen the whole history of a reachable traced world in
        //=   which the word holds the number answered. Since its look before, Head is there the same or its count
        //=   is higher, and so is Tail in the non-blocking queue. It is ready as before.
        ensures { Looks self.now seat.old seat.new word result }
    {
        let _ = self.setup();
        self.table
            .shared
            .load::<Brand>(&mut seat.token, place(word))
    }
}
