//! A look at a word, without a seat.
ghost use Rattle.std.specs.Prelude.{◌+◌, ◌*◌, ◌≤◌, ◌↔◌, IsNone, IfSome};
ghost use Rattle.node_arena.specs.Seats.{plan_of, setup_of};
ghost use Rattle.node_arena.specs.Moments.{WasWord};

use crate::arena::ArenaOf;
use crate::places::place;
use std::marker::Brand;

impl<const B: u32, T> ArenaOf<B, T> {
    /// What a word holds, by one load, for inspection; none exactly where there is no such word. The clause says no more
    /// than that it may hold this in some reachable world, as a new arena's words do: nothing of this moment, nor of what a
    /// seat has seen. Takes no memory and doesn't wait.
    pub fn peek(&self, word: usize) -> Option<u64>
        //= atomics/peek (none, held): A peek at a shared word answers none exactly where there is no such word, and
        //=   else what it holds in some reachable traced world of its setup with an actor for each seat, whatever their
        //=   roles: of which moment isn't said, and a new arena's word is one.
        ensures none { IsNone result ↔ (6 + 2 * (setup_of self.now).size ≤ word) }
        ensures held { IfSome result (WasWord (plan_of self.now) word) }
    {
        if word < 6 + 2 * self.setup().size as usize {
            let shared = &self.table.shared;
            Some(shared.load_new_seat::<Brand>(place(word)).0)
        } else {
            None
        }
    }
}
