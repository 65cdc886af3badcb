//! Seats that meet.
ghost use Rattle.node_arena.specs.Seats.{IsReady, HasNoSlot, Meets};

use crate::arena::ArenaOf;
use crate::seats::Seat;
use crate::views::{Gather, Part, Spare};
use std::marker::Brand;
use std::mem;

impl<const B: u32, T> ArenaOf<B, T> {
    /// Afterwards both seats have seen one history, which begins with what each had seen. Takes no memory and doesn't
    /// wait.
    pub fn meet(&self, one: &mut Seat<T>, other: &mut Seat<T>)
        requires one { IsReady self.now one.old }
        requires other { IsReady self.now other.old }
        requires apart { HasNoSlot one.old × HasNoSlot other.old }
        //= atomics/rule
        //= atomics/meet: Two seats that met have seen one history, which begins with what each had seen, and where values
        //=   are carried one history of these, likewise. They are as before in all else.
        ensures { Meets self.now one.old other.old one.new other.new }
    {
        let shared = &self.table.shared;
        let spare = shared.split_seat::<Spare>(&mut other.token);
        let token = mem::replace(&mut other.token, spare);
        shared.join_seat::<Gather>(&mut one.token, token);
        shared.load::<Brand>(&mut one.token, 0);
        other.token = shared.split_seat::<Part>(&mut one.token);
    }
}
