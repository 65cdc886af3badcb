//! A seat, and what it stores.
ghost use Rattle.std.specs.Prelude.{◌≡◌};
ghost use Rattle.node_arena.specs.Arenas.{Arena};

use crate::roles::Role;
use crate::views::SeatToken;
use line_table::Line;
use step_machine::Held;

/// What a thread holds in order to be an actor of an arena. It is an arena's by its calls' conditions.
#[derive(Drop)]
pub struct Seat<T = ()> {
    pub(crate) token: SeatToken<T>,
    pub(crate) number: u16,
    pub(crate) role: Role,
    // Whether the pocket holds a node: to empty it is to store this alone.
    pub(crate) full: bool,
    pub(crate) held: Held,
    pub(crate) failed: u32,
    pub(crate) pushes: u64,
    pub(crate) pops: u64,
    // Whether a shut of the queue was its own.
    pub(crate) shut: bool,
    // Whether a node that comes free at a pop of its own stays in the pocket.
    pub(crate) keeps: bool,
}

impl<T> Seat<T> {
    ghost use Rattle.node_arena.specs.Seats.{number_of, role_of, pocket_of, failed_of, keeps_of};
    ghost use Rattle.node_arena.specs.Seats.{IsReady, known_of, keeping, told_to_keep, counting, HasRoom};
    ghost use Rattle.node_arena.specs.Plans as plans;

    // Counts the push, the pop or the shut that a line makes.
    pub(crate) fn count(&mut self, line: Line)
        requires { HasRoom self.old line }
        ensures { self.new ≡ counting self.old line }
    {
        match line {
            Line::E9 | Line::A5 => self.pushes += 1,
            Line::D13 | Line::B5 => self.pops += 1,
            Line::S4 | Line::S8 => self.shut = true,
            _ => {}
        }
    }

    /// The number of the seat, from 1.
    pub fn number(&self) -> u16
        ensures { result ≡ number_of self.now }
    {
        self.number
    }

    /// Whether the seat may push.
    pub fn may_push(&self) -> bool
        ensures { result ≡ plans.may_push (role_of self.now) }
    {
        match self.role {
            Role::Giver | Role::Both => true,
            Role::Taker => false,
        }
    }

    /// Whether the seat may pop.
    pub fn may_pop(&self) -> bool
        ensures { result ≡ plans.may_pop (role_of self.now) }
    {
        match self.role {
            Role::Taker | Role::Both => true,
            Role::Giver => false,
        }
    }

    /// The node in the seat's pocket, with its mark.
    pub fn pocket(&self) -> Option<Held>
        ensures { result ≡ pocket_of self.now }
    {
        if self.full { Some(self.held) } else { None }
    }

    /// Tells a seat that may push and pop whether to keep its nodes: whether a node that comes free at its pop stays in the
    /// pocket, for its next push, in place of being given back. A new seat keeps none, and one that may only push or only
    /// pop never does, whatever it is told. Takes no memory and doesn't wait.
    ///
    /// ```rust
    /// // From here on a pop of this seat ends where it took the value, and its next push needs no node from the free list.
    /// seat.keep_nodes(true);
    /// ```
    pub fn keep_nodes(&mut self, keeps: bool)
        //= atomics/keeps (ready, known, told): A seat told to keep its nodes does exactly where it may push and pop,
        //=   one told not to doesn't; nothing else of it changes, and it is ready as before.
        ensures ready { (r : Arena) → IsReady r self.old → IsReady r self.new }
        ensures known { known_of self.new ≡ known_of self.old }
        ensures told { self.new ≡ told_to_keep self.old keeps }
    {
        self.keeps = keeps && self.may_push() && self.may_pop();
    }

    /// Whether the seat keeps its nodes.
    pub fn keeps_nodes(&self) -> bool
        //= atomics/keeps
        ensures { result ≡ keeps_of self.now }
    {
        self.keeps
    }

    /// How many turns of the seat's last take or give back failed.
    pub fn failed(&self) -> u32
        //= atomics/failed: After a take and a give back `failed()` is the number of its turns that failed, below
        //=   `turns` except at `Busy`.
        ensures { result ≡ failed_of self.now }
    {
        self.failed
    }

    /// Stores a pocket and a number of failed turns, and changes nothing else.
    pub fn keep(&mut self, pocket: Option<Held>, failed: u32)
        ensures { self.new ≡ keeping self.old pocket failed }
    {
        match pocket {
            Some(held) => {
                self.full = true;
                self.held = held;
            }
            None => self.full = false,
        }
        self.failed = failed;
    }
}
