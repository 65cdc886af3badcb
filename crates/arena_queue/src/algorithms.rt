//! What an algorithm of a queue on an arena has to bring.
ghost use Rattle.std.specs.Prelude.{◌≡◌, ◌<◌, ◌≤◌, Option, Some, None, IsTrue};
ghost use Rattle.line_table.specs.declared.lines.Kind.{Kind as TheKind};
ghost use Rattle.history.specs.declared.refusals.WornWord.{WornWord as TheWornWord};
ghost use Rattle.node_arena.specs.Machine.{Held as TheHeld};
ghost use Rattle.node_arena.specs.Plans.{may_push, may_pop};
ghost use Rattle.node_arena.specs.Loads.{IsLoaded, IsBare};
ghost use Rattle.node_arena.specs.Seats.{IsReady, role_of, pocket_of};
ghost use Rattle.arena_queue.specs.Answers.{IsOfKind, PushesWithNode, PopsWithoutNode, AnswersShut};

use history::{Body, Refusal, Taken};
use line_table::Kind;
use node_arena::{ArenaOf, Held, Seat};

/// How a queue on an arena pushes a node that it has, pops, and is shut, where `B` bits of a word hold a node.
pub trait Algorithm<const B: u32> {
    // The kind of its arenas.
    ghost kind: { TheKind };

    // Which words stop a push of a node where they are worn out, and what is then in the pocket.
    ghost push_worn: { TheWornWord → Option TheHeld → Type 0 };

    // Which words stop a pop where they are worn out.
    ghost pop_worn: { TheWornWord → Type 0 };

    // Whether Tail stops a shut where it is worn out.
    ghost shut_worn: { Type 0 };

    /// The kind of its arenas.
    fn kind() -> Kind
        ensures { result ≡ kind };

    /// The push with the node in the pocket, where `spent` turns of this call failed before.
    fn push_with_node<T>(
        arena: &ArenaOf<B, T>,
        seat: &mut Seat<T>,
        held: Held,
        body: Body,
        spent: u32,
        turns: u32,
    ) -> Result<(), Refusal>
        requires ready { IsReady arena.now seat.old }
        requires kind { IsOfKind arena.now kind }
        requires loaded { IsLoaded arena.now body seat.old }
        requires role { IsTrue (may_push (role_of seat.old)) }
        requires full { pocket_of seat.old ≡ Some held }
        requires turns { spent < turns }
        ensures { PushesWithNode push_worn arena.now seat.old seat.new held.node body spent turns
            result };

    /// The pop with an empty pocket, where `spent` turns of this call failed before.
    fn pop_without_node<T>(
        arena: &ArenaOf<B, T>,
        seat: &mut Seat<T>,
        spent: u32,
        turns: u32,
    ) -> Result<Option<Taken>, Refusal>
        requires ready { IsReady arena.now seat.old }
        requires kind { IsOfKind arena.now kind }
        requires bare { IsBare arena.now seat.old }
        requires role { IsTrue (may_pop (role_of seat.old)) }
        requires empty { pocket_of seat.old ≡ None }
        requires turns { spent < turns }
        ensures { PopsWithoutNode pop_worn arena.now seat.old seat.new spent turns result };

    /// The shut, which leaves the pocket alone.
    fn shut<T>(arena: &ArenaOf<B, T>, seat: &mut Seat<T>, turns: u32) -> Result<(), Refusal>
        requires ready { IsReady arena.now seat.old }
        requires kind { IsOfKind arena.now kind }
        requires role { IsTrue (may_push (role_of seat.old)) }
        requires turns { 1 ≤ turns }
        ensures { AnswersShut shut_worn arena.now seat.old seat.new turns result };
}
