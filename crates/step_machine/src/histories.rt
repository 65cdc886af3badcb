//! Laws of all histories, of both queues at once. Each is the contract of a function that does nothing.
ghost use Rattle.std.specs.List.{filter};
ghost use Rattle.history.specs.History.{Placement, IsLegal};
ghost use Rattle.history.specs.Linearizability.{IsLinearizable, IsOneAtATime};
ghost use Rattle.step_machine.specs.Stamps.{has_trace, AfterMoves, AfterCalls};
ghost use Rattle.step_machine.specs.EachQueue.{ReplaysToItsValues};
ghost use Rattle.step_machine.specs.TakingEffect.{ArePlacedByEffect, HaveTheirEffect};
ghost use Rattle.step_machine.specs.TakingEffect.{OfOperations, OfOperationsOfCalls};
ghost use Rattle.step_machine.specs.Spans.{ArePlacedAtTheirLines, EffectsGivePlaces};
ghost use Rattle.step_machine.specs.Histories.{OfEachHistory, OfEachWorld};
ghost use Rattle.step_machine.specs.Pasts.{MovesOnlyAdd};
ghost use Rattle.step_machine.specs.Entries.{AreFew, PlaysToItsValues};

/// Every history is linearizable: of either queue, of any size, greatest count and number of actors in range, and after
/// any list of begins, steps, give moves and rests, in any order and with any actor stopped anywhere.
///
/// So there is an order of all completed operations and some pending ones, each once, in which an operation that ended
/// before another began comes first, and which is a run of one first-in-first-out list that gives every reply given.
pub fn every_history_is_linearizable()
    //= histories/linearizable: All histories are linearizable (docs/GLOSSARY.md).
    ensures { OfEachHistory IsLinearizable }
{}

/// In a history of calls no actor's operations overlap, as Herlihy and Wing ask of each history: of any two of one actor,
/// one ended before the other began. After rests the same holds of all operations that ended or took effect.
pub fn no_actors_operations_overlap()
    //= histories/no_overlap (calls, with_rests): In a history of calls no actor's operations overlap; after rests those
    //=   that ended or took effect don't.
    ensures calls { AfterCalls (λ w. IsOneAtATime w.operations) }
    ensures with_rests { AfterMoves (λ moves w. IsOneAtATime (filter has_trace w.operations)) }
{}

/// Every history is placed and legal: of either queue, of any size, greatest count and number of actors in range, and
/// after any list of begins, steps, give moves and rests, in any order and with any actor stopped anywhere.
///
/// So all completed operations and some pending ones, each placed at one step between its first and its last, are a
/// run of one first-in-first-out list that gives every reply given.
pub fn every_history_is_placed_and_legal()
    //= histories/placed_and_legal (placed, legal): All histories are placed and legal, which says more than
    //=   linearizable.
    ensures placed { OfEachHistory Placement }
    ensures legal { OfEachHistory IsLegal }
{}

/// Moves only add to a history: in each world that moves lead to from a reached one, an operation that had ended stands as it
/// did, and one that was pending has ended, if at all, after all numbers given by then, as new ones begin. So what had
/// ended comes before whatever begins later.
pub fn moves_only_add_to_a_history()
    //= histories/only_added: Moves only add to a history: an operation that has ended stays as it ended, and ended
    //=   before each one that begins later.
    ensures { MovesOnlyAdd }
{}

/// Which operations have a place, and where. One that is done or got a value has it at the number of a step of its own
/// actor that had an effect on the queue: a successful E9, D13 or S4, or an A5, B5 or S8. A pending one has such a place or
/// none; after begins, steps and give moves it has one exactly if its actor took such a step since its first number.
pub fn operations_are_placed_by_their_effects()
    //= histories/places (places, effects): Without rests an operation has a place exactly if it is completed or its
    //=   *effect* was made. With rests too the place, if any, of one that is done, got a value or is pending is the
    //=   number of an effect of its actor.
    ensures places { OfOperations ArePlacedByEffect }
    ensures effects { OfOperationsOfCalls HaveTheirEffect }
{}

/// Which line gives a call its place: of an enqueue E9 or A5, of a dequeue D13 or B5, of a shut S4 or S8. After rests too each step that had an
/// effect gives its number as the place to the operation of its actor in which the number lies, that is up to the
/// operation's last number, and before the actor's next operation begins.
pub fn effects_give_operations_their_places()
    //= histories/effects (lines, each_effect): Effects are of E9 or A5 in an enqueue, D13 or B5 in a dequeue, S4 or S8
    //=   in a shut; each, after rests too, gives its number as the place to the operation of its actor in which that
    //=   lies.
    ensures lines { OfOperations ArePlacedAtTheirLines }
    ensures each_effect { OfOperations EffectsGivePlaces }
{}

/// At every step the operations that took effect so far, with the replies that they were told or that their calls
/// have earned, replay from the empty queue to the values in the chain from Head.
pub fn operations_replay_to_the_values()
    //= both/replay: At every step the operations that took effect, with the replies told or decided, replay to the
    //=   values in the queue's chain, and to a shut queue exactly where the chain ends at a closed end.
    ensures { OfEachWorld ReplaysToItsValues }
{}

/// At every step the pushes, pops and shuts that had their effect so far, by rising place, lead from the empty queue to the
/// values in the chain from Head: each push puts its value at the back, each pop takes the front one, and a shut stops
/// what pushes come after it.
pub fn pushes_and_pops_play_to_the_values()
    //= both/entries: The pushes, pops and shuts that took effect lead, by rising place, from the empty queue to the one
    //=   in the chain, shut or not.
    ensures { OfEachWorld PlaysToItsValues }
{}

/// At every step the pops that had their effect so far are at most as many as the greatest count, and the pushes are
/// fewer than those pops and the nodes together.
pub fn pushes_and_pops_are_few()
    //= both/few: At most as many pops as the greatest count take effect, and fewer pushes than pops and nodes together.
    ensures { OfEachWorld AreFew }
{}
