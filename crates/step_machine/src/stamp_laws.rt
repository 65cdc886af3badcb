//! Laws of the stamps of operations, over all lists of moves. Each is the contract of a function that does nothing.
ghost use Rattle.std.specs.Prelude.{◌≡◌, length, AllPairs};
ghost use Rattle.std.specs.List.{AllByRecursion};
ghost use Rattle.history.specs.History.{Placement};
ghost use Rattle.step_machine.specs.TakingEffect.{OfOperations, OfOperationsOfCalls};
ghost use Rattle.step_machine.specs.Recorded.{IsRefusedAtItsEnd, AreEmptyAtTheirLastLook};
ghost use Rattle.step_machine.specs.Recorded.{AreOfCallsBegun, EndAsTold, TellTheirEnds};
ghost use Rattle.step_machine.specs.Spans.{NumbersLieInOne, NumbersLieInOneBeforeNext};
ghost use Rattle.step_machine.specs.Stamps.{makers, IsStamped, BeginsBefore, DoNotOverlap, DoNotOverlapOrRest, AfterMoves, AfterCalls};

/// A world has given one number to each step and to each giving up.
pub fn numbers_are_counted()
    //= stamps/numbers: As many numbers were given as steps and gives made. An operation's first number, place and last
    //=   number are of its actor's moves, in this order; it has a last one exactly where it has a reply.
    ensures { AfterMoves (λ moves w. w.steps ≡ length (makers moves)) }
{}

/// An operation's first number, its last one and its place are numbers of its actor's own moves, in this order:
/// first, place, last.
pub fn stamps_are_of_own_moves()
    //= stamps/numbers
    ensures { AfterMoves (λ moves w. AllByRecursion (IsStamped (makers moves)) w.operations) }
{}

/// A history lists its operations by their first numbers, and no two have the same.
pub fn operations_stand_by_first_number()
    //= worlds/history: A world's history is exactly the operations that have a number, by rising first number.
    ensures { AfterMoves (λ moves w. AllPairs BeginsBefore w.operations) }
{}

/// One actor's operations do not overlap: each has ended before the next begins, unless the actor rested.
pub fn operations_of_an_actor_do_not_overlap()
    //= stamps/no_overlap (calls, with_rests): One actor's operations don't overlap; with rests, one that has not ended
    //=   before the next has no last number, place or reply.
    ensures calls { AfterCalls (λ w. AllPairs DoNotOverlap w.operations) }
    ensures with_rests { AfterMoves (λ moves w. AllPairs DoNotOverlapOrRest w.operations) }
{}

/// Every history is placed: each operation is well placed, and no two share a place.
pub fn histories_are_placed()
    //= histories/placed: A completed operation has a place from its first to its last number, a pending one none or one
    //=   not before its first; no two share one.
    ensures { AfterMoves (λ moves w. Placement w.operations) }
{}

/// A refused operation stands at its last number.
pub fn refusals_stand_at_their_last_number()
    //= stamps/places: A refused operation stands at its last number, one told that the queue is empty at its call's
    //=   last step at D4 or B3.
    ensures { AfterMoves (λ moves w. AllByRecursion IsRefusedAtItsEnd w.operations) }
{}

/// An operation that was told that the queue is empty stands at its call's last step at D4 or B3, where the dequeue looks
/// for a node behind the dummy.
pub fn empty_replies_stand_at_their_last_look()
    //= stamps/places
    ensures { OfOperations AreEmptyAtTheirLastLook }
{}

/// An operation is of the call that its actor had begun when it took its first number.
pub fn operations_are_of_the_calls_begun()
    //= stamps/calls: An operation's first number is that of its actor's first move after a begin, and it is of the call
    //=   begun there.
    ensures { OfOperations AreOfCallsBegun }
{}

/// An operation's last number and its reply are those of a move of its actor that ended a call, as that move was told; and
/// each such move has left its number and reply to an operation.
pub fn operations_end_as_they_were_told()
    //= stamps/ends (ends, each_end): An operation's last number and reply are those of its actor's move that ended the
    //=   call; each such end is an operation's.
    ensures ends { OfOperations EndAsTold }
    ensures each_end { OfOperations TellTheirEnds }
{}

/// Each number that an actor's move took lies in exactly one operation of that actor. Where actors may rest, which leaves
/// operations without a last number, one reaches to the first number of the actor's next one at most.
pub fn each_number_lies_in_one_operation()
    //= stamps/one_operation (calls, with_rests): Each number that an actor's move took lies in exactly one operation of
    //=   that actor.
    ensures calls { OfOperationsOfCalls NumbersLieInOne }
    ensures with_rests { OfOperations NumbersLieInOneBeforeNext }
{}
