//! Laws of progress, over all worlds that any moves lead to, and over all lists of moves: any setup and number of actors in
//! range, and any begins, steps, give moves and rests. Each is the contract of a function that does nothing.
ghost use Rattle.step_machine.specs.NonBlocking.{OfNonBlockingWorlds};
ghost use Rattle.step_machine.specs.TwoLock.{OfTwoLockWorlds};
ghost use Rattle.step_machine.specs.Solo.{EachEndsAlone};
ghost use Rattle.progress.specs.Steps.{IsFew, IsFewLater, FewFindNoLockHeld};
ghost use Rattle.progress.specs.Steps.{KeepsCompleting, KeepsCompletingUnheld};
ghost use Rattle.progress.specs.Ends.{EachEndsFromHere, AllEndTogether, SomeEndsItsCall};
ghost use Rattle.progress.specs.Paid.{StepsArePaid, FailedTurnsArePaid};
ghost use Rattle.progress.specs.Paid.{StepsOfACallArePaid, FailedTurnsOfACallArePaid};

/// In the non-blocking queue the operations of a history took few steps together: with `P` actors at most `8 * P + 3`
/// for each, whatever the schedule.
pub fn operations_take_few_steps()
    //= progress/few_steps: In the non-blocking queue the steps of a history are at most 8P + 3 for each of its operations,
    //=   P the number of actors, whatever the schedule.
    ensures { OfNonBlockingWorlds (IsFew 8 3) }
{}

/// Lock freedom: whatever the schedule, `n` steps of the non-blocking queue complete at least `n / (8 * P + 3) - P`
/// operations, less one for each rest.
pub fn operations_keep_completing()
    //= progress/lock_free: Lock freedom: the first n steps of a run of the non-blocking queue complete at least n / (8P + 3) - P operations,
    //=   refused ones too, less one for each rest.
    ensures { KeepsCompleting 8 3 }
{}

/// From each world of the non-blocking queue on, any moves take at most the steps that its actors have before them, and
/// `8 * P + 3` for each operation that begins meanwhile.
pub fn later_steps_are_few()
    //= progress/later: From any reached world of the non-blocking queue on, moves take at most the steps that its actors
    //=   have before them, and 8P + 3 for each operation that begins; once none begins, P (8P + 11) in all.
    ensures { OfNonBlockingWorlds (IsFewLater 8 3) }
{}

/// Once no operation of the non-blocking queue begins, all steps together are at most `P * (8 * P + 11)`, in any order.
pub fn all_calls_end_together()
    //= progress/later
    ensures { OfNonBlockingWorlds (AllEndTogether 8 11) }
{}

/// At any moment an actor of the non-blocking queue that has a call ends it within 19 steps alone; from its begin on
/// within 15, 17 or 8, by its operation.
pub fn an_actor_alone_ends_its_call_from_anywhere()
    //= progress/alone (anywhere, begun): At any moment an actor of the non-blocking queue that has a call ends it within
    //=   19 steps alone; from its begin on a push takes at most 15, a pop 17, a shut 8.
    ensures anywhere { OfNonBlockingWorlds (EachEndsFromHere 19) }
    ensures begun { OfNonBlockingWorlds EachEndsAlone }
{}

/// In the two-lock queue the steps that find no lock held are at most `8 * P + 4` for each operation.
pub fn few_steps_find_no_lock_held()
    //= progress/unheld: In the two-lock queue the steps, but for exchanges that find their lock held, are at most 8P + 4
    //=   for each operation, and the first n of them complete at least n / (8P + 4) - P operations, refused ones too,
    //=   less one for each rest.
    ensures { FewFindNoLockHeld 8 4 }
{}

/// In the two-lock queue `n` steps that find no lock held complete at least `n / (8 * P + 4) - P` operations, less one for
/// each rest.
pub fn operations_keep_completing_unheld()
    //= progress/unheld
    ensures { KeepsCompletingUnheld 8 4 }
{}

/// The two-lock queue has no deadlock: where there is a call, some actor ends its own within 14 steps alone.
pub fn some_actor_ends_its_call()
    //= progress/no_deadlock: In the two-lock queue, where there is a call, some actor that has one ends it within 14 steps
    //=   alone.
    ensures { OfTwoLockWorlds (SomeEndsItsCall 14) }
{}

/// In the non-blocking queue an actor takes at most 17 steps for each call that it begins, and 8 for each push or shut of
/// another one, 6 for each pop, and 4 for each node that another one takes or gives back.
pub fn an_actors_steps_are_paid()
    //= progress/paid: In the non-blocking queue an actor's steps are at most 17 for each call that it begins, and 8 for
    //=   each push or shut of another one, 6 for each pop, 4 for each node that another one takes or gives back; of one
    //=   call 15, 17 or 8, and as much for the others' meanwhile.
    ensures { StepsArePaid 17 }
{}

/// In the non-blocking queue an actor's turns that fail are at most one for each call that it begins, two for each push or
/// shut of another one, and one for each pop and for each node that another one takes or gives back.
pub fn an_actors_failed_turns_are_paid()
    //= progress/failed_turns: In the non-blocking queue an actor's turns that fail are at most 1 for each call that it
    //=   begins, and 2 for each push or shut of another one, 1 for each pop, and 1 for each node that another one takes or
    //=   gives back; so of one call, with what the others did meanwhile.
    ensures { FailedTurnsArePaid 1 }
{}

/// In the non-blocking queue a call takes at most the steps of an actor alone (a push 15, a pop 17, a shut 8), and 8 for
/// each push or shut of another actor meanwhile, 6 for each pop, and 4 for each node that another one takes or gives back.
pub fn the_steps_of_a_call_are_paid()
    //= progress/paid
    ensures { OfNonBlockingWorlds StepsOfACallArePaid }
{}

/// In the non-blocking queue the turns of a call that fail are at most 1, and 2 for each push or shut of another actor
/// meanwhile, and 1 for each pop and for each node that another one takes or gives back.
pub fn the_failed_turns_of_a_call_are_paid()
    //= progress/failed_turns
    ensures { OfNonBlockingWorlds (FailedTurnsOfACallArePaid 1) }
{}
