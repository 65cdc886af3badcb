//! Laws of the two-lock queue, over all worlds that any moves lead to: any setup and number of actors in range, and
//! any list of begins, steps, give moves and rests. Each is the contract of a function that does nothing.
ghost use Rattle.history.specs.History.{IsLegal};
ghost use Rattle.step_machine.specs.EachQueue.{HasItsPlaces, KeepsQueueAndFreeApart};
ghost use Rattle.step_machine.specs.EachQueue.{RaisesBelowTheLimit, RefusesWithCause};
ghost use Rattle.step_machine.specs.EachQueue.{ReplaysToItsValues, CountsValuesTaken};
ghost use Rattle.step_machine.specs.TwoLock.{OfTwoLockWorlds, TailNamesTheLast, CountsNothing};
ghost use Rattle.step_machine.specs.Locks.{LocksNameTheirHolders, LocksAreOfActors, LeavesTailToItsMover};
ghost use Rattle.step_machine.specs.Locks.{FindsFreeOrHeadWornOut, RefusedForFreeOrHead, TakesTheFrontAtB5, MarksAreCounts};

/// Each node is in exactly one place: never used, in the queue, free, held by one actor, or set aside.
pub fn each_node_is_in_one_place()
    //= both/one_place (places, apart)
    ensures places { OfTwoLockWorlds HasItsPlaces }
    ensures apart { OfTwoLockWorlds KeepsQueueAndFreeApart }
{}

/// Tail names the last node of the queue, except while an actor has linked its node and not yet moved Tail.
pub fn tail_names_the_last_node()
    //= both/tail: In the two-lock queue Tail names the last node, unless an actor has linked its node and not yet moved
    //=   Tail; the counts of Tail and each `next` are 0.
    ensures { OfTwoLockWorlds TailNamesTheLast }
{}

/// The counts of Tail and of every `next` are 0.
pub fn tail_and_next_count_nothing()
    //= both/tail
    ensures { OfTwoLockWorlds CountsNothing }
{}

/// A count is raised only below the limit.
pub fn counts_are_raised_below_the_limit()
    //= both/counts
    ensures { OfTwoLockWorlds RaisesBelowTheLimit }
{}

/// A step refuses only where its cause is there: `NoNode` where all nodes are used and none is free, and `WornOut`
/// where the word's count is at the limit.
pub fn refusals_have_their_cause()
    //= both/refusals
    ensures { OfTwoLockWorlds RefusesWithCause }
{}

/// A call is worn out by Free or Head alone: no step finds another word worn out, and no operation was refused so.
pub fn calls_are_worn_out_by_free_or_head_alone()
    //= both/worn (found, in_history): In the two-lock queue a call is worn out by Free or Head alone.
    ensures found { OfTwoLockWorlds FindsFreeOrHeadWornOut }
    ensures in_history { OfTwoLockWorlds RefusedForFreeOrHead }
{}

/// A lock names its holder: its word is the number of an actor exactly where that actor stands at A4 to A7, or of the
/// head lock at B2 to B6; and else it is 0.
pub fn locks_name_their_holders()
    //= both/locks (holders, actors): A lock's word is an actor's number exactly where that actor stands at A4 to A7 or
    //=   S7 to S9 (the head lock: B2 to B6), and else 0.
    ensures holders { OfTwoLockWorlds LocksNameTheirHolders }
    ensures actors { OfTwoLockWorlds LocksAreOfActors }
{}

/// Between A5 and A6, where Tail names a node that is no longer the last, only the actor there uses what Tail names.
pub fn tail_is_left_to_its_mover()
    //= both/tail_mover: While an actor stands between A5 and A6, no other's next access is of Tail, or that of A5 or
    //=   S8.
    ensures { OfTwoLockWorlds LeavesTailToItsMover }
{}

/// The value that a dequeue takes is the first one of the queue.
pub fn values_are_taken_from_the_front()
    //= both/front
    ensures { OfTwoLockWorlds TakesTheFrontAtB5 }
{}

/// The mark of a node in a pocket is the count of the node's `next`.
pub fn marks_are_counts()
    //= both/marks
    ensures { OfTwoLockWorlds MarksAreCounts }
{}

/// Every history is legal: by rising place, from the empty queue, each operation gets the reply that it was told.
pub fn histories_are_legal()
    //= histories/legal
    ensures { OfTwoLockWorlds (λ w. IsLegal w.operations) }
{}

/// At every step the operations that took effect so far, with the replies that they were told or that their calls
/// have earned, replay from the empty queue to the values in the chain from Head.
pub fn operations_replay_to_the_values()
    //= both/replay
    ensures { OfTwoLockWorlds ReplaysToItsValues }
{}

/// Head's count is the number of values taken.
pub fn head_counts_the_values_taken()
    //= both/front
    ensures { OfTwoLockWorlds CountsValuesTaken }
{}
