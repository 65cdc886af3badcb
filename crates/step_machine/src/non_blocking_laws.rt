//! Laws of the non-blocking queue, over all worlds that any moves lead to: any setup and number of actors in range, and
//! any list of begins, steps, give moves and rests. Each is the contract of a function that does nothing.
ghost use Rattle.history.specs.History.{IsLegal};
ghost use Rattle.step_machine.specs.EachQueue.{HasItsPlaces, KeepsQueueAndFreeApart};
ghost use Rattle.step_machine.specs.EachQueue.{RaisesBelowTheLimit, RefusesWithCause};
ghost use Rattle.step_machine.specs.EachQueue.{ReplaysToItsValues, CountsValuesTaken};
ghost use Rattle.step_machine.specs.Locks.{MarksAreCounts};
ghost use Rattle.step_machine.specs.NonBlocking.{OfNonBlockingWorlds, TailLagsByOne, TailIsNotBehindHead};
ghost use Rattle.step_machine.specs.NonBlocking.{NeverFindsHeadWornOut, FindsItsOwnNextWornOut};
ghost use Rattle.step_machine.specs.NonBlocking.{NeverRefusedForHead, TakesTheFront};

/// Each node is in exactly one place: never used, in the queue, free, held by one actor, or set aside.
pub fn each_node_is_in_one_place()
    //= both/one_place (places, apart): Each node is in exactly one place, so none is in the queue and free.
    ensures places { OfNonBlockingWorlds HasItsPlaces }
    ensures apart { OfNonBlockingWorlds KeepsQueueAndFreeApart }
{}

/// Tail names the last node of the queue or the one before it, and its count is Head's and one more for each node
/// before it. So it is never behind Head.
pub fn tail_lags_by_at_most_one()
    //= both/tail_lag (lags, not_behind): In the non-blocking queue Tail names the last node or the one before and is
    //=   never behind Head; its count is Head's plus one for each node before it.
    ensures lags { OfNonBlockingWorlds TailLagsByOne }
    //= both/never_head: In the non-blocking queue no reply is `WornOut(Head)`, nor would a next step answer it: Tail's
    //=   count is never below Head's, and where equal both name one node.
    ensures not_behind { OfNonBlockingWorlds TailIsNotBehindHead }
{}

/// A count is raised only below the limit.
pub fn counts_are_raised_below_the_limit()
    //= both/counts: A count is raised only below the limit.
    ensures { OfNonBlockingWorlds RaisesBelowTheLimit }
{}

/// A step refuses only where its cause is there: `NoNode` where all nodes are used and none is free, and `WornOut`
/// where the word's count is at the limit. That word is never Head.
pub fn refusals_have_their_cause()
    //= both/refusals (causes, own_next): A step refuses only where its cause is; in the non-blocking queue, for a worn
    //=   `next`, only that of its actor's own node.
    ensures causes { OfNonBlockingWorlds RefusesWithCause }
    ensures own_next { OfNonBlockingWorlds FindsItsOwnNextWornOut }
    //= both/never_head (never_head, in_history)
    ensures never_head { OfNonBlockingWorlds NeverFindsHeadWornOut }
    ensures in_history { OfNonBlockingWorlds NeverRefusedForHead }
{}

/// The mark of a node in a pocket is the count of the node's `next`.
pub fn marks_are_counts()
    //= both/marks: The mark of a node in a pocket is the count of the node's `next`.
    ensures { OfNonBlockingWorlds MarksAreCounts }
{}

/// The value that a dequeue takes is the first one of the queue.
pub fn values_are_taken_from_the_front()
    //= both/front: A value taken is the queue's first, and Head's count is the number of values taken.
    ensures { OfNonBlockingWorlds TakesTheFront }
{}

/// Every history is legal: by rising place, from the empty queue, each operation gets the reply that it was told.
pub fn histories_are_legal()
    //= histories/legal: By rising place, from the empty queue, each operation gets the reply that it was told.
    //=   (`NoNode`, `WornOut` and `Busy` fit any queue here; their causes are said of [both
    //=   queues](#both-queues).)
    ensures { OfNonBlockingWorlds (λ w. IsLegal w.operations) }
{}

/// At every step the operations that took effect so far, with the replies that they were told or that their calls
/// have earned, replay from the empty queue to the values in the chain from Head.
pub fn operations_replay_to_the_values()
    //= both/replay
    ensures { OfNonBlockingWorlds ReplaysToItsValues }
{}

/// Head's count is the number of values taken.
pub fn head_counts_the_values_taken()
    //= both/front
    ensures { OfNonBlockingWorlds CountsValuesTaken }
{}
