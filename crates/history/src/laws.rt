//! Laws of the verdict on a history, and of what is pushed and popped, each the contract of a function that does nothing.
ghost use Rattle.std.specs.Prelude.{◌≡◌, ◌↔◌, ◌≤◌, ◌++◌, ◌∷◌, ℕ, Bool, List, map, take, is_some, if◌then◌else◌};
ghost use Rattle.std.specs.List.{filter, count_by};
ghost use Rattle.std.specs.List.Sorted.{IsPermutation};
ghost use Rattle.history.specs.declared.operations.Entry.{Entry};
ghost use Rattle.history.specs.declared.operations.Stamped.{Stamped};
ghost use Rattle.history.specs.declared.operations.Taken.{Taken};
ghost use Rattle.history.specs.declared.operations.Verdict.TheVariants.{Yes, No};
ghost use Rattle.history.specs.declared.operations.Cause.TheVariants.{Shape, Span, Shared, Reply};
ghost use Rattle.history.specs.History.{Placement, IsLegal, by_point, verdict};
ghost use Rattle.history.specs.Faults.{FirstIsMisshapen, FirstIsOutside, FirstIsShared, FirstIsWrong};
ghost use Rattle.history.specs.Order.{Rises};
ghost use Rattle.history.specs.Linearizability.{IsLinearizable, DifferInPlace, operations_of, IsOneAtATime, KeepsOwnOrders};
ghost use Rattle.history.specs.Tallies.{takes, pushes};
ghost use Rattle.history.specs.declared.operations.Entry.TheVariants.{Shut};
ghost use Rattle.history.specs.Entries.{Leads, IsQueueRun, is_push, is_shut};
ghost use Rattle.history.specs.Seats.{Permit, Known, IsSound, IsEmptyAfter, IsShutAfter};
ghost use Rattle.history.specs.Values.{pushed, popped, OnlyPushes, OnlyPops};
ghost use Rattle.history.specs.SmallHistories.{taken_too_early, push_lost, taken_twice, pending_push_taken, overlapping_pop_is_empty, own_pop_during_push};

use crate::queues::Fifo;

/// A history is judged `Yes` exactly where it is well placed and legal.
pub fn yes_is_placed_and_legal()
    //= judge/verdict
    ensures { (ops : List Stamped) → (verdict ops ≡ Yes) ↔ (Placement ops × IsLegal ops) }
{}

/// `No` with `Shape`, `Span` or `Shared` names exactly the first operation of the list with a fault of these, and
/// the first of these faults that it has.
pub fn a_fault_is_the_first_of_the_list()
    //= judge/verdict (shape, span, shared)
    ensures shape { (ops : List Stamped) (place : ℕ)
        → (verdict ops ≡ No place Shape) ↔ FirstIsMisshapen ops place }
    ensures span { (ops : List Stamped) (place : ℕ)
        → (verdict ops ≡ No place Span) ↔ FirstIsOutside ops place }
    ensures shared { (ops : List Stamped) (place : ℕ)
        → (verdict ops ≡ No place Shared) ↔ FirstIsShared ops place }
{}

/// `No` with `Reply` says exactly that the history is well placed, and that the operation named is the first one,
/// by rising place, whose reply a queue doesn't give.
pub fn a_wrong_reply_is_the_first_by_place()
    //= judge/verdict
    ensures { (ops : List Stamped) (place : ℕ)
        → (verdict ops ≡ No place Reply) ↔ FirstIsWrong ops place }
{}

/// The order in which operations are applied to a queue has exactly those that have a place, and no place is after
/// that of a later one.
pub fn the_order_is_by_rising_place()
    //= judge/verdict (same, rises)
    ensures same { (ops : List Stamped) → IsPermutation (filter (λ o. is_some o.at) ops) (by_point ops) }
    ensures rises { (ops : List Stamped) → Rises (by_point ops) }
{}

/// What is placed and legal is linearizable: the operations that have a place, by rising place, are an order that shows
/// it. So a history that is judged `Yes` is linearizable.
pub fn placed_and_legal_is_linearizable()
    //= judge/linearizable (placed, judged): A placed and legal history is linearizable, and so one judged Yes is.
    ensures placed { (ops : List Stamped) → Placement ops → IsLegal ops → IsLinearizable ops }
    ensures judged { (ops : List Stamped) → verdict ops ≡ Yes → IsLinearizable ops }
{}

/// Whether a history is linearizable doesn't hang on the places of its operations.
pub fn linearizable_reads_no_places()
    //= judge/no_places: A linearizable history stays so whatever other places its operations get, if equal ones get
    //=   the same.
    ensures { (ops : List Stamped) (f : Stamped → Stamped) → ((o : Stamped) → DifferInPlace o (f o))
        → IsLinearizable ops → IsLinearizable (map f ops) }
{}

/// Where no actor's operations overlap, each order that shows a history to be linearizable has each actor's operations in
/// the order in which the actor made them; one that is left out is its actor's last. So the definition is there that of
/// Herlihy and Wing, who ask the first of each history and the second of each order.
pub fn an_order_keeps_each_actors_own()
    //= judge/own_order: Where no actor's operations overlap, an order that shows a history linearizable keeps each
    //=   actor's own, and one left out is its actor's last. Else none is asked: a pop that finds the queue empty during
    //=   its own actor's push is linearizable.
    ensures { (ops : List Stamped) (shown : IsLinearizable ops) → IsOneAtATime ops
        → KeepsOwnOrders (operations_of shown.order ++ shown.left_out) }
{}

/// In a linearizable history no value is taken more often than it was pushed, by operations that were not refused.
pub fn a_value_is_taken_at_most_as_often_as_pushed()
    //= judge/taken_as_pushed: In a linearizable history no value is taken more often than there are pushes of it,
    //=   pending ones too, that weren't refused.
    ensures { (ops : List Stamped) (v : Taken) → IsLinearizable ops → takes v ops ≤ pushes v ops }
{}

/// What is not linearizable: a value that is taken before its push began; a queue found empty after a push ended; and
/// a value that was pushed once and is taken twice.
pub fn wrong_histories_are_not_linearizable()
    //= judge/examples (too_early, lost, twice): Of histories of one push and a pop or two these aren't linearizable:
    //=   the value is taken before the push began; it is taken twice; the push ended, and a later pop finds the
    //=   queue empty. These are: the push is pending, and its value is taken; a pop that began during the push finds
    //=   the queue empty.
    ensures too_early { ¬ IsLinearizable taken_too_early }
    ensures lost { ¬ IsLinearizable push_lost }
    ensures twice { ¬ IsLinearizable taken_twice }
{}

/// What is linearizable: a pop of the value of a pending push, and a queue found empty while a push goes on.
pub fn overlaps_are_linearizable()
    //= judge/examples (pending, overlapping)
    ensures pending { IsLinearizable pending_push_taken }
    ensures overlapping { IsLinearizable overlapping_pop_is_empty }
{}

/// Whether an actor's own operations overlap is not asked of a linearizable history: one in which they do may be.
pub fn own_overlaps_are_not_asked()
    //= judge/own_order (linearizable, overlapping)
    ensures linearizable { IsLinearizable own_pop_during_push }
    ensures overlapping { ¬ IsOneAtATime own_pop_during_push }
{}

/// What was pushed on a queue is what was popped, and then what is left: the values come in the order in which they were
/// pushed, each once.
pub fn pushed_is_popped_and_then_left()
    //= queues/pushed_is_popped: What was pushed on a queue is, in this order and each once, what was popped and then
    //=   what is left.
    ensures { (es : List Entry) (shut : Bool) (left : List Taken)
        → Leads es shut left → pushed es ≡ popped es ++ left }
{}

/// Behind a shut nothing is pushed, and there is no second shut.
pub fn no_push_stands_after_a_shut()
    //= judge/one_shut: After a shut stands no push and no second shut, and a queue is shut exactly where it has one. A
    //=   note *empty* says that none came before, a note *shut* that one did.
    ensures { (before after : List Entry) (seat : ℕ) → IsQueueRun (before ++ Shut seat ∷ after)
        → (count_by is_push after ≡ 0) × (count_by is_shut after ≡ 0) }
{}

/// A queue is shut exactly where its history has a shut, and then it has one.
pub fn a_queue_is_shut_by_one_shut()
    //= judge/one_shut
    ensures { (es : List Entry) (shut : Bool) (left : List Taken) → Leads es shut left
        → count_by is_shut es ≡ (if shut then 1 else 0) }
{}

/// A note that the queue was found empty says that it wasn't shut by then.
pub fn an_empty_note_says_no_shut_before_it()
    //= judge/one_shut
    ensures { (seen : List Entry) (n : ℕ) → IsEmptyAfter seen n → count_by is_shut (take n seen) ≡ 0 }
{}

/// A note that the queue was found shut says that one shut came before it.
pub fn a_shut_note_says_one_shut_before_it()
    //= judge/one_shut
    ensures { (seen : List Entry) (n : ℕ) → IsShutAfter seen n → count_by is_shut (take n seen) ≡ 1 }
{}

/// A seat that alone may pop popped all that it has seen popped, and one that alone may push pushed all that it has seen
/// pushed.
pub fn who_alone_may_did_all()
    //= queues/alone (pops, pushes): A seat that alone may pop popped all that it has seen popped; one that alone may
    //=   push pushed all that it has seen pushed.
    ensures pops { (ps : List Permit) (k : Known) → IsSound ps k → OnlyPops ps k.number
        → popped k.mine ≡ popped k.seen }
    ensures pushes { (ps : List Permit) (k : Known) → IsSound ps k → OnlyPushes ps k.number
        → pushed k.mine ≡ pushed k.seen }
{}

/// That what a seat knows is sound has at most one proof, and a seat of which it was kept that it is a queue's, as by a value
/// behind a lock, knows what is sound.
pub fn a_kept_seat_is_sound<Q: Fifo>()
    //= queues/one_fact (once, kept): That a seat is one of a queue's has at most one proof, and that what it knows is sound
    //=   too. So a value behind a lock, in a channel or in a message can keep that, and such a seat knows what is sound.
    ensures once { (ps : List Permit) (k : Known) → IsProp (IsSound ps k) }
    ensures kept { (queue : Q) (seat : Q.Seat) → ∥ Q.is_seat queue seat ∥₁
        → IsSound (Q.permits queue) (Q.known seat) }
{}
