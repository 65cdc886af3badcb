//! Laws of deeds, of what a seat of a queue of values has seen, and of how deeds go with entries, each the contract of a
//! function that does nothing.
ghost use Rattle.std.specs.Prelude.{◌≡◌, ◌++◌, ◌∷◌, [], ℕ, Bool, true, false, List, map};
ghost use Rattle.std.specs.List.{count_by};
ghost use Rattle.history.specs.declared.operations.Entry.{Entry};
ghost use Rattle.history.specs.declared.operations.Taken.{Taken};
ghost use Rattle.std.specs.Prelude.{Option, option_map};
ghost use Rattle.history.specs.declared.refusals.Refusal.{Refusal};
ghost use Rattle.history.specs.Answers.{Pushed, PopAnswers, DidShut, PushRefused, PopRefused, Meets};
ghost use Rattle.carriers.specs.Answers.{PushedOf, PopAnswersOf, DidShutOf, PushRefusedOf, PopRefusedOf, MeetsOf};
ghost use Rattle.history.specs.Entries.{Leads};
ghost use Rattle.history.specs.Seats.{Permit, Known};
ghost use Rattle.history.specs.declared.rests.Rest.{Rest};
ghost use Rattle.history.specs.Rests.{left_of, taken_of, whole_of, was_shut_of};
ghost use Rattle.history.specs.Ends.{Closes};
ghost use Rattle.carriers.specs.declared.items.ItemOf.{ItemOf};
ghost use Rattle.carriers.specs.Deeds.{Deed, did_pop, did_shut, item, is_pushing, is_shutting, RunsTo, IsRun};
ghost use Rattle.carriers.specs.Values.{values_pushed, values_popped};
ghost use Rattle.carriers.specs.Knowledge.{IsSoundOf, KnownOf};
ghost use Rattle.carriers.specs.DeedsOfNumbers.{deeds_of, known_by_deeds, item_taken, Matches};
ghost use Rattle.carriers.specs.Ends.{ClosesWith};
ghost use Rattle.carriers.specs.SmallRuns.{handed_over, told_apart, popped_from_nothing, popped_from_behind, popped_another, popped_as_anothers, popped_twice, pushed_behind_a_shut, shut_twice};

use crate::queues::Carrier;

/// The values pushed are those popped, and then those that are left: they come in the order in which they were pushed, each
/// once.
pub fn popped_then_left<A>()
    //= carriers/popped_then_left: The values that a run pushed are, in this order and each once, those that it popped and
    //=   then those that are left.
    ensures { (ds : List (Deed A)) (shut : Bool) (left : List (ItemOf A)) → RunsTo ds shut left
        → values_pushed ds ≡ values_popped ds ++ left }
{}

/// A beginning of a run is a run, and what a pop of it takes is the value of the push at the front: it was pushed just behind
/// all that was popped before.
pub fn runs_first<A>()
    //= carriers/runs_first (prefix, front): A beginning of a run is one. A pop in it takes the value of the push at the
    //=   front, the first one pushed that wasn't popped before.
    ensures prefix { (before after : List (Deed A)) → IsRun (before ++ after) → IsRun before }
    ensures front { (before after : List (Deed A)) (seat : ℕ) (front : ItemOf A)
        → IsRun (before ++ did_pop seat front ∷ after)
        → (rest : List (ItemOf A)) × (values_pushed before ≡ values_popped before ++ front ∷ rest) }
{}

/// Behind a shut nothing is pushed, and there is no second shut.
pub fn nothing_is_pushed_after_a_shut<A>()
    //= carriers/one_shut: Behind a shut a run has no push and no second shut.
    ensures { (before after : List (Deed A)) (seat : ℕ) → IsRun (before ++ did_shut seat ∷ after)
        → (count_by is_pushing after ≡ 0) × (count_by is_shutting after ≡ 0) }
{}

/// A seat of which it was kept that it is a queue's, as by a value behind a lock, knows what is sound. What such a seat has
/// seen popped is the beginning of what it has seen pushed, and what a pop took stood at the front.
pub fn what_a_seat_has_seen<C: Carrier>()
    //= carriers/one_fact: That a seat is one of a queue's has at most one proof. So a value behind a lock, in a
    //=   channel or in a message can keep that, and such a seat knows what is sound.
    ensures kept { (queue : C) (seat : C.Seat) → ∥ C.is_seat queue seat ∥₁
        → IsSoundOf (C.permits queue) (C.known seat) }
    //= carriers/popped_then_left
    ensures popped { (queue : C) (seat : C.Seat) → C.is_seat queue seat
        → (left : List (ItemOf C.Item))
        × (values_pushed (C.known seat).seen ≡ values_popped (C.known seat).seen ++ left) }
    //= carriers/runs_first
    ensures front { (queue : C) (seat : C.Seat) → C.is_seat queue seat
        → (before after : List (Deed C.Item)) (number : ℕ) (front : ItemOf C.Item)
        → (C.known seat).seen ≡ before ++ did_pop number front ∷ after
        → (rest : List (ItemOf C.Item))
        × (values_pushed before ≡ values_popped before ++ front ∷ rest) }
{}

/// A history of entries goes entry by entry with that of the same as deeds, which lead to the same values.
pub fn entries_are_deeds()
    //= carriers/entries (matches, leads): Entries go one by one with the same as deeds, and these lead to the same values.
    ensures matches { (es : List Entry) → Matches es (deeds_of es) }
    ensures leads { (es : List Entry) (shut : Bool) (values : List Taken) → Leads es shut values
        → RunsTo (deeds_of es) shut (map item_taken values) }
{}

/// A queue of numbers that was closed is one of values by deeds: so ends a queue that was `Numbers`.
pub fn closed_numbers_are_values()
    //= carriers/closed_numbers: What is known of a closed queue of numbers is known of it as one of values.
    ensures { (permits : List Permit) (seats : List Known) (rest : Rest) → Closes permits seats rest
        → ClosesWith permits (map known_by_deeds seats) (map item_taken (left_of rest))
        (taken_of rest) (whole_of rest) (was_shut_of rest) }
{}

/// What a seat of `Numbers` is told by deeds it is told by entries.
pub fn deeds_are_entries()
    //= carriers/by_entries (pushed, shut, answers, push_refused, pop_refused, meets, each): What a call of a queue of numbers tells by
    //=   deeds it tells by entries, and what any seat of bodies knows is what some seat of numbers does.
    ensures pushed { (k k' : Known) (body : ℕ)
        → PushedOf (known_by_deeds k) body (known_by_deeds k') → Pushed k body k' }
    ensures shut { (k k' : Known) → DidShutOf (known_by_deeds k) (known_by_deeds k') → DidShut k k' }
    ensures answers { (k k' : Known) (taken : Option Taken)
        → PopAnswersOf (known_by_deeds k) (option_map item_taken taken) (known_by_deeds k') → PopAnswers k taken k' }
    ensures push_refused { (k k' : Known) (refusal : Refusal)
        → PushRefusedOf (known_by_deeds k) refusal (known_by_deeds k') → PushRefused k refusal k' }
    ensures pop_refused { (k k' : Known) (refusal : Refusal)
        → PopRefusedOf (known_by_deeds k) refusal (known_by_deeds k') → PopRefused k refusal k' }
    ensures meets { (one other one' other' : Known)
        → MeetsOf (known_by_deeds one) (known_by_deeds other) (known_by_deeds one') (known_by_deeds other')
        → Meets one other one' other' }
    ensures each { (k : KnownOf ℕ) → (l : Known) × (known_by_deeds l ≡ k) }
{}

/// Small histories that are runs, and to which values they lead.
pub fn small_histories_are_runs()
    //= carriers/examples (handed_over, told_apart): Examples: two values may be handed over, with a shut between the pops,
    //=   and two like ones are told apart by who pushed them. These are no runs: a value popped before it was pushed, from
    //=   behind another, changed, as another seat's, or twice; a push, or a shut, behind a shut.
    ensures handed_over { RunsTo handed_over true [] }
    ensures told_apart { RunsTo told_apart false (item 1 5 ∷ []) }
{}

/// Small histories that are no runs.
pub fn wrong_histories_are_no_runs()
    //= carriers/examples (nothing, behind, another, anothers, twice, after_shut, shut_twice)
    ensures nothing { ¬ IsRun popped_from_nothing }
    ensures behind { ¬ IsRun popped_from_behind }
    ensures another { ¬ IsRun popped_another }
    ensures anothers { ¬ IsRun popped_as_anothers }
    ensures twice { ¬ IsRun popped_twice }
    ensures after_shut { ¬ IsRun pushed_behind_a_shut }
    ensures shut_twice { ¬ IsRun shut_twice }
{}
