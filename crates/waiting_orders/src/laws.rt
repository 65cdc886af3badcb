//! Laws of a search for orders, each the contract of a function that does nothing.
ghost use Rattle.std.specs.Prelude.{◌≡◌, ◌≤◌, ℕ, suc, true, List, All};
ghost use Rattle.std.specs.List.{AllByRecursion};
ghost use Rattle.history.specs.declared.operations.Stamped.{Stamped};
ghost use Rattle.history.specs.declared.operations.Taken.{Taken};
ghost use Rattle.waiting_orders.specs.Reached.{TakesRoom};
ghost use Rattle.waiting_orders.specs.Waiting.{waits, IsCall, IsOfQueue, State, IsStart, CanEnd, Same, AreClosed, GoesFirst};
ghost use Rattle.waiting_orders.specs.Orders.{Walks};
ghost use Rattle.waiting_orders.specs.Alike.{HasSoonerPush, HasSoonerPop, GoesAlone};
ghost use Rattle.waiting_orders.specs.Pending.{Pops, CouldGo, IsFirstToEnd, EndsLazily, IsToldInstead, StepOfOther, told_count, push_count};

/// Where a recorded history is one of a queue, its operations can be placed to the end, pushes where their values are
/// taken.
pub fn an_order_can_be_walked()
    //= judge/walked: The operations of a history that is one of a queue can be placed one after another, each push where
    //=   its value is taken, until none is left that was told a reply.
    ensures { (ops : List Stamped) (start : State) → IsStart ops start → IsOfQueue ops
        → (n : ℕ) × CanEnd n start }
{}

/// Where the operations of a recorded history can be placed to the end, pushes where their values are taken, it is one of a
/// queue.
pub fn a_walk_to_an_end_is_an_order()
    //= judge/order: A recorded history of calls whose operations can be placed one after another, each push where its value
    //=   is taken, until none is left that was told a reply, is one of a queue, also where operations that were refused
    //=   for something else than a shut are placed at no number of their own.
    ensures { (ops : List Stamped) (start : State) → IsStart ops start → All IsCall ops
        → (n : ℕ) → Walks n start → IsOfQueue ops }
{}

/// What has the same operations left, a queue that is shut alike, and no later number, can be placed to the end too.
pub fn the_same_left_has_the_same_futures()
    //= judge/same_left: What can be placed from a state depends on which operations are left, whether the queue is shut,
    //=   and the number of the last operation placed.
    ensures { (n : ℕ) (s t : State) → Same s t → CanEnd n s → CanEnd n t }
{}

/// A search that has tried each state it came to, and found no end, shows that the history isn't one of a queue.
pub fn nothing_left_to_try_is_no()
    //= judge/closed: Where a list of states has the start of a history, no end, and with each state all that one step
    //=   leads to, the history is not one of a queue.
    ensures { (ops : List Stamped) (states : List State) → AreClosed ops states → ¬ IsOfQueue ops }
{}

/// What changes nothing may be placed at once: what was refused for something else than a shut, at the number of the state,
/// and what found the queue empty, at the first number at which it may, if no push that is left had ended before that.
pub fn what_changes_nothing_goes_first()
    //= judge/quiet: Where all that is left can be placed to the end, it can be with an operation first that was refused
    //=   for something else than a shut, or found the queue empty, in one step of as many.
    ensures { (n number : ℕ) (o : Stamped) (s t : State) → GoesFirst number o s t
        → CanEnd (suc n) s → CanEnd n t }
{}

/// Of the pushes of a value that a pop may take now, it is enough to try the one that ends first.
pub fn of_alike_pushes_the_one_that_ends_first()
    //= judge/alike_pushes: Where two pushes of a value may be taken, and all that is left behind the take of the one that
    //=   ends later can be placed to the end, so can all that is left behind the take of the other one, in as many steps.
    ensures { (n number : ℕ) (s t : State) → HasSoonerPush number s t → CanEnd n s → CanEnd n t }
{}

/// Of the pops that were told a value and may take it now, it is enough to try the one that ends first.
pub fn of_alike_pops_the_one_that_ends_first()
    //= judge/alike_pops: Where two pops may take a value, and all that is left behind the one that ends later can be
    //=   placed to the end, so can all that is left behind the other one, in as many steps, if no pop told that the
    //=   queue is empty is in the way.
    ensures { (n number : ℕ) (s t : State) → HasSoonerPop number s t → CanEnd n s → CanEnd n t }
{}

/// A pop goes without alternatives if no pop that was told its value ends sooner, nor a push of the value sooner than the
/// one that it takes.
pub fn the_first_of_its_value_goes_alone()
    //= judge/alone: Where a pop may take a push of the value that it was told, none of the pops told the value ends
    //=   sooner, nor one of the pushes of it, and all that is left can be placed to the end, it can be with this take
    //=   first, in one step of as many, if no pop told that the queue is empty is in the way.
    ensures { (n number : ℕ) (s t : State) → GoesAlone number s t → CanEnd (suc n) s → CanEnd n t }
{}

/// A pending pop may wait until it is needed: it goes only where a push is in the way of a pop that was told a reply, and
/// then takes the value of the push that ended first of those that wait.
pub fn a_pending_pop_waits_until_it_is_needed()
    //= judge/pending: Where all that is left can be placed to the end, it can be with a step first that is none of a
    //=   pending pop, or that takes the value of the push that ended first, which is in the way of a pop.
    ensures { (n : ℕ) (p : Stamped) (s : State) → IsFirstToEnd p s
        → CanEnd (suc n) s → EndsLazily p n s }
{}

/// Where a pending pop goes, one that began no later may go in its place.
pub fn the_pending_pop_that_began_first_goes_first()
    //= judge/in_turn: Where all that is left can be placed to the end behind a pending pop that took a value, it can be
    //=   behind another one that began no later and took the value in its place.
    ensures { (n : ℕ) (d e p : Stamped) (s t : State) → CouldGo d e p s t
        → CanEnd n t → (u : State) × Pops d p s u × CanEnd n u }
{}

/// A pending pop is no use while a pop goes that was told the value.
pub fn a_pop_that_was_told_the_value_goes_instead()
    //= judge/instead: Where all that is left can be placed to the end behind a pending pop that took a value, and another
    //=   pop had begun by then and was told the value, it can be with a step first that is none of a pending pop.
    ensures { (n : ℕ) (o d p : Stamped) (s t : State) → IsToldInstead o d p s t
        → CanEnd n t → (u : State) × StepOfOther s u × CanEnd n u }
{}

/// Where all that is left can be placed to the end, no value was told to more operations than pushes of it wait.
pub fn no_value_is_told_more_often_than_it_is_pushed()
    //= judge/enough: Where all that is left can be placed to the end, no value was told to more of the operations that
    //=   are left than pushes of it wait.
    ensures { (v : Taken) (n : ℕ) (s : State) → CanEnd n s
        → told_count v s.left ≤ push_count v s.left }
{}

/// A history of pushes alone, none of which was refused, takes no more room than its start.
pub fn pushes_alone_take_no_more_than_the_start()
    //= judge/least_room: Of a history of pushes alone, none of them refused, only the start is reached: no more room is
    //=   taken than the 160 bytes of one state.
    ensures { (ops : List Stamped) (room : ℕ) → AllByRecursion (λ o. waits o ≡ true) ops
        → TakesRoom ops room → room ≤ 160 }
{}
