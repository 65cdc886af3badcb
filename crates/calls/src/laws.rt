//! Laws of calls that wait, each the contract of a function that does nothing.
ghost use Rattle.std.specs.Prelude.{◌≡◌, ℕ, true};
ghost use Rattle.calls.specs.declared.calls.Task.{Task};
ghost use Rattle.calls.specs.declared.calls.Bell.TheVariants.{Values, Room};
ghost use Rattle.calls.specs.Machine.{may_wait, IsAllAtOnce};
ghost use Rattle.calls.specs.Bells.{State, Reached, NobodyIsLeft};
ghost use Rattle.calls.specs.Queues.{Queue, IsReached, seen_by, IsExact, Fits};

/// Nobody sleeps beside a unit, or an end, without somebody on its way to ring, to wake, or to look.
pub fn nobody_is_left()
    //= calls/nobody_is_left: Of any number of calls at one bell none sleeps beside what it waits for, or an end of
    //=   it, without somebody on its way to ring, to wake, or to look.
    ensures { (s : State) → Reached s → NobodyIsLeft s }
{}

/// No pop sleeps beside a value, or an end of values, without somebody on its way.
pub fn no_pop_is_left()
    //= calls/no_call_is_left: Of any number of callers of a queue, which its step machine advances, no pop sleeps
    //=   beside a value, no push beside room, and neither beside an end, without somebody on its way to ring, to
    //=   wake, or to look.
    ensures { (capacity : ℕ) (q : Queue) → IsReached capacity q → NobodyIsLeft (seen_by Values q) }
{}

/// No push sleeps beside room, or an end of room, without somebody on its way.
pub fn no_push_is_left()
    //= calls/no_call_is_left
    ensures { (capacity : ℕ) (q : Queue) → IsReached capacity q → NobodyIsLeft (seen_by Room q) }
{}

/// Values, room, and the places that calls have in hand are the capacity together.
pub fn room_is_exact()
    //= calls/room_is_exact: Values, room, and the places that calls have in hand are always the capacity together; so
    //=   there are never more values than that.
    ensures { (capacity : ℕ) (q : Queue) → IsReached capacity q → IsExact capacity q }
{}

/// There are never more values than the capacity.
pub fn no_more_than_room()
    //= calls/room_is_exact
    ensures { (capacity : ℕ) (q : Queue) → IsReached capacity q → Fits capacity q }
{}

/// A push or a pop that at its first look does all that it wants, and then finds that nobody listens, is done by these two accesses.
pub fn a_call_may_be_done_at_once()
    //= calls/at_once: A push or a pop whose first look does all that it wants, beside a bell to which nobody listens,
    //=   is done by two accesses: the try, and a load.
    ensures { (t : Task) → may_wait t ≡ true → IsAllAtOnce t }
{}
