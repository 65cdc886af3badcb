//! Laws of the turns of a seat that failed: over all traced worlds of the non-blocking queue, and over all moments of an arena.
//! Each is the contract of a function that does nothing.
ghost use Rattle.run_laws.specs.Turns.{OfTraces, TurnsArePaid, CallsArePaid, LinesArePaid};
ghost use Rattle.run_laws.specs.Turns.{EachMomentIsPaid, AreMomentsPaid};

/// The turns of a seat that failed, in all its calls so far, are at most two for each push or shut of another seat, one for
/// each pop, and one for each node that another one took or gave back: none of its own calls costs one.
pub fn a_seats_failed_turns_are_paid()
    //= progress/running: In the running non-blocking queue the turns of a seat that failed, in all its calls so far, are at
    //=   most 2 for each push or shut of another seat, 1 for each pop, and 1 for each node that another one took or gave
    //=   back. At each moment that is so in a reachable world with exactly the shared words, to which each seat fits.
    ensures { OfTraces (TurnsArePaid 2 1 1) }
{}

/// Between any two moments of a seat, in the first of which it may begin a call: of the turns that it made in between at most one failed, and two for each
/// push or shut of another seat in between, one for each pop, and one for each node that another one took or gave back. So of
/// each call.
pub fn the_failed_turns_between_two_moments_are_paid<T>()
    //= progress/between: Of a seat of the running non-blocking queue that is in no call, the turns that fail from then to
    //=   a later moment of it, as those of a call are, are at most 1, and 2 for each push or shut that another seat makes
    //=   between the two moments, 1 for each pop, and 1 for each node that another one takes or gives back.
    ensures { AreMomentsPaid 1 2 1 1 T }
{}

/// At each moment of an arena, between any two atomic steps of any threads, the rule's world is one in which the failed turns
/// of each seat are paid: all of them, those of its last call, and those of whichever last lines.
pub fn each_moments_failed_turns_are_paid()
    //= progress/running
    ensures { EachMomentIsPaid 2 1 1 }
{}

/// The turns of a call that failed are at most one, and two for each push or shut of another seat meanwhile, one for each pop,
/// and one for each node that another one took or gave back.
pub fn the_failed_turns_of_a_running_call_are_paid()
    //= progress/running_call: Of a call of the running non-blocking queue the turns that failed are at most 1, and as many
    //=   for what the others did since some world on the way to this one in which the seat's path was still without the
    //=   call. Of whichever last lines of a seat they are at most 2, and as many.
    ensures { OfTraces (CallsArePaid 1 2 1 1) }
{}

/// The same of whichever last lines of a seat, with two turns in place of one.
pub fn the_failed_turns_of_last_lines_are_paid()
    //= progress/running_call
    ensures { OfTraces (LinesArePaid 2 2 1 1) }
{}
