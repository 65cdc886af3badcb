//! Laws of what all items of an iterator over a queue say together, each the contract of a function that does nothing.
ghost use Rattle.std.specs.Prelude.{◌≡◌, true, false, None, Result, Ok, List, [], map};
ghost use Rattle.std.specs.Iterator.{Yields, YieldsThen};
ghost use Rattle.history.specs.declared.operations.Taken.{Taken};
ghost use Rattle.history.specs.declared.refusals.Refusal.{Refusal};
ghost use Rattle.history.specs.Entries.{Leads, LeadsTo};
ghost use Rattle.history.specs.Seats.{Known};
ghost use Rattle.carriers.specs.declared.until_empty.UntilEmpty.{UntilEmpty};
ghost use Rattle.carriers.specs.declared.until_shut.UntilShut.{UntilShut};
ghost use Rattle.carriers.specs.Empties.{GivesUntilEmpty};
ghost use Rattle.carriers.specs.Empties.{seat_of as seat_until_empty, has_ended as has_found_empty};
ghost use Rattle.carriers.specs.Shuts.{GivesUntilShut};
ghost use Rattle.carriers.specs.Shuts.{seat_of as seat_until_shut, has_ended as has_found_shut};
ghost use Rattle.carriers.specs.Drained.{DrainedUntilEmpty, DrainedUntilShut, HasPopped, values_of};

use history::Fifo;
use std::sync::Wait;

/// All items of an `UntilEmpty`, from the first to the end, are the seat's pops, one after another, and then one that finds the
/// queue empty, or is refused.
pub fn items_until_empty_are_pops<Q: Fifo, R: Wait>()
    //= queues/drained (all, own, ended, so_far): The items of an `UntilEmpty` are the seat's pops in that order, one after
    //=   another, and then one that finds the queue empty, or one that is refused, which is the last item; those of an
    //=   `UntilShut` also wait in between, and end where the queue is found shut and empty, or a word worn out. Since it
    //=   was made the seat's own entries are the pops of just these values, in that order, also where it is left before.
    ensures all { (s t : UntilEmpty Q R Q.Seat) (items : List (Result Taken Refusal))
        → has_found_empty s ≡ false
        → YieldsThen (GivesUntilEmpty Q.is_seat Q.known Q.pop_cause) s items None t
        → DrainedUntilEmpty (Q.known (seat_until_empty s).now) items
        (Q.known (seat_until_empty t).now) }
    ensures own { (k k' : Known) (items : List (Result Taken Refusal))
        → DrainedUntilEmpty k items k'
        → HasPopped k (values_of items) k' }
    ensures ended { (k k' : Known) (values : List Taken)
        → DrainedUntilEmpty k (map Ok values) k' → LeadsTo k'.seen [] }
    ensures so_far { (s t : UntilEmpty Q R Q.Seat) (items : List (Result Taken Refusal))
        → has_found_empty s ≡ false
        → Yields (GivesUntilEmpty Q.is_seat Q.known Q.pop_cause) s items t
        → HasPopped (Q.known (seat_until_empty s).now) (values_of items)
        (Q.known (seat_until_empty t).now) }
{}

/// All items of an `UntilShut`, from the first to the end, are the seat's pops, each after waiting, and then one that finds the
/// queue shut and empty, or a word worn out.
pub fn items_until_shut_are_pops<Q: Fifo, R: Wait>()
    //= queues/drained (all, own, ended, so_far)
    ensures all { (s t : UntilShut Q R Q.Seat) (items : List (Result Taken Refusal))
        → has_found_shut s ≡ false
        → YieldsThen (GivesUntilShut Q.is_seat Q.known Q.pop_cause) s items None t
        → DrainedUntilShut (Q.known (seat_until_shut s).now) items
        (Q.known (seat_until_shut t).now) }
    ensures own { (k k' : Known) (items : List (Result Taken Refusal))
        → DrainedUntilShut k items k'
        → HasPopped k (values_of items) k' }
    ensures ended { (k k' : Known) (values : List Taken)
        → DrainedUntilShut k (map Ok values) k' → Leads k'.seen true [] }
    ensures so_far { (s t : UntilShut Q R Q.Seat) (items : List (Result Taken Refusal))
        → has_found_shut s ≡ false
        → Yields (GivesUntilShut Q.is_seat Q.known Q.pop_cause) s items t
        → HasPopped (Q.known (seat_until_shut s).now) (values_of items)
        (Q.known (seat_until_shut t).now) }
{}
