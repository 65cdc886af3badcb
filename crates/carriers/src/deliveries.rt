//! Laws of what several takers get of what several givers push on a queue of values, each the contract of a function that does
//! nothing.
ghost use Rattle.std.specs.Prelude.{◌≡◌, ◌++◌, ◌∷◌, ◌<◌, ◌≤◌, ℕ, Bool, IsTrue, nat_eq, List, map, Some, slice_get};
ghost use Rattle.std.specs.List.{All, IsDistinct, count_by};
ghost use Rattle.std.specs.List.Sorted.{IsPermutation};
ghost use mathlib.Core.List.{Sublist, IsPrefix};
ghost use Rattle.history.specs.Seats.{Permit};
ghost use Rattle.history.specs.Values.{OnlyPops};
ghost use Rattle.carriers.specs.declared.items.ItemOf.{ItemOf};
ghost use Rattle.carriers.specs.declared.rests.RestOf.{RestOf};
ghost use Rattle.carriers.specs.Deeds.{Deed, did_pop, own_deeds, is_popping, RunsTo, IsRun};
ghost use Rattle.carriers.specs.Values.{values_pushed, values_popped};
ghost use Rattle.carriers.specs.Knowledge.{KnownOf, IsSoundOf};
ghost use Rattle.carriers.specs.Rests.{left_in, whole_in};
ghost use Rattle.carriers.specs.Ends.{ClosesOf};
ghost use Rattle.carriers.specs.Deliveries.{sent, taken_of, values_of};
ghost use Rattle.carriers.specs.Delivered.{DeliversOf};
ghost use Rattle.carriers.specs.Together.{pushed_by, popped_by};

use crate::queues::Carrier;

/// What each taker got of each giver it got in the order in which that giver pushed it; and what all of them got of a giver,
/// and then what is left of it, is what it pushed.
pub fn takers_get_in_order<A>()
    //= carriers/in_order (together, each): What all takers got of a giver, in the order of their pops, and then what is left
    //=   of it, is what it pushed, in order. What one taker got of it is a subsequence of that, in order.
    ensures together { (ds : List (Deed A)) (shut : Bool) (left : List (ItemOf A)) → RunsTo ds shut left
        → (giver : ℕ) → sent (own_deeds giver ds) ≡ taken_of giver ds ++ values_of giver left }
    ensures each { (ds : List (Deed A)) → IsRun ds → (giver taker : ℕ)
        → Sublist (taken_of giver (own_deeds taker ds)) (sent (own_deeds giver ds)) }
{}

/// No push is popped twice: the pop with so many pops before it takes what the push with so many pushes before it put there,
/// and two pops have different ones.
pub fn no_push_is_popped_twice<A>()
    //= carriers/once (place, apart, kinds): The first pop of a run takes what its first push put there, the second pop the
    //=   second one, and so on, whoever makes them; so no two pops take one push. Of no kind of value more are popped than
    //=   were pushed.
    ensures place { (before after : List (Deed A)) (seat : ℕ) (front : ItemOf A)
        → IsRun (before ++ did_pop seat front ∷ after)
        → slice_get (values_pushed (before ++ did_pop seat front ∷ after))
        (count_by is_popping before) ≡ Some front }
    ensures apart { (before between : List (Deed A)) (seat : ℕ) (front : ItemOf A)
        → count_by is_popping before < count_by is_popping (before ++ did_pop seat front ∷ between) }
    ensures kinds { (ds : List (Deed A)) → IsRun ds → (kind : ItemOf A → Bool)
        → count_by kind (values_popped ds) ≤ count_by kind (values_pushed ds) }
{}

/// Where one seat alone may pop, what it took of each giver is a beginning of what it has seen that giver push, in order, each
/// once.
pub fn a_lone_taker_gets_a_beginning<A>()
    //= carriers/in_order_alone: Where one seat alone may pop, what it popped of each giver is a beginning of what it has seen
    //=   that giver push, in order, each once.
    ensures { (permits : List Permit) (taker : KnownOf A) → IsSoundOf permits taker
        → OnlyPops permits taker.number → (giver : ℕ)
        → IsPrefix (taken_of giver taker.mine) (sent (own_deeds giver taker.seen)) }
{}

/// Two seats of one queue that have seen the same, as two that met: what the one popped of the other is, in order, a
/// subsequence of what that one pushed.
pub fn seats_that_met_get_in_order<C: Carrier>()
    //= carriers/in_order_by_seats: What a seat popped of another one, which has seen the same, is in order a subsequence of
    //=   what that one pushed.
    ensures { (queue : C) (giver taker : C.Seat) → C.is_seat queue giver → C.is_seat queue taker
        → (C.known giver).seen ≡ (C.known taker).seen
        → Sublist (taken_of (C.known giver).number (C.known taker).mine)
        (sent (C.known giver).mine) }
{}

/// A queue that was closed by some seats: what each of them pushed is what was taken of it, and then what is left of it; and
/// each of them took of it in order.
pub fn closed_queues_delivered_in_order<A>()
    //= carriers/in_order_at_the_end: Of a closed queue: what a seat handed in pushed is some values and then what is left of
    //=   it, in order; and what each seat handed in took of it is a subsequence of these values.
    ensures { (permits : List Permit) (seats : List (KnownOf A)) (rest : RestOf A)
        → ClosesOf permits seats rest → All (λ giver. DeliversOf giver seats (left_in rest)) seats }
{}

/// A queue that was closed by all seats that did anything, each with a number of its own: each value that they pushed was
/// popped by one of them, or is left, once.
pub fn closed_queues_delivered_once<A>()
    //= carriers/delivered_once: Of a closed queue of which the seats handed in, no two with one number, made all deeds: the
    //=   values that they pushed are those that they popped, each seat's together, and those that are left, in some order; so
    //=   each of them once.
    ensures { (permits : List Permit) (seats : List (KnownOf A)) (rest : RestOf A)
        → ClosesOf permits seats rest → IsTrue (whole_in rest)
        → IsDistinct nat_eq (map (λ seat. seat.number) seats)
        → IsPermutation (pushed_by seats) (popped_by seats ++ left_in rest) }
{}
