//! The calls of a queue of values of a picked split, each that of the queue within.
ghost use Rattle.std.specs.Prelude.{◌≡◌, ◌≤◌, map};
ghost use Rattle.std.specs.List.{All};
ghost use Rattle.value_queue.specs.ValuesSeen.{known_by};
ghost use Rattle.picked.specs.Values.{arena_of, worn_of, permits_of, IsQueueSeat, carries};

use crate::forwards::of_split;
use crate::values::SplitOf;
use arena_queue::Algorithm;
use carriers::{Carrier, CloseCarrier, ItemOf, RestOf, Unpushed};
use history::Refusal;
use node_arena::{Ended, Seat};
use std::alloc::Global;
use value_queue::Room;

//= values/picked_calls: A queue of values of a picked split meets `Carrier` if its values are `Send`, and
//=   `CloseCarrier` if they are `Drop` too.
impl<T: Send, L> Carrier for SplitOf<T, L>
where
    L: Algorithm<16> + Algorithm<20> + Algorithm<24> + Algorithm<28> + Algorithm<32>,
{
    ghost use Rattle.std.specs.Prelude.{true, false, None, IfOk, IfErr, OnOk};
    ghost use Rattle.history.specs.Seats.{MayPush, MayPop};
    ghost use Rattle.history.specs.Answers.{StopsPush, StopsPop, StopsShut};
    ghost use Rattle.carriers.specs.Answers.{PushedOf, PopAnswersOf, DidShutOf, PushRefusedOf, PopRefusedOf};
    ghost use Rattle.node_arena.specs.Seats.{pocket_of, keeps_of};
    ghost use Rattle.arena_queue.specs.Answers.{FailsFewer, FailsFew, FreesItsNode, PopCaused, ShutCaused};
    ghost use Rattle.value_queue.specs.Pushes.{PushCaused, MissesFewer};
    ghost use Rattle.value_queue.specs.Pops.{KeepsItsNode};
    ghost use Rattle.value_queue.specs.Sound.{sound-seat, IsQueueSeat-prop};

    type Item = T;

    type Seat = Seat<T>;

    ghost is_seat = { IsQueueSeat };

    ghost permits = { permits_of };

    ghost known = { known_by };

    ghost push_cause = { λ q. PushCaused (worn_of q).push (arena_of q) };

    ghost pop_cause = { λ q. PopCaused (worn_of q).pop (arena_of q) };

    ghost shut_cause = { λ q. ShutCaused (worn_of q).shut (arena_of q) };

    ghost sound = { λ q s h. sound-seat (arena_of q) (carries q) s h.0.seat };

    ghost closed_alike = { λ _ _ _ _ cause. cause };

    ghost seat_prop = { λ q s. IsQueueSeat-prop (arena_of q) s };

    fn try_push(&self, seat: &mut Seat<T>, value: T, turns: u32) -> Result<(), Unpushed<T>>
        requires seat { IsQueueSeat self.now seat.old }
        requires role { MayPush (permits_of self.now) (known_by seat.old).number }
        requires turns { 1 ≤ turns }
        ensures seat { IsQueueSeat self.now seat.new }
        ensures number { (known_by seat.new).number ≡ (known_by seat.old).number }
        //= values/keeps
        ensures keeps { keeps_of seat.new ≡ keeps_of seat.old }
        ensures pushed { OnOk result (PushedOf (known_by seat.old) value (known_by seat.new)) }
        //= values/done (few, missed, pocket)
        ensures few { OnOk result (FailsFewer seat.old seat.new turns) }
        ensures missed { OnOk result (MissesFewer (arena_of self.now) seat.old seat.new turns) }
        ensures pocket { OnOk result (pocket_of seat.new ≡ None) }
        ensures back { IfErr result (λ unpushed. unpushed.value ≡ value) }
        ensures refused { IfErr result
            (λ unpushed. PushRefusedOf (known_by seat.old) unpushed.refusal (known_by seat.new)) }
        ensures refusal { IfErr result (λ unpushed. StopsPush unpushed.refusal) }
        //= values/push_causes
        ensures caused { IfErr result (λ unpushed.
            PushCaused (worn_of self.now).push (arena_of self.now) seat.old seat.new turns unpushed.refusal) }
    {
        of_split!(self, queue => queue.try_push(seat, value, turns))
    }

    fn try_pop(&self, seat: &mut Seat<T>, turns: u32) -> Result<Option<ItemOf<T>>, Refusal>
        requires seat { IsQueueSeat self.now seat.old }
        requires role { MayPop (permits_of self.now) (known_by seat.old).number }
        requires turns { 1 ≤ turns }
        ensures seat { IsQueueSeat self.now seat.new }
        ensures number { (known_by seat.new).number ≡ (known_by seat.old).number }
        //= values/keeps
        ensures keeps { keeps_of seat.new ≡ keeps_of seat.old }
        ensures answer { IfOk result
            (λ front. PopAnswersOf (known_by seat.old) front (known_by seat.new)) }
        //= values/answered (few, freed, kept)
        ensures few { OnOk result (FailsFew seat.old seat.new turns) }
        ensures freed { keeps_of seat.old ≡ false →
            OnOk result (FreesItsNode seat.old seat.new turns) }
        ensures kept { keeps_of seat.old ≡ true → IfOk result (KeepsItsNode seat.new) }
        ensures refused { IfErr result
            (λ refusal. PopRefusedOf (known_by seat.old) refusal (known_by seat.new)) }
        ensures refusal { IfErr result StopsPop }
        //= values/other_causes
        ensures caused { IfErr result
            (PopCaused (worn_of self.now).pop (arena_of self.now) seat.old seat.new turns) }
    {
        of_split!(self, queue => queue.try_pop(seat, turns))
    }

    fn try_shut(&self, seat: &mut Seat<T>, turns: u32) -> Result<(), Refusal>
        requires seat { IsQueueSeat self.now seat.old }
        requires role { MayPush (permits_of self.now) (known_by seat.old).number }
        requires turns { 1 ≤ turns }
        ensures seat { IsQueueSeat self.now seat.new }
        ensures number { (known_by seat.new).number ≡ (known_by seat.old).number }
        //= values/keeps
        ensures keeps { keeps_of seat.new ≡ keeps_of seat.old }
        ensures shut { OnOk result (DidShutOf (known_by seat.old) (known_by seat.new)) }
        //= values/done (few, pocket)
        ensures few { OnOk result (FailsFewer seat.old seat.new turns) }
        ensures pocket { pocket_of seat.new ≡ pocket_of seat.old }
        ensures refused { IfErr result
            (λ refusal. PushRefusedOf (known_by seat.old) refusal (known_by seat.new)) }
        ensures refusal { IfErr result StopsShut }
        //= values/other_causes
        ensures caused { IfErr result
            (ShutCaused (worn_of self.now).shut (arena_of self.now) seat.old seat.new turns) }
    {
        of_split!(self, queue => queue.try_shut(seat, turns))
    }

    fn meet(&self, one: &mut Seat<T>, other: &mut Seat<T>) {
        of_split!(self, queue => queue.meet(one, other))
    }

    fn may_push(&self, seat: &Seat<T>) -> bool {
        of_split!(self, queue => queue.may_push(seat))
    }

    fn may_pop(&self, seat: &Seat<T>) -> bool {
        of_split!(self, queue => queue.may_pop(seat))
    }
}

//= values/picked_calls
impl<T: Send + Drop, L> CloseCarrier for SplitOf<T, L>
where
    L: Algorithm<16> + Algorithm<20> + Algorithm<24> + Algorithm<28> + Algorithm<32>,
{
    ghost use Rattle.carriers.specs.Ends.{ClosesOf};
    ghost use Rattle.value_queue.specs.Ends.{HasRoom, LeavesValues};

    type Room = Room<T>;

    type End = Ended<T>;

    ghost ends = { λ q. LeavesValues (arena_of q) };

    ghost asks = { λ _ _. Unit {0} };

    ghost has_room = { λ q. HasRoom (arena_of q) };

    fn room(&self, alloc: Global) -> Result<Room<T>, Refusal> {
        of_split!(self, queue => queue.room(alloc))
    }

    fn close_with(self, room: Room<T>, seats: Vec<Seat<T>>) -> (RestOf<T>, Ended<T>)
        requires room { HasRoom (arena_of self) room }
        requires seats { All (IsQueueSeat self) seats.items }
        ensures rest { ClosesOf (permits_of self) (map known_by seats.items) result.0 }
        ensures ends { LeavesValues (arena_of self) result.1 result.0 }
    {
        of_split!(self, queue => queue.close_with(room, seats))
    }
}
