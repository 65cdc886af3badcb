//! What every queue of values promises, whatever the values' type, and whichever queue it is.
ghost use Rattle.std.specs.Prelude.{◌≡◌, ℕ, ◌≤◌, ◌↔◌, IsTrue, List, IfErr, IfOk, OnOk};
ghost use Rattle.history.specs.Seats.{Permit, MayPush, MayPop};
ghost use Rattle.history.specs.Answers.{StopsPush, StopsPop, StopsShut, EndsPush, EndsPop, EndsShut};
ghost use Rattle.carriers.specs.Knowledge.{KnownOf, IsSoundOf};
ghost use Rattle.carriers.specs.Answers.{PushedOf, PopAnswersOf, DidShutOf};
ghost use Rattle.carriers.specs.Answers.{PushRefusedOf, PopRefusedOf, MeetsOf, EndsByTryOf};

use crate::TURNS;
use crate::items::{ItemOf, Unpushed};
use crossbeam_utils::Backoff;
use history::Refusal;
use std::sync::Wait;

/// A first-in-first-out queue of values that threads share, each with a seat of its own.
///
/// A seat belongs to the queue that gave it. There is one history of *deeds*, the pushes, pops and shuts, in the order in
/// which they had their effect, and each has its value. Each seat has seen a prefix of it, and each call tells its seat more.
/// A value that is pushed is moved into the queue, and the pop that takes it moves it out.
pub trait Carrier {
    ghost use Rattle.history.specs.declared.refusals.Refusal.{Refusal};
    ghost use Rattle.history.specs.declared.refusals.Refusal.TheVariants.{Closed};

    /// What is pushed and popped. Nothing is asked of it: it need not be `Drop`, nor `Clone`.
    type Item;

    /// What a thread holds in order to call the queue.
    type Seat: Send + Drop;

    // The seat is one of this queue's, and in no call.
    ghost is_seat: { Self → Self.Seat → Type 0 };

    // What each seat may do, from number 1 on.
    ghost permits: { Self → List Permit };

    // What a seat knows.
    ghost known: { Self.Seat → KnownOf Self.Item };

    // What tells, of a push of so many turns and its seat before and after, that it had cause for its refusal.
    ghost push_cause: { Self → Self.Seat → Self.Seat → ℕ → Refusal → Type 0 };

    // The same of a pop.
    ghost pop_cause: { Self → Self.Seat → Self.Seat → ℕ → Refusal → Type 0 };

    // The same of a shut.
    ghost shut_cause: { Self → Self.Seat → Self.Seat → ℕ → Refusal → Type 0 };

    /// Pushes a value at the back, in so many turns at most, 1 or more. The seat may push.
    ///
    /// Refusals: `NoNode`, `WornOut`, `Busy`, and `Closed` where the queue is shut; the queue is then as if the call had
    /// not been, and the value comes back. Takes no memory and doesn't wait.
    ///
    /// ```rust
    /// match queue.try_push(&mut giver, text, 8) {
    ///     Err(Unpushed { refusal: Refusal::Busy, value }) => text = value,
    ///     done => return done,
    /// }
    /// ```
    fn try_push(
        &self,
        seat: &mut Self::Seat,
        value: Self::Item,
        turns: u32,
    ) -> Result<(), Unpushed<Self::Item>>
        requires seat { is_seat self.now seat.old }
        requires role { MayPush (permits self.now) (known seat.old).number }
        requires turns { 1 ≤ turns }
        //= carriers/seats (seat, number): A call leaves its seat one of the queue's (`is_seat`), with the same
        //=   number.
        ensures seat { is_seat self.now seat.new }
        ensures number { (known seat.new).number ≡ (known seat.old).number }
        //= carriers/pushed: A push that is done adds the push of this very value.
        ensures pushed { OnOk result (PushedOf (known seat.old) value (known seat.new)) }
        //= carriers/back: A push that is refused hands this very value back.
        ensures back { IfErr result (λ unpushed. unpushed.value ≡ value) }
        //= carriers/closed: After a push or a shut refused `Closed` what the seat has seen grows and leaves the queue
        //=   shut, after such a pop shut and empty; that is noted, and the seat's own deeds stay.
        //= carriers/other_refusals (refused, refusal): At other refusals what the seat has seen only grows; its own deeds
        //=   and notes stay. Such are `WornOut` and `Busy` and, of a push, `NoNode`; calls that wait are never refused
        //=   `Busy`.
        ensures refused { IfErr result
            (λ unpushed. PushRefusedOf (known seat.old) unpushed.refusal (known seat.new)) }
        ensures refusal { IfErr result (λ unpushed. StopsPush unpushed.refusal) }
        //= carriers/causes: A refusal has the cause that the queue names for it; that of a call that waits is of its last
        //=   try, of 8 turns, before which its seat had seen no less than before the call.
        ensures caused { IfErr result
            (λ unpushed. push_cause self.now seat.old seat.new turns unpushed.refusal) };

    /// Takes the value at the front, in so many turns at most, 1 or more; none where the queue was empty. The seat may
    /// pop.
    ///
    /// Refusals: `WornOut`, `Busy`, and `Closed` where the queue is shut and empty; the queue is then as if the call had
    /// not been. Takes no memory and doesn't wait.
    ///
    /// ```rust
    /// if let Some(item) = queue.try_pop(&mut taker, 8)? {
    ///     text = item.value;
    /// }
    /// ```
    fn try_pop(
        &self,
        seat: &mut Self::Seat,
        turns: u32,
    ) -> Result<Option<ItemOf<Self::Item>>, Refusal>
        requires seat { is_seat self.now seat.old }
        requires role { MayPop (permits self.now) (known seat.old).number }
        requires turns { 1 ≤ turns }
        //= carriers/seats (seat, number)
        ensures seat { is_seat self.now seat.new }
        ensures number { (known seat.new).number ≡ (known seat.old).number }
        //= carriers/popped: A pop with a value adds the pop of this very value, and of the number of the seat that pushed
        //=   it. After one that answers none what the seat has seen grows and leaves the queue empty and not shut, which
        //=   is noted.
        ensures answer { IfOk result (λ front. PopAnswersOf (known seat.old) front (known seat.new)) }
        //= carriers/closed
        //= carriers/other_refusals (refused, refusal)
        ensures refused { IfErr result
            (λ refusal. PopRefusedOf (known seat.old) refusal (known seat.new)) }
        ensures refusal { IfErr result StopsPop }
        //= carriers/causes
        ensures caused { IfErr result (pop_cause self.now seat.old seat.new turns) };

    /// Shuts the queue, in so many turns at most, 1 or more: no push stands after it, and what is in the queue stays to
    /// be popped. The seat may push.
    ///
    /// Refusals: `WornOut`, `Busy`, and `Closed` where the queue was shut before; the queue is then as if the call had
    /// not been. Takes no memory and doesn't wait.
    ///
    /// ```rust
    /// match queue.try_shut(&mut giver, 8) {
    ///     // By this call, or by one before.
    ///     Ok(()) | Err(Refusal::Closed) => return Ok(()),
    ///     Err(refusal) => return Err(refusal),
    /// }
    /// ```
    fn try_shut(&self, seat: &mut Self::Seat, turns: u32) -> Result<(), Refusal>
        requires seat { is_seat self.now seat.old }
        requires role { MayPush (permits self.now) (known seat.old).number }
        requires turns { 1 ≤ turns }
        //= carriers/seats (seat, number)
        ensures seat { is_seat self.now seat.new }
        ensures number { (known seat.new).number ≡ (known seat.old).number }
        //= carriers/shut: A shut that is done adds this shut.
        ensures shut { OnOk result (DidShutOf (known seat.old) (known seat.new)) }
        //= carriers/closed
        //= carriers/other_refusals (refused, refusal)
        ensures refused { IfErr result
            (λ refusal. PushRefusedOf (known seat.old) refusal (known seat.new)) }
        ensures refusal { IfErr result StopsShut }
        //= carriers/causes
        ensures caused { IfErr result (shut_cause self.now seat.old seat.new turns) };

    /// Afterwards both seats have seen one history, which begins with what each had seen. Takes no memory and doesn't
    /// wait.
    ///
    /// ```rust
    /// queue.push(rt, &mut giver, text)?;
    /// // From here on the taker has seen that push too.
    /// queue.meet(&mut giver, &mut taker);
    /// ```
    fn meet(&self, one: &mut Self::Seat, other: &mut Self::Seat)
        requires one { is_seat self.now one.old }
        requires other { is_seat self.now other.old }
        //= carriers/seats (one, other, meets)
        ensures one { is_seat self.now one.new }
        ensures other { is_seat self.now other.new }
        //= carriers/meet: Two seats that met have seen one history, which begins with what each had seen and has the deeds
        //=   of both; their own deeds and notes stay.
        ensures meets { MeetsOf (known one.old) (known other.old) (known one.new) (known other.new) };

    /// Whether the seat may push. Takes no memory and doesn't wait.
    ///
    /// ```rust
    /// if queue.may_push(&giver) {
    ///     queue.push(rt, &mut giver, text)?;
    /// }
    /// ```
    fn may_push(&self, seat: &Self::Seat) -> bool
        requires { is_seat self.now seat.now }
        //= carriers/may: Whether a seat may push, and may pop, is told exactly.
        ensures { IsTrue result ↔ MayPush (permits self.now) (known seat.now).number };

    /// Whether the seat may pop. Takes no memory and doesn't wait.
    ///
    /// ```rust
    /// if queue.may_pop(&taker) {
    ///     last = queue.pop(rt, &mut taker)?;
    /// }
    /// ```
    fn may_pop(&self, seat: &Self::Seat) -> bool
        requires { is_seat self.now seat.now }
        //= carriers/may
        ensures { IsTrue result ↔ MayPop (permits self.now) (known seat.now).number };

    //= carriers/sound: What a seat knows is *sound* (docs/GLOSSARY.md).
    //= carriers/meet
    ghost sound: { (queue : Self) (seat : Self.Seat) → is_seat queue seat → IsSoundOf (permits queue) (known seat) };

    ghost closed_alike: { (queue : Self) (before after : Self.Seat) (turns : ℕ) → shut_cause queue before after turns Closed
        → push_cause queue before after turns Closed };

    //= carriers/one_fact
    ghost seat_prop: { (queue : Self) (seat : Self.Seat) → IsProp (is_seat queue seat) };

    /// Pushes a value at the back, by tries of 8 turns each, and tries again while others are in the way. The seat may push.
    ///
    /// Refusals: `NoNode`, `WornOut`, and `Closed` where the queue is shut; nothing was pushed then, and the value
    /// comes back. Takes no memory, and waits.
    ///
    /// ```rust
    /// // A text that isn't pushed is dropped here, and comes back where the error is matched.
    /// queue.push(rt, &mut giver, text)?;
    /// ```
    final fn push<R: Wait>(
        &self,
        rt: &R,
        seat: &mut Self::Seat,
        mut value: Self::Item,
    ) -> Result<(), Unpushed<Self::Item>>
        requires seat { is_seat self.now seat.old }
        requires role { MayPush (permits self.now) (known seat.old).number }
        //= carriers/seats (seat, number)
        ensures seat { is_seat self.now seat.new }
        ensures number { (known seat.new).number ≡ (known seat.old).number }
        //= carriers/pushed
        ensures pushed { OnOk result (PushedOf (known seat.old) value (known seat.new)) }
        //= carriers/back
        ensures back { IfErr result (λ unpushed. unpushed.value ≡ value) }
        //= carriers/closed
        //= carriers/other_refusals (refused, refusal)
        ensures refused { IfErr result
            (λ unpushed. PushRefusedOf (known seat.old) unpushed.refusal (known seat.new)) }
        ensures refusal { IfErr result (λ unpushed. EndsPush unpushed.refusal) }
        //= carriers/causes
        ensures caused { IfErr result (λ unpushed.
            EndsByTryOf is_seat known push_cause self.now seat.old seat.new 8 unpushed.refusal) }
    {
        let backoff = Backoff::new();
        for _ in rt.forever() {
            match self.try_push(seat, value, TURNS) {
                Ok(()) => return Ok(()),
                Err(
                    Unpushed {
                        refusal: Refusal::Busy,
                        value: back,
                    },
                ) => {
                    value = back;
                    backoff.snooze();
                }
                Err(unpushed) => return Err(unpushed),
            }
        }
        unreachable!()
    }

    /// Takes the value at the front, by tries of 8 turns each, and tries again while others are in the way; none where the
    /// queue was empty. The seat may pop.
    ///
    /// Refusals: `WornOut`, and `Closed` where the queue is shut and empty; nothing was popped then.
    /// Takes no memory, and waits.
    ///
    /// ```rust
    /// match queue.pop(rt, &mut taker)? {
    ///     Some(item) => text = item.value,
    ///     None => backoff.snooze(),
    /// }
    /// ```
    final fn pop<R: Wait>(
        &self,
        rt: &R,
        seat: &mut Self::Seat,
    ) -> Result<Option<ItemOf<Self::Item>>, Refusal>
        requires seat { is_seat self.now seat.old }
        requires role { MayPop (permits self.now) (known seat.old).number }
        //= carriers/seats (seat, number)
        ensures seat { is_seat self.now seat.new }
        ensures number { (known seat.new).number ≡ (known seat.old).number }
        //= carriers/popped
        ensures answer { IfOk result (λ front. PopAnswersOf (known seat.old) front (known seat.new)) }
        //= carriers/closed
        //= carriers/other_refusals (refused, refusal)
        ensures refused { IfErr result
            (λ refusal. PopRefusedOf (known seat.old) refusal (known seat.new)) }
        ensures refusal { IfErr result EndsPop }
        //= carriers/causes
        ensures caused { IfErr result
            (EndsByTryOf is_seat known pop_cause self.now seat.old seat.new 8) }
    {
        let backoff = Backoff::new();
        for _ in rt.forever() {
            match self.try_pop(seat, TURNS) {
                Ok(front) => return Ok(front),
                Err(Refusal::Busy) => backoff.snooze(),
                Err(refusal) => return Err(refusal),
            }
        }
        unreachable!()
    }

    /// Shuts the queue, by tries of 8 turns each, and tries again while others are in the way: no push stands after it,
    /// and what is in the queue stays to be popped. The seat may push.
    ///
    /// Refusals: `WornOut`, and `Closed` where the queue was shut before; this call didn't shut it then.
    /// Takes no memory, and waits.
    ///
    /// ```rust
    /// // The last one that pushes ends the queue, and takers go on until they find it shut and empty.
    /// queue.shut(rt, &mut giver)?;
    /// ```
    final fn shut<R: Wait>(&self, rt: &R, seat: &mut Self::Seat) -> Result<(), Refusal>
        requires seat { is_seat self.now seat.old }
        requires role { MayPush (permits self.now) (known seat.old).number }
        //= carriers/seats (seat, number)
        ensures seat { is_seat self.now seat.new }
        ensures number { (known seat.new).number ≡ (known seat.old).number }
        //= carriers/shut
        ensures shut { OnOk result (DidShutOf (known seat.old) (known seat.new)) }
        //= carriers/closed
        //= carriers/other_refusals (refused, refusal)
        ensures refused { IfErr result
            (λ refusal. PushRefusedOf (known seat.old) refusal (known seat.new)) }
        ensures refusal { IfErr result EndsShut }
        //= carriers/causes
        ensures caused { IfErr result
            (EndsByTryOf is_seat known shut_cause self.now seat.old seat.new 8) }
    {
        let backoff = Backoff::new();
        for _ in rt.forever() {
            match self.try_shut(seat, TURNS) {
                Ok(()) => return Ok(()),
                Err(Refusal::Busy) => backoff.snooze(),
                Err(refusal) => return Err(refusal),
            }
        }
        unreachable!()
    }
}
