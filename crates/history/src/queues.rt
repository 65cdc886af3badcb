//! What every queue promises, whichever it is.
ghost use Rattle.std.specs.Prelude.{◌≡◌, ℕ, ◌≤◌, ◌↔◌, IsTrue, List, IfErr, IfOk, OnOk, OnErr};
ghost use Rattle.history.specs.Seats.{Known, Permit, IsSound, MayPush, MayPop};
ghost use Rattle.history.specs.Answers.{Pushed, PopAnswers, DidShut, PushRefused, PopRefused, Meets};
ghost use Rattle.history.specs.Answers.{StopsPush, StopsPop, StopsShut};
ghost use Rattle.history.specs.Answers.{EndsPush, EndsPop, EndsShut, EndsByTry};

use crate::operations::{Body, Taken};
use crate::refusals::Refusal;
use crossbeam_utils::Backoff;
use std::sync::Wait;

/// How many turns a waiting call takes before it lets others go on.
const TURNS: u32 = 8;

/// A first-in-first-out queue that threads share, each with a seat of its own.
///
/// A seat belongs to the queue that gave it. There is one history of pushes, pops and shuts in the order in which they had
/// their effect. Each seat has seen a prefix of it, and each call tells its seat more.
pub trait Fifo {
    ghost use Rattle.history.specs.declared.refusals.Refusal.{Refusal};
    ghost use Rattle.history.specs.declared.refusals.Refusal.TheVariants.{Closed};

    /// What a thread holds in order to call the queue.
    type Seat: Send + Drop;

    // The seat is one of this queue's, and in no call.
    ghost is_seat: { Self → Self.Seat → Type 0 };

    // What each seat may do, from number 1 on.
    ghost permits: { Self → List Permit };

    // What a seat knows.
    ghost known: { Self.Seat → Known };

    // What tells, of a push of so many turns and its seat before and after, that it had cause for its refusal.
    ghost push_cause: { Self → Self.Seat → Self.Seat → ℕ → Refusal → Type 0 };

    // The same of a pop.
    ghost pop_cause: { Self → Self.Seat → Self.Seat → ℕ → Refusal → Type 0 };

    // The same of a shut.
    ghost shut_cause: { Self → Self.Seat → Self.Seat → ℕ → Refusal → Type 0 };

    /// Pushes a body at the back, in so many turns at most, 1 or more. The seat may push.
    ///
    /// Refusals: `NoNode`, `WornOut`, `Busy`, and `Closed` where the queue is shut; the queue is then as if the call had
    /// not been. A push that gets no node, or a worn one, is refused so also where the queue is shut. Takes no memory and
    /// doesn't wait.
    ///
    /// ```rust
    /// match queue.try_push(&mut giver, body, 8) {
    ///     Err(Refusal::Busy) | Err(Refusal::NoNode) => backoff.snooze(),
    ///     done => return done,
    /// }
    /// ```
    fn try_push(&self, seat: &mut Self::Seat, body: Body, turns: u32) -> Result<(), Refusal>
        requires seat { is_seat self.now seat.old }
        requires role { MayPush (permits self.now) (known seat.old).number }
        requires turns { 1 ≤ turns }
        //= queues/seats (seat, number): A call leaves its seat one of the queue's, in no call, with the same number.
        ensures seat { is_seat self.now seat.new }
        ensures number { (known seat.new).number ≡ (known seat.old).number }
        //= queues/pushed: A push that is done adds the push of this body.
        ensures pushed { OnOk result (Pushed (known seat.old) body (known seat.new)) }
        //= queues/closed: After a push or a shut refused `Closed` what the seat has seen grows and leaves the queue
        //=   shut, after such a pop shut and empty; that is noted, and the seat's own entries stay.
        //= queues/other_refusals (refused, refusal): At other refusals what the seat has seen only grows; its own entries
        //=   and notes stay. Such are `WornOut` and `Busy` and, of a push, `NoNode`; calls that wait are never refused
        //=   `Busy`.
        ensures refused { IfErr result
            (λ refusal. PushRefused (known seat.old) refusal (known seat.new)) }
        ensures refusal { IfErr result StopsPush }
        //= queues/causes: A refusal has the cause that the queue names for it; that of a call that waits is of its last
        //=   try, of 8 turns, before which its seat had seen no less than before the call.
        ensures caused { IfErr result (push_cause self.now seat.old seat.new turns) };

    /// Takes the value at the front, in so many turns at most, 1 or more; none where the queue was empty. The seat may
    /// pop.
    ///
    /// Refusals: `WornOut`, `Busy`, and `Closed` where the queue is shut and empty; the queue is then as if the call had
    /// not been. Takes no memory and doesn't wait.
    ///
    /// ```rust
    /// if let Some(taken) = queue.try_pop(&mut taker, 8)? {
    ///     last = Some(taken.body);
    /// }
    /// ```
    fn try_pop(&self, seat: &mut Self::Seat, turns: u32) -> Result<Option<Taken>, Refusal>
        requires seat { is_seat self.now seat.old }
        requires role { MayPop (permits self.now) (known seat.old).number }
        requires turns { 1 ≤ turns }
        //= queues/seats (seat, number)
        ensures seat { is_seat self.now seat.new }
        ensures number { (known seat.new).number ≡ (known seat.old).number }
        //= queues/popped: A pop with a value adds the pop of this value. After one that answers none what the seat has
        //=   seen grows and leaves the queue empty and not shut, which is noted.
        ensures answer { IfOk result (λ taken. PopAnswers (known seat.old) taken (known seat.new)) }
        //= queues/closed
        //= queues/other_refusals (refused, refusal)
        ensures refused { IfErr result
            (λ refusal. PopRefused (known seat.old) refusal (known seat.new)) }
        ensures refusal { IfErr result StopsPop }
        //= queues/causes
        ensures caused { IfErr result (pop_cause self.now seat.old seat.new turns) };

    /// Shuts the queue, in so many turns at most, 1 or more: no push stands after it, and what is in the queue stays to
    /// be popped. The seat may push, and keeps what is in its pocket.
    ///
    /// Refusals: `WornOut`, `Busy`, and `Closed` where the queue was shut before; the queue is then as if the call had
    /// not been. Takes no memory and doesn't wait.
    ///
    /// ```rust
    /// match queue.try_shut(&mut giver, 8) {
    ///     Err(Refusal::Busy) => backoff.snooze(),
    ///     // By this call, or by one before.
    ///     Ok(()) | Err(Refusal::Closed) => return Ok(()),
    ///     Err(refusal) => return Err(refusal),
    /// }
    /// ```
    fn try_shut(&self, seat: &mut Self::Seat, turns: u32) -> Result<(), Refusal>
        requires seat { is_seat self.now seat.old }
        requires role { MayPush (permits self.now) (known seat.old).number }
        requires turns { 1 ≤ turns }
        //= queues/seats (seat, number)
        ensures seat { is_seat self.now seat.new }
        ensures number { (known seat.new).number ≡ (known seat.old).number }
        //= queues/shut: A shut that is done adds this shut.
        ensures shut { OnOk result (DidShut (known seat.old) (known seat.new)) }
        //= queues/closed
        //= queues/other_refusals (refused, refusal)
        ensures refused { IfErr result
            (λ refusal. PushRefused (known seat.old) refusal (known seat.new)) }
        ensures refusal { IfErr result StopsShut }
        //= queues/causes
        ensures caused { IfErr result (shut_cause self.now seat.old seat.new turns) };

    /// Afterwards both seats have seen one history, which begins with what each had seen. Takes no memory and doesn't
    /// wait.
    ///
    /// ```rust
    /// queue.push(rt, &mut giver, body)?;
    /// // From here on the taker has seen that push too.
    /// queue.meet(&mut giver, &mut taker);
    /// ```
    fn meet(&self, one: &mut Self::Seat, other: &mut Self::Seat)
        requires one { is_seat self.now one.old }
        requires other { is_seat self.now other.old }
        //= queues/seats (one, other, meets)
        ensures one { is_seat self.now one.new }
        ensures other { is_seat self.now other.new }
        //= queues/meet: Two seats that met have seen one history, which begins with what each had seen and has the
        //=   entries of both; their own entries and notes stay.
        ensures meets { Meets (known one.old) (known other.old) (known one.new) (known other.new) };

    /// Whether the seat may push. Takes no memory and doesn't wait.
    ///
    /// ```rust
    /// if queue.may_push(&giver) {
    ///     queue.push(rt, &mut giver, body)?;
    /// }
    /// ```
    fn may_push(&self, seat: &Self::Seat) -> bool
        requires { is_seat self.now seat.now }
        //= queues/may: Whether a seat may push, and may pop, is told exactly.
        ensures { IsTrue result ↔ MayPush (permits self.now) (known seat.now).number };

    /// Whether the seat may pop. Takes no memory and doesn't wait.
    ///
    /// ```rust
    /// if queue.may_pop(&taker) {
    ///     last = queue.pop(rt, &mut taker)?;
    /// }
    /// ```
    fn may_pop(&self, seat: &Self::Seat) -> bool
        requires { is_seat self.now seat.now }
        //= queues/may
        ensures { IsTrue result ↔ MayPop (permits self.now) (known seat.now).number };

    //= queues/sound: What a seat knows is *sound* (docs/GLOSSARY.md).
    //= queues/meet
    ghost sound: { (queue : Self) (seat : Self.Seat) → is_seat queue seat → IsSound (permits queue) (known seat) };

    //= queues/closed_alike: What causes a shut to be refused `Closed` is cause for a push to be refused so.
    ghost closed_alike: { (queue : Self) (before after : Self.Seat) (turns : ℕ) → shut_cause queue before after turns Closed
        → push_cause queue before after turns Closed };

    //= queues/one_fact
    ghost seat_prop: { (queue : Self) (seat : Self.Seat) → IsProp (is_seat queue seat) };

    /// Pushes a body at the back, by tries of 8 turns each, and tries again while others are in the way. The seat may push.
    ///
    /// Refusals: `NoNode`, `WornOut`, and `Closed` where the queue is shut; nothing was pushed then.
    /// Takes no memory, and waits.
    ///
    /// ```rust
    /// match queue.push(rt, &mut giver, body) {
    ///     // The queue is full until others pop.
    ///     Err(Refusal::NoNode) => backoff.snooze(),
    ///     done => return done,
    /// }
    /// ```
    final fn push<R: Wait>(&self, rt: &R, seat: &mut Self::Seat, body: Body) -> Result<(), Refusal>
        requires seat { is_seat self.now seat.old }
        requires role { MayPush (permits self.now) (known seat.old).number }
        //= queues/seats (seat, number)
        ensures seat { is_seat self.now seat.new }
        ensures number { (known seat.new).number ≡ (known seat.old).number }
        //= queues/pushed
        ensures pushed { OnOk result (Pushed (known seat.old) body (known seat.new)) }
        //= queues/closed
        //= queues/other_refusals (refused, refusal)
        ensures refused { IfErr result
            (λ refusal. PushRefused (known seat.old) refusal (known seat.new)) }
        ensures refusal { IfErr result EndsPush }
        //= queues/causes
        ensures caused { IfErr result (EndsByTry is_seat known push_cause self.now seat.old seat.new 8) }
    {
        let backoff = Backoff::new();
        for _ in rt.forever() {
            match self.try_push(seat, body, TURNS) {
                Ok(()) => return Ok(()),
                Err(Refusal::Busy) => backoff.snooze(),
                Err(refusal) => return Err(refusal),
            }
        }
        unreachable!()
    }

    /// Takes the value at the front, by tries of 8 turns each, and tries again while others are in the way; none where the
    /// queue was empty. The seat may pop.
    ///
    /// Refusals: `WornOut`, and `Closed` where the queue is shut and empty; nothing was popped then.
    /// Takes no memory, and waits.
    ///
    /// ```rust
    /// match queue.pop(rt, &mut taker)? {
    ///     Some(taken) => last = Some(taken.body),
    ///     None => backoff.snooze(),
    /// }
    /// ```
    final fn pop<R: Wait>(&self, rt: &R, seat: &mut Self::Seat) -> Result<Option<Taken>, Refusal>
        requires seat { is_seat self.now seat.old }
        requires role { MayPop (permits self.now) (known seat.old).number }
        //= queues/seats (seat, number)
        ensures seat { is_seat self.now seat.new }
        ensures number { (known seat.new).number ≡ (known seat.old).number }
        //= queues/popped
        ensures answer { IfOk result (λ taken. PopAnswers (known seat.old) taken (known seat.new)) }
        //= queues/closed
        //= queues/other_refusals (refused, refusal)
        ensures refused { IfErr result
            (λ refusal. PopRefused (known seat.old) refusal (known seat.new)) }
        ensures refusal { IfErr result EndsPop }
        //= queues/causes
        ensures caused { IfErr result (EndsByTry is_seat known pop_cause self.now seat.old seat.new 8) }
    {
        let backoff = Backoff::new();
        for _ in rt.forever() {
            match self.try_pop(seat, TURNS) {
                Ok(taken) => return Ok(taken),
                Err(Refusal::Busy) => backoff.snooze(),
                Err(refusal) => return Err(refusal),
            }
        }
        unreachable!()
    }

    /// Shuts the queue, by tries of 8 turns each, and tries again while others are in the way: no push stands after it,
    /// and what is in the queue stays to be popped. The seat may push, and keeps what is in its pocket.
    ///
    /// Refusals: `WornOut`, and `Closed` where the queue was shut before; this call didn't shut it then.
    /// Takes no memory, and waits.
    ///
    /// ```rust
    /// // The last one that pushes ends the queue, and takers go on until they find it shut and empty.
    /// queue.shut(rt, &mut giver)?;
    /// ```
    final fn shut<R: Wait>(&self, rt: &R, seat: &mut Self::Seat) -> Result<(), Refusal>
        requires seat { is_seat self.now seat.old }
        requires role { MayPush (permits self.now) (known seat.old).number }
        //= queues/seats (seat, number)
        ensures seat { is_seat self.now seat.new }
        ensures number { (known seat.new).number ≡ (known seat.old).number }
        //= queues/shut
        ensures shut { OnOk result (DidShut (known seat.old) (known seat.new)) }
        //= queues/closed
        //= queues/other_refusals (refused, refusal)
        ensures refused { IfErr result
            (λ refusal. PushRefused (known seat.old) refusal (known seat.new)) }
        ensures refusal { IfErr result EndsShut }
        //= queues/causes
        ensures caused { IfErr result (EndsByTry is_seat known shut_cause self.now seat.old seat.new 8) }
    {
        let backoff = Backoff::new();
        for _ in rt.forever() {
            match self.try_shut(seat, TURNS) {
                Ok(()) => return Ok(()),
                Err(Refusal::Busy) => backoff.snooze(),
                Err(refusal) => return Err(refusal),
            }
        }
        unreachable!()
    }
}
