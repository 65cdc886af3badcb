//! Linearization points for a recorded history, or a reason why there are none.
ghost use Rattle.std.specs.Prelude.{◌≡◌, ◌↔◌, ◌≤◌, ℕ, IsTrue, IfOk, IfErr, IfSome, IsSome, IsSomeAnd, All, length};
ghost use Rattle.history.specs.declared.operations.Verdict.TheVariants.{Yes};
ghost use Rattle.history.specs.History.{verdict};
ghost use Rattle.placing.specs.declared.answers.Placed.TheVariants.{History};
ghost use Rattle.waiting_orders.specs.Waiting.{IsOfQueue};
ghost use Rattle.placing.specs.SpreadStamps.{IsSpread};
ghost use Rattle.placing.specs.Orders.{IsOrder};
ghost use Rattle.placing.specs.Faults.{IsFaultless};
ghost use Rattle.placing.specs.Answers.{IsAnswer, HasCause};

use crate::answers::{Placed, Reason, Unknown};
use crate::cuts::{Cutting, cut};
use crate::kinds::{ByKind, first_fault, sorted};
use crate::known::Known;
use crate::operation_order::{lined, points};
use crate::pairs::{Pair, Pairing, Pairs, paired};
use crate::reasons::is_reason;
use crate::shut_faults::shut_fault;
use crate::spread_stamps::{Spread, pointed};
use crate::stamp_room::fitted;
use crate::stuck::stuck;
use crate::value_order::{Ordered, order_of, values_of};
use crate::value_reasons::{full, out_of_order};
use crate::without_shut::{is_shut, unshut};
use history::{Refusal, Stamped, Verdict, check};
use std::alloc::{AllocError, Global};
use waiting_orders::{Found as Searched, searched};

// What is found of a history, before it is judged.
#[derive(Drop)]
enum Found {
    /// Operations in the order in which they take effect, as indices of the list.
    Order(Vec<usize>),
    Reason(Reason),
    Nothing,
}

/// Whether a recorded history is one of a queue. Its points are not read.
///
/// The answer is a history with points that `check` judges Yes, or a reason that holds, or neither; and a reason where an
/// operation is wrong by itself. An order is guessed at; where the guess is none, it is searched for, and a search whose states
/// take no more than so many bytes ends with an order, or with a reason. The call takes memory for the operations, and time
/// `n * log n` for `n` of them; a search takes both for each of its states, of which there may be exponentially many. It
/// doesn't wait. It is refused by `Memory` alone.
pub fn place(alloc: Global, history: &[Stamped], room: u64) -> Result<Placed, Refusal>
    //= judge/answers (answer, only_memory): A recorded history is answered with points by which it is judged Yes, its
    //=   stamps as they were or spread, by a reason that holds, or that neither was found, which is said of none with
    //=   an operation that is wrong by itself. Or Memory.
    ensures answer { IfOk result (IsAnswer history.now) }
    //= judge/open: Open is told as `Room` only where states of the search, each reached from the start and listed once,
    //=   take as many bytes as the room or more (`TakesRoom`); or as `Unplaced` of a history of more than 2,147,483,648
    //=   operations that is one of a queue.
    ensures cause { IfOk result (HasCause history.now room) }
    ensures only_memory { IfErr result (λ refusal. refusal ≡ Refusal.Memory) }
{
    if let Some(fault) = first_fault(history) {
        return Ok(Placed::Impossible(fault));
    }
    match find(alloc, history) {
        Ok(Found::Order(order)) => match placed(alloc, history, &order)? {
            Some(new) => Ok(Placed::History(new)),
            None => sought(alloc, history, room),
        },
        Ok(Found::Reason(reason)) => excluded(alloc, history, reason, room),
        Ok(Found::Nothing) => sought(alloc, history, room),
        Err(_) => Err(Refusal::Memory),
    }
}

// The history with points by an order that a search finds, or the reason that there is none.
fn sought(alloc: Global, history: &[Stamped], room: u64) -> Result<Placed, Refusal>
    requires { All IsFaultless history.now }
    ensures answer { IfOk result (IsAnswer history.now) }
    ensures cause { IfOk result (HasCause history.now room) }
    ensures only_memory { IfErr result (λ refusal. refusal ≡ Refusal.Memory) }
{
    match searched(alloc, history, room) {
        Ok(Searched::Order(order)) => by_order(alloc, history, &order),
        Ok(Searched::Nothing) => at_end(alloc, history, room),
        Ok(Searched::Room) => Ok(Placed::Open(Unknown::Room)),
        Err(_) => Err(Refusal::Memory),
    }
}

// The history with points by an order of it.
fn by_order(alloc: Global, history: &[Stamped], order: &[usize]) -> Result<Placed, Refusal>
    requires all { All IsFaultless history.now }
    requires is_of_queue { IsOfQueue history.now }
    requires order { IsOrder history.now order.now }
    ensures answer { IfOk result (IsAnswer history.now) }
    ensures cause { (room : ℕ) → IfOk result (HasCause history.now room) }
    ensures only_memory { IfErr result (λ refusal. refusal ≡ Refusal.Memory) }
{
    match placed(alloc, history, order)? {
        Some(new) => Ok(Placed::History(new)),
        None => Ok(Placed::Open(Unknown::Unplaced)),
    }
}

// The reason of a search that ended with nothing left to try.
fn at_end(alloc: Global, history: &[Stamped], room: u64) -> Result<Placed, Refusal>
    requires all { All IsFaultless history.now }
    requires none { ¬ IsOfQueue history.now }
    ensures answer { IfOk result (IsAnswer history.now) }
    ensures cause { IfOk result (HasCause history.now room) }
    ensures only_memory { IfErr result (λ refusal. refusal ≡ Refusal.Memory) }
{
    match stuck(alloc, history, room) {
        Ok(reason) => Ok(Placed::Impossible(reason)),
        Err(_) => Err(Refusal::Memory),
    }
}

// The reason, where it is tested to be one.
fn excluded(
    alloc: Global,
    history: &[Stamped],
    reason: Reason,
    room: u64,
) -> Result<Placed, Refusal>
    requires { All IsFaultless history.now }
    ensures answer { IfOk result (IsAnswer history.now) }
    ensures cause { IfOk result (HasCause history.now room) }
    ensures only_memory { IfErr result (λ refusal. refusal ≡ Refusal.Memory) }
{
    match Known::of(alloc, history) {
        Ok(known) if is_reason(history, &known, &reason) => Ok(Placed::Impossible(reason)),
        Ok(_) => sought(alloc, history, room),
        Err(_) => Err(Refusal::Memory),
    }
}

// A history with points by an order: with the stamps given, where these have room for it, and else with spread ones. None
// where the order is none.
fn placed(
    alloc: Global,
    history: &[Stamped],
    order: &[usize],
) -> Result<Option<Vec<Stamped>>, Refusal>
    requires { All IsFaultless history.now }
    ensures new { IfOk result (λ new. IfSome new (λ new. IsAnswer history.now (History new))) }
    ensures some { length history.now ≤ 2147483648 → IsOrder history.now order.now
        → IfOk result IsSome }
    ensures only_memory { IfErr result (λ refusal. refusal ≡ Refusal.Memory) }
{
    match within_stamps(alloc, history, order) {
        Ok(Some(new)) if is_right(alloc, &new)? => return Ok(Some(new)),
        Ok(_) => {}
        Err(_) => return Err(Refusal::Memory),
    }
    match spread_out(alloc, history, order) {
        Ok(Some(new)) if is_right(alloc, &new)? => Ok(Some(new)),
        Ok(_) => Ok(None),
        Err(_) => Err(Refusal::Memory),
    }
}

// Whether `check` judges a history Yes.
fn is_right(alloc: Global, history: &[Stamped]) -> Result<bool, Refusal>
    ensures yes { IfOk result (λ is_right. IsTrue is_right ↔ (verdict history.now ≡ Yes)) }
    ensures only_memory { IfErr result (λ refusal. refusal ≡ Refusal.Memory) }
{
    match check(alloc, history)? {
        Verdict::Yes => Ok(true),
        Verdict::No { .. } => Ok(false),
    }
}

// The history with points within the stamps given.
fn within_stamps(
    alloc: Global,
    history: &[Stamped],
    order: &[usize],
) -> Result<Option<Vec<Stamped>>, AllocError>
    ensures { IfOk result (λ new. IfSome new (λ new. IsSpread history.now new.items)) }
{
    match fitted(alloc, history, order)? {
        Some(points) => Ok(Some(pointed(alloc, history, &points)?)),
        None => Ok(None),
    }
}

// The history with points, all stamps spread.
fn spread_out(
    alloc: Global,
    history: &[Stamped],
    order: &[usize],
) -> Result<Option<Vec<Stamped>>, AllocError>
    requires { All IsFaultless history.now }
    ensures spread { IfOk result (λ new. IfSome new (λ new. IsSpread history.now new.items)) }
    ensures placed { length history.now ≤ 2147483648 → IsOrder history.now order.now
        → IfOk result (λ new. IsSomeAnd new (λ new. verdict new.items ≡ Yes)) }
{
    let spread = Spread::of(alloc, history)?;
    match points(alloc, history, order, &spread)? {
        Some(points) => spread.history(alloc, history, &points),
        None => Ok(None),
    }
}

// An order of operations of which none is wrong by itself, or a reason why there is none. Neither is judged yet.
fn find(alloc: Global, history: &[Stamped]) -> Result<Found, AllocError> {
    if is_shut(history) {
        if let Some(reason) = shut_fault(alloc, history, &sorted(alloc, history)?.calls)? {
            return Ok(Found::Reason(reason));
        }
    }
    match of_open(alloc, history)? {
        Found::Reason(reason) => Ok(Found::Reason(reason)),
        Found::Order(_) | Found::Nothing if is_shut(history) => of_shut(alloc, history),
        Found::Order(order) => Ok(Found::Order(order)),
        Found::Nothing => Ok(Found::Nothing),
    }
}

// The same of a history in which no queue is shut.
fn of_open(alloc: Global, history: &[Stamped]) -> Result<Found, AllocError> {
    let sorted = sorted(alloc, history)?;
    let pairs = match paired(alloc, &sorted.calls)? {
        Pairing::Pairs(pairs) => pairs,
        Pairing::Sooner(reason) => return Ok(Found::Reason(reason)),
    };
    match arranged(alloc, history, &sorted, &pairs.once)? {
        Found::Reason(reason) => Ok(Found::Reason(reason)),
        Found::Order(order) if pairs.guessed.is_empty() => Ok(Found::Order(order)),
        Found::Order(_) | Found::Nothing => guessed(alloc, history, &sorted, pairs),
    }
}

// An order of a history in which the queue is shut, where that is an order when the queue was shut as late as may be.
fn of_shut(alloc: Global, history: &[Stamped]) -> Result<Found, AllocError> {
    let unshut = unshut(alloc, history)?;
    match of_open(alloc, &unshut)? {
        Found::Order(order) => Ok(Found::Order(order)),
        Found::Reason(_) | Found::Nothing => Ok(Found::Nothing),
    }
}

// An order by a guess which take has which push. Where the guess has none, nothing is known.
fn guessed(
    alloc: Global,
    history: &[Stamped],
    sorted: &ByKind,
    pairs: Pairs,
) -> Result<Found, AllocError> {
    let Pairs { mut once, guessed } = pairs;
    for pair in &guessed {
        once.push(*pair)?;
    }
    match arranged(alloc, history, sorted, &once)? {
        Found::Order(order) => Ok(Found::Order(order)),
        Found::Reason(_) | Found::Nothing => Ok(Found::Nothing),
    }
}

// An order of the operations by these pairs, or why these have none.
fn arranged(
    alloc: Global,
    history: &[Stamped],
    sorted: &ByKind,
    pairs: &[Pair],
) -> Result<Found, AllocError> {
    let values = values_of(alloc, history, pairs, &sorted.pending)?;
    let reason = match order_of(alloc, &values.all)? {
        Ordered::All(order) => match cut(alloc, history, &values.all, &sorted.empties)? {
            Cutting::Cuts(cuts) => {
                let order = lined(alloc, history, &values.all, &order, &cuts, &sorted.refused)?;
                return Ok(Found::Order(order));
            }
            Cutting::Full(pop) => full(alloc, history, &values, &sorted.pending, pop)?,
        },
        Ordered::Clash { earlier, later } => {
            out_of_order(alloc, &values, &sorted.pending, earlier, later)?
        }
    };
    match reason {
        Some(reason) => Ok(Found::Reason(reason)),
        None => Ok(Found::Nothing),
    }
}
