//! What a thread does by its seat in one queue, of any kind.
ghost use Rattle.std.specs.Prelude.{IfErr, OnOk};
ghost use Rattle.renewed_queues.specs.Deeds.{Gave, Took};

use carriers::FifoExt;
use history::{Body, Fifo, Refusal, Taken};
use std::sync::Wait;

/// Pushes the numbers from `first` on that are below `end`, up to one that is refused; that one, and why.
pub fn give<R: Wait, Q: Fifo>(
    rt: &R,
    queue: &Q,
    seat: &mut Q::Seat,
    first: u64,
    end: u64,
) -> Result<(), (u64, Refusal)>
    requires { Q.is_seat queue.now seat.old }
    ensures seat { Q.is_seat queue.now seat.new }
    //= callers/renewed_given (all, some): A seat pushes the numbers from a first one to before an end or, refused, to
    //=   before the one answered, each once and in order, and does nothing else.
    ensures all { OnOk result (Gave (Q.known seat.old) first end (Q.known seat.new)) }
    ensures some { IfErr result (λ e. Gave (Q.known seat.old) first e.0 (Q.known seat.new)) }
{
    if !queue.may_push(seat) {
        return Err((first, Refusal::BadSize));
    }
    for number in first..end {
        let Some(body) = Body::new(number) else {
            return Err((number, Refusal::BadSize));
        };
        if let Err(refusal) = queue.push(rt, seat, body) {
            return Err((number, refusal));
        }
    }
    Ok(())
}

/// Takes values until the queue is shut and empty, and puts them behind those of a list.
///
/// Refusals: `WornOut`, and `Memory`, where the last value taken is lost.
pub fn take<R: Wait, Q: Fifo>(
    rt: &R,
    queue: &Q,
    seat: &mut Q::Seat,
    values: &mut Vec<Taken>,
) -> Result<(), Refusal>
    requires { Q.is_seat queue.now seat.old }
    ensures seat { Q.is_seat queue.now seat.new }
    //= callers/renewed_taken: At Ok a seat popped just the values put behind a list, in their order, and then found its
    //=   queue shut and empty.
    ensures took { OnOk result
        (Took (Q.known seat.old) values.old.items values.new.items (Q.known seat.new)) }
{
    if !queue.may_pop(seat) {
        return Err(Refusal::BadSize);
    }
    for item in queue.iter(rt, seat) {
        let Ok(()) = values.push(item?) else {
            return Err(Refusal::Memory);
        };
    }
    Ok(())
}

/// Shuts the queue, unless another seat did so.
pub fn shut<R: Wait, Q: Fifo>(rt: &R, queue: &Q, seat: &mut Q::Seat) -> Result<(), Refusal>
    requires { Q.is_seat queue.now seat.old }
    ensures seat { Q.is_seat queue.now seat.new }
{
    if !queue.may_push(seat) {
        return Err(Refusal::BadSize);
    }
    match queue.shut(rt, seat) {
        Ok(()) | Err(Refusal::Closed) => Ok(()),
        Err(refusal) => Err(refusal),
    }
}
