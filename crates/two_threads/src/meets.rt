//! What a seat that pops knows of a push that returned before.
ghost use Rattle.std.specs.Prelude.{◌≡◌, IfOk};
ghost use Rattle.std.specs.List.{All};
ghost use Rattle.history.specs.Seats.{MayPush, MayPop};
ghost use Rattle.two_threads.specs.Duos.{HasSeenPush};

use history::{Body, Fifo, Refusal, Taken};

/// How often a call tries.
const TURNS: u32 = 8;

/// Pushes by one seat, lets it meet the other one, and pops by that: whatever other threads do meanwhile, what the pop has seen
/// has the push.
///
/// Refusals: those of `try_push` and of `try_pop`, in 8 turns each. Takes no memory and doesn't wait.
pub fn hand_over<Q: Fifo>(
    queue: &Q,
    giver: &mut Q::Seat,
    taker: &mut Q::Seat,
    body: Body,
) -> Result<Option<Taken>, Refusal>
    requires giver { Q.is_seat queue.now giver.old }
    requires taker { Q.is_seat queue.now taker.old }
    requires pushes { MayPush (Q.permits queue.now) (Q.known giver.old).number }
    requires pops { MayPop (Q.permits queue.now) (Q.known taker.old).number }
    ensures giver { Q.is_seat queue.now giver.new }
    ensures taker { Q.is_seat queue.now taker.new }
    //= callers/met: What is popped by a seat that met the pusher's after a push has been seen behind that push.
    ensures seen { IfOk result (λ taken. HasSeenPush (Q.known giver.old) body (Q.known taker.new)) }
{
    queue.try_push(giver, body, TURNS)?;
    queue.meet(giver, taker);
    queue.try_pop(taker, TURNS)
}

/// The same by the last two seats of a queue, where the one may push and the other pop; none where they may not, or are not there.
pub fn hand_over_by_last_seats<Q: Fifo>(
    queue: &Q,
    mut seats: Vec<Q::Seat>,
    body: Body,
) -> Result<Option<Taken>, Refusal>
    requires { All (Q.is_seat queue.now) seats.items }
{
    let (Some(mut taker), Some(mut giver)) = (seats.pop(), seats.pop()) else {
        return Ok(None);
    };
    if queue.may_push(&giver) && queue.may_pop(&taker) {
        return hand_over(queue, &mut giver, &mut taker, body);
    }
    Ok(None)
}
