//! Letters that are taken as they come, each the next one of its task.
ghost use Rattle.std.specs.Prelude.{◌≡◌, ◌<◌, ◌≤◌, true, false, [], length, get_or, replicate, vec_capacity, IfOk, IfErr};
ghost use Rattle.mailbox.specs.Deliveries.{InOrder};
ghost use Rattle.mailbox.specs.Offices.{IsReceiver, receiver_knows};
ghost use Rattle.mailbox.specs.Posts.{IsNext, IsNotNext, AreThoseDue, Delivered};
ghost use Rattle.mailbox.specs.Refusals.{EndsTaking};
ghost use Rattle.mailbox.specs.Causes.{TookAllThere, TookUntil};

use crate::ends::{AllEnded, EndCounter};
use crate::office::Office;
use crate::parcels::Due;
use crate::receiver::{Letter, Receiver};
use history::{Fifo, Refusal};
use std::sync::Wait;

// Whether a letter of this sender is the next one of its task, so many of each being there already; it is then counted. The
// sender of task 0 is number 1, and so on.
fn is_next(counts: &mut [usize], from: u16, due: Due) -> bool
    requires few { due.task < length counts.old
        → get_or counts.old due.task 0 < 18446744073709551615 }
    ensures next { result ≡ true → IsNext counts.old from due counts.new }
    ensures other { result ≡ false → IsNotNext counts.old from due }
{
    let Due { task, place } = due;
    if task >= counts.len() || usize::from(from) != task + 1 || counts[task] != place {
        return false;
    }
    counts[task] = place + 1;
    true
}

/// Takes letters until so many are there, until the queue is shut and empty, or until all senders had ended before there was
/// none. There is a count for each sender.
pub(crate) fn take_all<'a, R: Wait, Q: Fifo + Drop>(
    rt: &R,
    office: &'a Office<Q>,
    receiver: &mut Receiver<Q>,
    mut letters: Vec<Letter<'a>>,
    due: usize,
    mut counts: Vec<usize>,
    ended: &EndCounter,
) -> Result<Vec<Letter<'a>>, Refusal>
    requires office { IsReceiver Q.is_seat Q.permits Q.known office.now receiver.old }
    requires none { letters.items ≡ [] }
    requires room { due ≤ vec_capacity letters }
    requires zero { counts.items ≡ replicate (length counts.items) 0 }
    ensures office { IsReceiver Q.is_seat Q.permits Q.known office.now receiver.new }
    ensures order { InOrder (receiver_knows Q.known receiver.new) }
    ensures delivered { IfOk result (λ v. Delivered Q.known receiver.old v.items receiver.new) }
    ensures most { IfOk result (λ v. length v.items ≤ due) }
    ensures short { IfOk result (λ v. length v.items < due
        → TookAllThere Q.known receiver.old v.items receiver.new) }
    ensures texts { IfOk result (λ v. AreThoseDue office.now (length counts.items) v.items) }
    ensures refusal { IfErr result EndsTaking }
    ensures refused { IfErr result (λ refusal. TookUntil Q.known office.now (length counts.items)
        receiver.old refusal receiver.new) }
{
    let until = AllEnded { counter: ended };
    for _ in rt.forever() {
        if letters.len() >= due {
            return Ok(letters);
        }
        match receiver.recv_until(rt, office, &until) {
            Ok(Some(letter)) => {
                let Some(place) = receiver.last_due(office) else {
                    return Err(Refusal::Lost);
                };
                if !is_next(&mut counts, letter.from, place) {
                    return Err(Refusal::Lost);
                }
                letters.push_reserved(letter);
            }
            Ok(None) => return Ok(letters),
            Err(Refusal::Closed) => return Ok(letters),
            Err(refusal) => return Err(refusal),
        }
    }
    unreachable!()
}
