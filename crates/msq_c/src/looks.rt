//! A look at its queue by a handle.
ghost use Rattle.std.specs.Prelude.{◌≡◌};
ghost use Rattle.msq_c.specs.Looks.{TellsEmptiness, TellsLen, TellsLeft, AnswersLook, emptiness_code};

use crate::bounds::{MsqLeft, MsqLen};
use crate::handles::MsqSeat;
use crate::seat_blocks::{Queue, QueueSeat};
use crate::slots::{Slot, lift};
use crate::troubles::{EMPTY, Trouble};
use carriers::Numbers;
use history::Refusal;
use node_arena::Emptiness;
use owned::Look;
use picked::{EitherQueue, EitherSeat};
use std::alloc::Global;

/// A look at whether the queue is empty.
pub(crate) struct ForValues;

impl Look<Numbers<Queue>> for ForValues {
    type Told = Emptiness;

    ghost tells = { TellsEmptiness };

    fn look(queue: &Numbers<Queue>, seat: &mut QueueSeat) -> Emptiness {
        match (queue.queue(), seat) {
            (EitherQueue::First(queue), EitherSeat::First(seat)) => queue.emptiness(seat),
            (EitherQueue::Second(queue), EitherSeat::Second(seat)) => queue.emptiness(seat),
            _ => unreachable!(),
        }
    }
}

/// A look at how many values the queue holds.
pub(crate) struct ForLength;

impl Look<Numbers<Queue>> for ForLength {
    type Told = Option<MsqLen>;

    ghost tells = { TellsLen };

    fn look(queue: &Numbers<Queue>, seat: &mut QueueSeat) -> Option<MsqLen> {
        match (queue.queue(), seat) {
            (EitherQueue::First(queue), EitherSeat::First(seat)) => {
                let len = queue.len(seat)?;
                Some(MsqLen {
                    least: len.least,
                    most: len.most,
                })
            }
            (EitherQueue::Second(queue), EitherSeat::Second(seat)) => {
                let len = queue.len(seat);
                Some(MsqLen {
                    least: len.least,
                    most: len.most,
                })
            }
            _ => unreachable!(),
        }
    }
}

/// A look at how many pushes the queue has left.
pub(crate) struct ForPushes;

impl Look<Numbers<Queue>> for ForPushes {
    type Told = MsqLeft;

    ghost tells = { TellsLeft };

    fn look(queue: &Numbers<Queue>, seat: &mut QueueSeat) -> MsqLeft {
        match (queue.queue(), seat) {
            (EitherQueue::First(queue), EitherSeat::First(seat)) => MsqLeft::of(queue.left(seat)),
            (EitherQueue::Second(queue), EitherSeat::Second(seat)) => {
                MsqLeft::of_ring(queue.left(seat))
            }
            _ => unreachable!(),
        }
    }
}

/// A look by a handle.
pub(crate) fn look<L: Look<Numbers<Queue>>>(
    alloc: Global,
    slot: &mut MsqSeat,
) -> Result<L::Told, Trouble>
    ensures { AnswersLook L.tells slot.old slot.new result }
{
    if !slot.is_full() {
        return Err(Trouble::NoHandle);
    }
    let mut own = lift(alloc, slot);
    let told = own.look::<L>();
    *slot = MsqSeat::of(own);
    Ok(told)
}

/// The code of whether a queue is empty.
pub(crate) fn code_of_emptiness(found: Result<Emptiness, Trouble>) -> u32
    ensures { result ≡ emptiness_code found }
{
    match found {
        Ok(Emptiness::Holds) => 0,
        Ok(Emptiness::Empty) => EMPTY,
        Ok(Emptiness::ShutEmpty) => Trouble::Refused(Refusal::Closed).code(),
        Ok(Emptiness::Moved) => Trouble::Refused(Refusal::Busy).code(),
        Err(refusal) => refusal.code(),
    }
}
