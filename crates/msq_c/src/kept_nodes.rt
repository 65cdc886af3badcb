//! Whether a seat keeps its nodes.
ghost use Rattle.msq_c.specs.Keeps.{TellsKeeps, AnswersKeep};

use crate::handles::MsqSeat;
use crate::seat_blocks::{Queue, QueueSeat};
use crate::slots::{Slot, lift};
use crate::troubles::Trouble;
use carriers::Numbers;
use owned::Act;
use picked::{EitherQueue, EitherSeat};
use std::alloc::Global;

/// To keep nodes, or to keep none; of a ring, which has none, nothing.
#[derive(Drop)]
pub(crate) struct KeepsNodes {
    keeps: bool,
}

impl Act<Numbers<Queue>> for KeepsNodes {
    type Told = ();

    ghost asks = { λ _ _ _. Unit {0} };

    ghost tells = { λ act _ s _ t. TellsKeeps act.keeps s t };

    fn act(self, queue: &Numbers<Queue>, seat: &mut QueueSeat) {
        match (queue.queue(), seat) {
            (EitherQueue::First(_), EitherSeat::First(seat)) => seat.keep_nodes(self.keeps),
            (EitherQueue::Second(_), EitherSeat::Second(_)) => {}
            _ => unreachable!(),
        }
    }
}

/// Tells a seat by a handle whether to keep its nodes.
pub(crate) fn keep_nodes(alloc: Global, slot: &mut MsqSeat, keeps: bool) -> Result<(), Trouble>
    ensures { AnswersKeep slot.old slot.new keeps result }
{
    if !slot.is_full() {
        return Err(Trouble::NoHandle);
    }
    let mut own = lift(alloc, slot);
    own.act(KeepsNodes { keeps });
    *slot = MsqSeat::of(own);
    Ok(())
}
