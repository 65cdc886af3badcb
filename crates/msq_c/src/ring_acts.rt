//! Pushes and pops of many values at one step of a ring.
ghost use Rattle.carriers.specs.Numbers.{fifo_of};
ghost use Rattle.msq_c.specs.Batches.{AsksPush, TellsPush, AsksPop, TellsPop};

use crate::seat_blocks::{Queue, QueueSeat};
use carriers::Numbers;
use history::{Body, Refusal, Taken};
use owned::Act;
use picked::{EitherQueue, EitherSeat};

/// How many values go to a ring at one step, or come from it, at the most.
pub(crate) const AT_ONCE: usize = 32;

/// A push of the first of some bodies to a ring, as many as it takes at one step: how many.
#[derive(Drop)]
pub(crate) struct PushesBatch<'a> {
    pub(crate) bodies: &'a [Body],
    pub(crate) turns: u32,
}

impl<'a> Act<Numbers<Queue>> for PushesBatch<'a> {
    type Told = Result<usize, Refusal>;

    ghost asks = { λ act q. AsksPush act.bodies.now act.turns (fifo_of q) };

    ghost tells = { λ act q. TellsPush act.bodies.now act.turns (fifo_of q) };

    fn act(self, queue: &Numbers<Queue>, seat: &mut QueueSeat) -> Result<usize, Refusal> {
        match (queue.queue(), seat) {
            (EitherQueue::Second(ring), EitherSeat::Second(seat)) => {
                ring.try_push_all(seat, self.bodies, self.turns)
            }
            _ => unreachable!(),
        }
    }
}

/// A pop of the first values of a ring, so many at most, at one step, into an empty list with room for them: the list, and how many.
#[derive(Drop)]
pub(crate) struct PopsBatch {
    pub(crate) most: usize,
    pub(crate) into: Vec<Taken>,
    pub(crate) turns: u32,
}

impl Act<Numbers<Queue>> for PopsBatch {
    type Told = (Vec<Taken>, Result<usize, Refusal>);

    ghost asks = { λ act q. AsksPop act.most act.into act.turns (fifo_of q) };

    ghost tells = { λ act q. TellsPop act.most act.turns (fifo_of q) };

    fn act(
        self,
        queue: &Numbers<Queue>,
        seat: &mut QueueSeat,
    ) -> (Vec<Taken>, Result<usize, Refusal>) {
        let PopsBatch {
            most,
            mut into,
            turns,
        } = self;
        match (queue.queue(), seat) {
            (EitherQueue::Second(ring), EitherSeat::Second(seat)) => {
                let answer = ring.try_pop_up_to(seat, most, &mut into, turns);
                (into, answer)
            }
            _ => unreachable!(),
        }
    }
}
