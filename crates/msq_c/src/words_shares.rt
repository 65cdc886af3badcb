//! The queues of three words whose calls may wait, of any kind.
ghost use Rattle.msq_c.specs.WordsQueues.{TellsLength};

use crate::bounds::MsqLen;
use crate::words::MsqWords;
use node_arena::Seat;
use owned::Look;
use picked::{AnyValues, EitherQueue, EitherSeat};
use ring_queue::Seat as RingSeat;
use ring_values::RingValues;

/// A queue of three words of any kind: of nodes, or a ring.
pub type WordsQueue = EitherQueue<AnyValues<MsqWords>, RingValues<MsqWords>>;

/// A seat of one.
pub type WordsSeat = EitherSeat<Seat<MsqWords>, RingSeat<MsqWords>>;

/// A look at how many values the queue holds.
pub(crate) struct ForWordCount;

impl Look<WordsQueue> for ForWordCount {
    type Told = Option<MsqLen>;

    ghost tells = { TellsLength };

    fn look(queue: &WordsQueue, seat: &mut WordsSeat) -> Option<MsqLen> {
        match (queue, seat) {
            (EitherQueue::First(queue), EitherSeat::First(seat)) => {
                let len = queue.len(seat)?;
                Some(MsqLen {
                    least: len.least,
                    most: len.most,
                })
            }
            (EitherQueue::Second(queue), EitherSeat::Second(seat)) => {
                let len = queue.len(seat);
                Some(MsqLen {
                    least: len.least,
                    most: len.most,
                })
            }
            _ => unreachable!(),
        }
    }
}
