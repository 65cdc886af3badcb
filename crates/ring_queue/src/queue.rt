//! The queue: its table, and what it was made for.
ghost use Rattle.ring_queue.specs.Plans.{IsTable};
ghost use Rattle.ring_queue.specs.Laid.{IsTable-prop};

use crate::plans::Plan;
use crate::views::WordTable;

/// A bounded queue on a ring of words. Threads share it by reference, each with a seat of its own.
#[derive(Drop)]
pub struct RingQueue<T = ()> {
    pub(crate) table: WordTable<T>,
    pub(crate) plan: Plan,
    ghost laid: { IsTable plan table.shared.key table.shared.table_id } by { IsTable-prop plan table.shared.key table.shared.table_id },
}
