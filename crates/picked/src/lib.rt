//! Queues of numbers and of values, whose kind or split is picked as they are made.
#![tactic(auto)]

mod any;
mod either;
mod either_seats;
mod either_values;
mod forwards;
mod kind_values;
mod picked;
mod splits;
mod value_calls;
mod values;

pub use any::{AnyQueue, AnyQueueOf};
pub use either::{EitherQueue, EitherSeat};
pub use either_seats::{EitherEnd, EitherRoom};
pub use kind_values::AnyValues;
pub use picked::PickedQueue;
pub use splits::bits_for;
pub use values::{SplitOf, TwoLockValues, ValueQueue};
