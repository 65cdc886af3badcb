//! The machine of a call that may wait, and the law that none of any number of them is left asleep.
#![tactic(auto)]

mod calls;
mod laws;
mod machine;
mod steps;

pub use calls::{Access, Act, Bell, Call, Code, Phase, Seen, Task};
pub use machine::{access, advance, give_up, start};
