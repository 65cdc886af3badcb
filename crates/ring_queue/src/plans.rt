//! What a ring is made for.
use crate::roles::Role;
use std::marker::Model;

/// How many slots a ring has, how many values it has room for, up to which place it goes, the role of each seat, whether it
/// carries values, and whether the words of each value lie in its place, and of how many it is then, else 0.
#[derive(Drop)]
pub struct Plan {
    pub(crate) slots: u64,
    pub(crate) most: u64,
    pub(crate) limit: u64,
    pub(crate) roles: Vec<Role>,
    pub(crate) carries: bool,
    pub(crate) placed: bool,
    pub(crate) width: usize,
}

impl Model for Plan {
    ghost use Rattle.ring_queue.specs.Plans.{Layout};

    ghost Value = { Layout };

    ghost view = { λ p. record { slots = p.slots; most = p.most; limit = p.limit; roles = p.roles.items; carries = p.carries; placed = p.placed; width = p.width } };
}
