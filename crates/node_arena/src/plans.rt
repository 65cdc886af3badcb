//! What an arena is made for.
use crate::roles::Role;
use std::marker::Model;
use step_machine::Setup;

/// The setup of an arena, the role of each seat, and whether it carries values.
#[derive(Drop)]
pub struct Plan {
    pub(crate) setup: Setup,
    pub(crate) roles: Vec<Role>,
    pub(crate) carries: bool,
}

impl Model for Plan {
    ghost use Rattle.node_arena.specs.Plans.{Layout};

    ghost Value = { Layout };

    ghost view = { λ p. record { setup = p.setup; roles = p.roles.items; carries = p.carries } };
}
