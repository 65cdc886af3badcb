//! A seat, and what it stores.
use crate::roles::Role;
use crate::views::SeatToken;

/// What a thread holds in order to call a ring. It is a ring's by its calls' conditions.
#[derive(Drop)]
pub struct Seat<T = ()> {
    pub(crate) token: SeatToken<T>,
    pub(crate) number: u16,
    pub(crate) role: Role,
    // A place that Head isn't below: where the seat's last call found Head, or left it.
    pub(crate) head: u64,
    // A place that Tail isn't below: where the seat's last push or look found Tail, or left it.
    pub(crate) tail: u64,
    // The slot that it tries first for its next value, where values are carried.
    pub(crate) near: u64,
}

impl<T> Seat<T> {
    ghost use Rattle.std.specs.Prelude.{◌≡◌};
    ghost use Rattle.ring_queue.specs.Seats.{role_of};

    /// What the seat may do. Takes no memory.
    pub fn role(&self) -> Role
        //= ring/role: A seat tells what it may do.
        ensures { result ≡ role_of self.now }
    {
        self.role
    }
}
