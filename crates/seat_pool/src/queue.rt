//! A pool is a queue itself, whose seats are its leases.
use crate::leases::Lease;
use crate::pools::SeatPool;
use carriers::{Carrier, ItemOf, Unpushed};
use history::Refusal;

//= leases/queue: A pool of a queue that is `Send` and `Sync` meets `Carrier` itself, with its leases as seats: what each
//=   may do, what it knows and what causes a refusal are those of its seat, by the queue. So what is made over a
//=   `Carrier` can be made over a pool; what is over a `CloseCarrier` can't.
impl<C: Carrier + Send + Sync + Drop> Carrier for SeatPool<C> {
    ghost use Rattle.seat_pool.specs.Pools.{store_of, queue_in};
    ghost use Rattle.seat_pool.specs.Leases.{seat_of};
    ghost use Rattle.seat_pool.specs.Queues.{IsLeaseOf, IsLeaseOf-prop, lease_is_sound};

    type Item = C::Item;

    type Seat = Lease<C>;

    ghost is_seat = { IsLeaseOf };

    ghost permits = { λ pool. C.permits (queue_in (store_of pool)) };

    ghost known = { λ lease. C.known (seat_of lease) };

    ghost push_cause = { λ pool before after. C.push_cause (queue_in (store_of pool)) (seat_of before) (seat_of after) };

    ghost pop_cause = { λ pool before after. C.pop_cause (queue_in (store_of pool)) (seat_of before) (seat_of after) };

    ghost shut_cause = { λ pool before after. C.shut_cause (queue_in (store_of pool)) (seat_of before) (seat_of after) };

    ghost sound = { λ pool lease is. lease_is_sound C.seat_prop pool lease is C.sound };

    ghost closed_alike = { λ pool before after. C.closed_alike (queue_in (store_of pool)) (seat_of before) (seat_of after) };

    ghost seat_prop = { IsLeaseOf-prop };

    fn try_push(
        &self,
        seat: &mut Lease<C>,
        value: C::Item,
        turns: u32,
    ) -> Result<(), Unpushed<C::Item>> {
        let queue = &self.store.home.queue;
        queue.try_push(&mut seat.held.seat, value, turns)
    }

    fn try_pop(&self, seat: &mut Lease<C>, turns: u32) -> Result<Option<ItemOf<C::Item>>, Refusal> {
        let queue = &self.store.home.queue;
        queue.try_pop(&mut seat.held.seat, turns)
    }

    fn try_shut(&self, seat: &mut Lease<C>, turns: u32) -> Result<(), Refusal> {
        let queue = &self.store.home.queue;
        queue.try_shut(&mut seat.held.seat, turns)
    }

    fn meet(&self, one: &mut Lease<C>, other: &mut Lease<C>) {
        let queue = &self.store.home.queue;
        queue.meet(&mut one.held.seat, &mut other.held.seat);
    }

    fn may_push(&self, seat: &Lease<C>) -> bool {
        self.store.home.queue.may_push(&seat.held.seat)
    }

    fn may_pop(&self, seat: &Lease<C>) -> bool {
        self.store.home.queue.may_pop(&seat.held.seat)
    }
}
