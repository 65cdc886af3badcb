//! What the tests of offices have in common.
use history::Refusal;
use picked::ValueQueue;
use post_office::PostOffice;
use ring_values::RingValues;
use shared_queue::{Receiver, Sender};
use std::alloc::Global;

pub type Texts = ValueQueue<String>;

pub type Ring = RingValues<String>;

/// A text.
pub fn text(alloc: Global, letters: &str) -> Result<String, Refusal> {
    format!(in alloc; "{letters}").map_err(|_| Refusal::Memory)
}

/// A list of one.
pub fn only<X: Drop>(alloc: Global, one: X) -> Result<Vec<X>, Refusal> {
    vec![in alloc; one].map_err(|_| Refusal::Memory)
}

/// A list of two.
pub fn both<X: Drop>(alloc: Global, one: X, other: X) -> Result<Vec<X>, Refusal> {
    vec![in alloc; one, other].map_err(|_| Refusal::Memory)
}

/// An office of texts with two senders and a receiver.
pub type Small<C> = (PostOffice<C>, Sender<C>, Sender<C>, Receiver<C>);

/// An office of this many places.
pub fn small(alloc: Global, places: u32) -> Result<Small<Texts>, Refusal> {
    let (office, mut senders, mut receivers) = PostOffice::<Texts>::open(alloc, places, 2, 1)?;
    match (senders.pop(), senders.pop(), receivers.pop()) {
        (Some(other), Some(one), Some(receiver)) => Ok((office, one, other, receiver)),
        _ => Err(Refusal::BadSize),
    }
}

/// The same over a ring.
pub fn small_ring(alloc: Global, places: u32) -> Result<Small<Ring>, Refusal> {
    let (office, mut senders, mut receivers) = PostOffice::<Ring>::open_ring(alloc, places, 2, 1)?;
    match (senders.pop(), senders.pop(), receivers.pop()) {
        (Some(other), Some(one), Some(receiver)) => Ok((office, one, other, receiver)),
        _ => Err(Refusal::BadSize),
    }
}
