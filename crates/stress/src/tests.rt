//! Threads over every front door, and the free list below: each value comes once, in order and whole. Calls of each queue beside the
//! machine's, and points beside a search of all orders.
mod arenas;
mod chance;
mod ends;
mod feeds;
mod leases;
mod letters;
mod lockstep;
mod placements;
mod queues;
mod runs;
mod shuts;
mod threads;
mod values;
