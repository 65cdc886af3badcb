//! The free list of an arena, by hand and in threads; new arenas and closed ones.
mod memory;
mod rests;
mod runs;
mod threads;
