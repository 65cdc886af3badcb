//! Tasks of several types, in threads.
mod counted_tasks;
mod fed;
mod left;
mod memory;
mod runs;
mod threads;
