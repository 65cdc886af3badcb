//! What a world is led through, and what is seen of it.
mod answers;
mod benches;
mod comparisons;
mod events;
mod expected;
mod long_runs;
mod memory;
mod moves;
mod places;
mod queries;
mod shuts;
mod sizes;
mod touches;
mod trials;
mod two_worlds;
mod words;
