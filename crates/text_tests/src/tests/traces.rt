//! Traces, each against what was worked out by hand, or against the calls of a world.
mod agreement;
mod chance;
mod rows;
mod typed;
