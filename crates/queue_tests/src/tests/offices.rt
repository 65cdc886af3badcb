//! Offices of letters, in one thread and in four.
mod common;
mod ends;
mod rests;
mod threads;
