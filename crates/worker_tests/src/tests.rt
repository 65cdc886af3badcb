//! Runs of workers, of letters and of tasks, with the answers worked out by hand.
mod comparisons;
mod holds;
mod jobs;
mod letters;
mod tasks;
