//! Recorded histories, each against what was worked out by hand, or found by a search.
mod answers;
mod comparisons;
mod drawn;
mod fates;
mod long_runs;
mod orders;
mod rows;
mod waiting;
