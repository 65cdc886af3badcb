//! Runs of letters.
mod both_runs;
mod drawn;
mod letters;
mod listed_runs;
mod losses;
mod plans;
mod refusals;
mod shut_offices;
mod sleepers;
mod texts;
