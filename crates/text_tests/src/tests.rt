//! Words, lines, devices, verdicts, tables, texts and engines, each against what was typed from outside or
//! worked out by hand, and over devices that fail.
mod checks;
mod comparisons;
mod devices;
mod endings;
mod engine;
mod faults;
mod histories;
mod jobs;
mod known_runs;
mod mail;
mod names;
mod pages;
mod pictures;
mod placed_recordings;
mod points;
mod recipes;
mod recordings;
mod references;
mod schedule_faults;
mod schedules;
mod streams;
mod traces;
mod trials;
mod verdicts;
mod words;
mod written;
