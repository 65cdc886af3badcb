//! Tables of what a run did, and of the results of jobs.
#![tactic(auto)]

mod columns;
mod count_rows;
mod counts;
mod history_rows;
mod history_tables;
mod job_kinds;
mod kinds;
mod place_order;
mod result_rows;
mod result_tables;
#[cfg(test)]
mod tests;

pub use history_tables::history_table;
pub use kinds::Kind;
pub use result_tables::results_table;
