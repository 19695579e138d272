//! What a journal tells of the end of its run: the report, and the fault of the first entry that fails, with its exit status.
//!
//! Contracts say each exactly, by the definitions of `run_model`, for every journal: of any number of workers, with polls,
//! conditions, goals, stops and limits. All go through the journal once; the status takes no memory.
#![tactic(auto)]

mod actions;
mod asking;
mod claims;
mod conditions;
mod exit_status;
mod faults;
mod held;
mod ids;
mod lines;
mod polls;
mod reporting;
mod rows;
mod standings;
mod wanted;

pub use exit_status::status;
pub use faults::fault;
pub use reporting::report;
