//! The values of a run as cases write them: readers from the trees of a case (what a project declares, what was seen,
//! what an Engine holds, journals, plans, faults), and what says values in words, a line each, so that a case states
//! what is wanted as a list of lines.
//!
//! A line reads back as the value that it was said of, but where the page of its function says what it leaves out.
#![tactic(auto)]

mod action;
mod declared;
mod engine;
mod entry;
mod held;
mod labels;
mod memory;
mod run_fault;
mod seen;

pub use action::{plan_lines, plan_of};
pub use declared::{declared_of, slot_of};
pub use engine::engine_of;
pub use entry::{journal_lines, journal_of};
pub use held::engine_lines;
pub use labels::pairs_at;
pub use memory::memory_engine_of;
pub use run_fault::run_fault_of;
pub use seen::{listed_of, seen_of};
