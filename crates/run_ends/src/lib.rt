//! Laws on the end of a run: how many workers there are and in which order they act, a run that its workers left is over.
//!
//! The contract of each function is one law, of legal journals of a whole declared set whose actions can be carried out in some
//! order. Nothing in this crate runs.
#![tactic(auto)]

mod laws;

pub use laws::{
    first_leave_ends_run, last_leaves_end_runs, left_runs_are_over, runs_come_to_their_end,
};
