//! A whole run of several workers, of `up` or of `down`: what was declared is compared with what an Engine has, and the plan that
//! follows from both is carried out over one ledger by as many workers as there are hands, each in a thread of its own.
//!
//! The contract of `run_parallel` says that the journal is that of a legal run which came to its end, for the declared set and
//! anything that the Engine answers the hands, in whatever order; that the log of the hand at place w grew by exactly worker w's
//! exchanges of the journal, and that this hand looked whether to stop, read its clock and paused as the journal says of its worker,
//! and hand 0, where there is a deadline, read it before the first exchange; which fault and which report the journal has; and
//! what the Engine holds at the end, in each world of the journal.
#![tactic(auto)]

mod carrying;
mod opening;
mod ran_together;
mod whole_run;

pub use ran_together::{HandedTogether, RanTogether};
pub use whole_run::{run_parallel, run_parallel_given};
