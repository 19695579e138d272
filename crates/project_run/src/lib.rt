//! A whole run of one worker, of `up` or of `down`: what was declared is compared with what an Engine has, and the plan
//! that follows from both is carried out over a ledger, within limits.
//!
//! The contract of `run_project` says that the journal is that of a legal run which came to its end, for the declared
//! set and anything that the Engine answers; that the hand's log grew by exactly the journal's exchanges, and that the
//! hand looked whether to stop, read its clock and paused as the journal says, and where there is a deadline read it before
//! the first exchange; which fault and which report the journal has; that `up` removes no container that a slot keeps, and
//! stops none but to start it anew; and what the Engine holds at the end.
#![tactic(auto)]

mod carrying;
mod ending;
mod journals;
mod laws;
mod opening;
mod options;
mod ran;
mod whole_run;

pub use ending::{end, ended};
pub use journals::{FirstJournal, first_journal, only_seen};
pub use laws::runs_spare_kept;
pub use opening::{Opening, open};
pub use options::{bounded, limits_for, unread_limits};
pub use ran::{Handed, Ran};
pub use whole_run::{run_given, run_project};
