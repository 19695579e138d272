//! Waiting for the goals of a project's slots by the events of an Engine: each slot's container is looked at once, and again behind
//! each event of it, until all goals are met or one has failed.
//!
//! The contract of `wait_run` says which requests are made, for every stream however it is cut, what is found met, and with what the
//! wait ends (`Waits`).
#![tactic(auto)]

mod asking;
mod goals;
mod laws;
mod lines;
mod listing;
mod looking;
mod refusal;
mod slots;
mod stream;
mod tally;
mod wait;
mod waited;
mod watching;

pub use laws::{goals_are_met_once, good_ends_meet_all, more_events_only_add};
pub use lines::met_lines;
pub use refusal::WaitRefusal;
pub use wait::wait_run;
pub use waited::Waited;
