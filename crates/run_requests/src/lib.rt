//! The requests of a run, of an action and of a poll, made here and nowhere else: for the worker that sends them, and for the
//! line of a refusal that names one. What is declared and seen says most of them; the containers that slots keep, how long
//! stops wait, and the ids that creates and makes told come from a look-up that the caller brings.
//!
//! The contracts of `request_of` and `poll_of` say that each is the defined request over that look-up. Over one that tells what
//! a journal tells it is the request of `run_model`'s definitions.
#![tactic(auto)]

mod ids;
mod requests;
mod run;
mod seconds;
mod told;

pub use requests::{poll_of, request_of};
pub use run::Run;
pub use seconds::stop_seconds;
pub use told::ToldIds;
