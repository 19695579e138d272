//! The requests of a ledger's grants: of an action, and of a poll. What they name is found without a search: the container that
//! a slot keeps by the plan's places, the ids that creates and makes were told by the rows of actions, and how long a stop waits
//! by a row of seconds.
//!
//! Contracts say that each is the request that the definitions make by what the journal told so far.
#![tactic(auto)]

mod ids;
mod requests;
mod sources;

pub use requests::{action_request, poll_request};
pub use sources::Sources;
