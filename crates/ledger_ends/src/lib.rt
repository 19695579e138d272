//! What the entries of actions and polls do to a ledger's rows: a claim, an end that isn't good, the end of a poll. Beside the rows of
//! the actions these keep those of the slots: how many starts that are still to come ask for a report on each.
//!
//! Contracts say that after the entry the rows of actions and of slots say what the journal says with it; no call looks through the
//! journal or the actions.
#![tactic(auto)]

mod badly;
mod claiming;
mod dependents;
mod losses;
mod retiring;
mod run_so_far;
mod well;

pub use badly::end_badly;
pub use claiming::claim;
pub use dependents::{Asking, Dependents};
pub use losses::Losses;
pub use retiring::retire_fresh;
pub use run_so_far::RunSoFar;
pub use well::end_well;
