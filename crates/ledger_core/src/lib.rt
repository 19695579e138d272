//! The ledger of a run: it keeps the run's journal, and rows by which an ask of a worker is decided without a look through the
//! journal or the actions: an action that is allowed, a poll of a slot that is watched, a pause, or to leave.
//!
//! Contracts say that what is decided is what the definition of legal journals decides, that each change appends exactly one
//! entry, and that the journal stays legal by any answer, for any number of workers.
#![tactic(auto)]

mod asked;
mod calls;
mod laws;
mod ledger;
mod permit;
mod places;
mod seen;
mod started;
mod step;

pub use asked::Asked;
pub use calls::{ask, end};
pub use laws::{answers_are_legal, good_ends_keep_ledgers};
pub use ledger::Ledger;
pub use permit::{Grant, Permit};
pub use places::Places;
pub use seen::first_seen;
pub use started::Started;
