//! The end of a poll in a ledger's rows. A report turns the verdicts on a slot: where it meets a condition, the starts that ask for it
//! are let go, and where it fails one, those that require it are blocked, with whatever that blocks in turn.
//!
//! The contract of `end_poll` says that the rows of actions and of slots then say what the journal says with the poll's end. No
//! look through the journal or the actions.
#![tactic(auto)]

mod polling;
mod turning;

pub use polling::end_poll;
