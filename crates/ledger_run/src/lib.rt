//! One worker's loop over the ledger of a run: before each ask it looks whether it is to stop, and else whether the deadline
//! has come; then it makes the exchange that it is granted, pauses, or leaves.
//!
//! The contract of `work` says that the journal stays legal and ends with the worker's leave, that the hand did exactly the
//! exchanges and pauses that the journal has, and that it looked and read its clock as the journal says.
#![tactic(auto)]

mod laws;
mod turn;
mod worker;

pub use laws::steps_are_the_journals;
pub use worker::work;
