//! The start of a ledger: from an observation that ended well and its plan, all the rows that the ledger begins with, and the
//! ledger itself.
//!
//! The contract of `begin` says that its run has only its observation, and so, by what every ledger keeps to, that its rows are
//! what they have to be; `two_services_may_begin` is the law that a run with a condition may begin.
#![tactic(auto)]

mod actions;
mod beginning;
mod fixed;
mod laws;
mod outset;
mod places;
mod rows;
mod seconds;
mod started;

pub use beginning::begin;
pub use laws::two_services_may_begin;
