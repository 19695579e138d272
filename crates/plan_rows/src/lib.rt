//! Rows of a plan: for each slot the action that starts it and the one that creates its container, for each network the one that
//! makes it. A ledger makes them once, and then looks no action up by going through the plan.
//!
//! The contract of `first_rows` says that each row is the definition's answer.
#![tactic(auto)]

mod action_places;
mod row;

pub use action_places::first_rows;
pub use row::Row;
