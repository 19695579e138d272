//! The ledger of a run as threads share it: each turn is one call of a worker, and appends one entry under the worker's number.
//!
//! The contract of a turn says what the worker is answered and which entry that leaves, as the ledger decides at the journal so
//! far; whether a worker may make its call follows from its own entries alone; and the journal stays legal, for 1 to 16 workers.
#![tactic(auto)]

mod calls;
mod shared;

pub use calls::{LedgerAnswer, LedgerCall};
pub use shared::SharedLedger;
