//! Laws of legal journals: which entries may follow, and what holds of every one of them, whatever the workers did in which order.
//!
//! The contract of each function is one law. Together they say that a ledger which answers each ask by the definition of
//! decisions, and takes ends, stops and lates where they may come, keeps a legal journal, and that no other answer would be
//! legal.
#![tactic(auto)]

mod laws;

pub use laws::{
    calls_are_legal, decisions_are_legal, good_ends_stay, only_decisions_are_legal,
    permits_are_single, polled_slots_count, reports_are_sound,
};
