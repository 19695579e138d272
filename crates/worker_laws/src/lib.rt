//! Laws of what each of several workers did, whatever others did between: it is told by the worker's own entries.
//!
//! The contract of each function is one law of journals. Together they say that a worker which knows its own entries, and that
//! the journal is legal where it ends its last permit, knows its exchanges in the whole journal; and that no journal is long.
#![tactic(auto)]

mod laws;

pub use laws::{
    journals_are_short, others_add_nothing, own_entries_tell, requests_stay, seen_ones_suffice,
};
