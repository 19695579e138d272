//! A row of places of which some have a key, and the place that has the least key, found without a scan.
//!
//! Contracts say that a place gets exactly the key that it is given, and that `first` is the first of the places whose key no
//! other place's is below. `put` takes no memory, and its work grows with the logarithm of the row.
#![tactic(auto)]

mod rank_row;

pub use rank_row::{Rank, RankRow};
