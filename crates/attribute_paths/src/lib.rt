//! Tables that say something of attributes by their paths, a line an attribute: the definitions that the tables of merging and of
//! paths stand on, and lemmas on trees that are walked by such a table. Nothing in this crate runs.
#![tactic(auto)]

mod laws;

pub use laws::other_keys_hold_nothing;
