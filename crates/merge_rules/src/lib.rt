//! Trees of Compose files laid over one another (Compose Specification, "Merge").
//!
//! A call answers the tree that the definitions give, or the first refusal in the tree's order with its path. Only want
//! of memory is free.
#![tactic(auto)]

mod alone;
mod keys;
mod laws;
mod layers;
mod marks;
mod places;
mod under_extends;
mod written;

pub use laws::{files_stand, no_mark_is_left, null_leaves, trees_stand, unmarked_files_laid};
pub use layers::{overlay, overlay_onto, service_onto};
pub use under_extends::overlay_file;
