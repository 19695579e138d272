//! The laws of what a project declares.
//!
//! The contract of each function is a law of the declared set of every project, and nothing runs: it is whole, what is sent for each
//! slot is made for that slot, and the names of its slots differ.
#![tactic(auto)]

mod laws;
mod numbers;

pub use laws::{
    declared_names_differ, declared_sets_are_whole, names_tell_slots, slots_say_their_origin,
    specs_are_their_slots, twice_is_told_of_twins, unnamed_are_not_refused,
};
pub use numbers::numbered;
