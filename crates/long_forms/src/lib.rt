//! Trees of Compose files in long forms: each attribute in the one form that its short ones stand for (Compose Specification, the
//! short syntaxes).
//!
//! A call answers the tree that the definition gives, or the first refusal in the tree's order with its path. Only want
//! of memory is free.
#![tactic(auto)]

mod entries;
mod forms;
mod laws;
mod lists;
mod stay_long;
mod texts;

pub use forms::long_forms;
pub use laws::long_forms_stay;
