//! Laws of loading: above the definitions alone, so that they hold of what the program answers. Nothing in this crate runs.
//!
//! A model that has nothing to load is its own, a file that is its long form is loaded as it stands, and a default gives what its
//! tail gives.
#![tactic(auto)]

mod defaults;
mod file_forms;
mod models;

pub use defaults::{empty_gives_tail, unset_gives_tail};
pub use file_forms::{forms_give_one_file, one_file_gives_one_model, settled_files_are_loaded};
pub use models::settled_models_are_their_files;
