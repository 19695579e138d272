//! What a call loaded, once more, of the files that were kept of it: the project for what is noted of it behind the call, and the variables
//! that its Compose files take though they are unset.
//!
//! Each answers None where what was kept gives nothing. What they answer stands in no contract: notes are tested by cases of whole calls.
#![tactic(auto)]

mod again;
mod unset;

pub use again::{LoadedAgain, load_again, project_again, services_in};
pub use unset::unset_names;
