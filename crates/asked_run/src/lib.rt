//! What the run of a call is of: what its project declares of the Engine.
//!
//! The contract of `declared_asked` says the declared set, or the first refusal, by the project, the numbers of `--scale` and
//! the files: of a digest, or of what is declared. What it gives is whole, what is sent for each slot is made for it, slots need
//! only slots of services that their own service depends on, and nothing goes in a circle.
#![tactic(auto)]

mod declaring;
mod digests;
mod laws;

pub use declaring::declared_asked;
pub use laws::told_files_have_digests;
