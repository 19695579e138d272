//! What a project declares of the Engine: a slot for each container, its networks and its volumes.
//!
//! The contract of `declare` says exactly the declared set of a project with what it was loaded from, of the numbers of `--scale` and
//! of the digests of its files, or the first refusal. A slot's name, labels, hashes, description and needs are each a definition of
//! their own in the crates below.
#![tactic(auto)]

mod declaring;
mod dependencies;
mod labels;
mod loaded_project;
mod origin;
mod refusal;
mod refusing;
mod services;
mod slots;

pub use declared_slots::Scale;
pub use declaring::declare;
pub use loaded_project::LoadedProject;
pub use refusal::IdentityRefusal;
pub use service_hashes::FileDigest;
