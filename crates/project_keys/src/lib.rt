//! The project that a merged tree means, whose keys and names stand in byte order and differ.
//!
//! The contract of `keyed_project` says the project as `project_meaning` does, and that what it declares is in order: no
//! mapping of a tree has a key twice, and each reader gives what it reads in byte order. A law says that no service of a tree is
//! lost.
#![tactic(auto)]

mod keyed;
mod laws;
mod own_keys;

pub use keyed::keyed_project;
pub use laws::no_service_is_lost;
