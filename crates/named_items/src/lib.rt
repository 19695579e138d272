//! Items by their names: in byte order of these, and of several with one name the first alone.
//!
//! The contract of `by_name` says exactly which items those are, in which order, and that their names differ. `Named` is what has a
//! name: a text, a network, a volume, and a secret or a config that a service uses.
#![tactic(auto)]

mod distinct;
mod named;

pub use distinct::by_name;
pub use named::Named;
