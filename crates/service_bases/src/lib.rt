//! The services of a model over all that they extend, in their own file and in others.
//!
//! A chain is followed from a service to its last base, with a refusal that names all services that extend one another,
//! and then laid from its end up by the rules of merging. Where chains stay in one file, each service is laid once. The contract says which files are read for it, in which
//! order, and what follows what is seen there. Want of memory is free, and `ReadFault` comes only where a read failed.
#![tactic(auto)]

mod base;
mod chain;
mod extending;
mod known;
mod laid;
mod laws;
mod source;

pub use extending::services_extended;
pub use laws::{chains_lay_in_parts, empty_bases_add_nothing, two_are_one};
