//! The environments of a model's services: what their env files give, and over it what they say themselves.
//!
//! The contract says which env files are read, in which order, and what each service has as its environment then. Want
//! of memory is free, and `ReadFault` comes only where a read failed.
#![tactic(auto)]

mod env_item;
mod environment;
mod settings;

pub use environment::with_environments;
