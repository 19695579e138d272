//! The projects of `simulate`: texts of so many services that need one another, share networks and have volumes.
//!
//! The contract of `make` gives the whole text, service by service, and which exchange of a run loses its reply.
#![tactic(auto)]

mod made;
mod sections;
mod service;

pub use made::{Made, make};
