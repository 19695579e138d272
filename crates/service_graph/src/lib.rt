//! Which service needs which: circles of services, and the services that need one.
//!
//! `dependents` and `cycle` are exact by their definitions. `specs/Cycles` says which circle is told, and `specs/Laws`
//! what that is in the words of circles, which `cycles_are_least` proves.
#![tactic(auto)]

mod circles;
mod laws;
mod links;
mod neighbours;
mod ranks;
mod ways;

pub use circles::cycle;
pub use laws::cycles_are_least;
pub use neighbours::dependents;
