//! The Docker Engine in memory: it answers each request of the Docker Engine API that a run makes, and
//! its containers change between requests by a script.
//!
//! Contracts say its answer to every request exactly, and that it is one that an Engine may give. A
//! request that it refuses changes nothing. It stays sound: ids and names differ, and the networks of
//! each container are there; and it never gives an id twice.
#![tactic(auto)]

mod catalogue;
mod containers;
mod creation;
mod faults;
mod ids;
mod images;
mod listing;
mod look_ups;
mod names;
mod networks;
mod refusals;
mod rows;
mod script;
mod serving;
mod state;
mod ticking;
mod volumes;

pub use catalogue::Catalogue;
pub use faults::{FaultPlan, LostAt};
pub use script::{Change, Tick};
pub use state::MemoryEngine;
