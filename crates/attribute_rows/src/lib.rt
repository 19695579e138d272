//! Reads the attributes of services: those that have attributes of their own (ports, mounts, secrets and configs, networks, limits,
//! logging, health checks, dependencies), and all attributes of a service together.
//!
//! The contract of `attributes_of` says which attributes a service has, in byte order of their names, or the first that is refused,
//! with its path.
#![tactic(auto)]

mod attributes;
mod entries;
mod files;
mod health;
mod mounts;
mod needs;
mod networks;
mod ports;
mod row;
mod settings;
mod texts;

pub use attributes::attributes_of;
pub use entries::{map_of, sorted_entries};
pub use row::row_value;
