//! What the Engine is sent of a service's container, and the networks of a service by their names.
//!
//! The contract of `container_spec` says of each field of the description which attribute gives it, and how. The definitions that it
//! cites stand in `specs/` by subject: processes, the host, numbers, networks, mounts, ports and health.
#![tactic(auto)]

mod fields;
mod health;
mod host;
mod laws;
mod lists;
mod mounts;
mod networks;
mod numbers;
mod ports;
mod process;
mod spec;

pub use laws::services_are_described_alike;
pub use networks::{JoinedNetwork, networks_by_name};
pub use spec::container_spec;
