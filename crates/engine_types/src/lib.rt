//! The values that the crates of a run speak of: the Engine's messages, the Engine itself, what a project
//! declares, what an observation saw, what a run is for and what bounds it, and its journal.
//!
//! They are plain data. What is asked, answered and seen can be copied where there is memory, and its copy
//! equals it.
#![tactic(auto)]

mod aim;
mod container;
mod containers;
mod declared;
mod engine;
mod exchange;
mod faults;
mod journal;
pub mod labels;
mod options;
mod plan;
mod reply;
mod request;
mod resource;
mod seen;
mod sighting;

pub use aim::Aim;
pub use container::{
    ContainerSpec, Device, Endpoint, Healthcheck, LogConfig, PortBinding, PortBindings,
    RestartPolicy, Ulimit,
};
pub use containers::Containers;
pub use declared::{Attach, Condition, Declared, DeclaredService, Kind, Need, Policy, Slot};
pub use engine::{ContainerRow, Engine};
pub use exchange::{Exchange, Outcome, WireEnd};
pub use faults::{LogsRefusal, StreamFault};
pub use journal::{Entry, LateWhy, RunFault, RunLimits};
pub use options::RunOptions;
pub use plan::{Action, ActionKind, Plan};
pub use reply::{ContainerState, Health, ImageRow, Listed, NetRow, Reply, Report};
pub use request::Request;
pub use resource::{NetworkSpec, Pairs, VolumeSpec, label};
pub use seen::{Observed, Purpose, Seen, SeenEnd, SeenFault};
pub use sighting::Sighting;
