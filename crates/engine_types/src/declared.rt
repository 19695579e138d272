use crate::container::ContainerSpec;
use crate::resource::{NetworkSpec, VolumeSpec};
use tree_base::{Boxed, List, Text};

/// What a project declares: its slots in byte order of service, then by number, its services in byte order of
/// key, its networks and volumes in byte order of name.
#[derive(Drop)]
pub struct Declared {
    pub project: Text,
    pub slots: List<Slot>,
    /// Each service of the project once, those without a slot among them.
    pub services: List<DeclaredService>,
    pub networks: List<NetworkSpec>,
    pub volumes: List<VolumeSpec>,
}

/// What is declared of a service beside its slots.
#[derive(Drop)]
pub struct DeclaredService {
    pub key: Text,
    /// The keys of the services that it depends on, in byte order.
    pub depends_on: List<Text>,
    /// How many of its slots a rolling update replaces at a time, at least one. None where it replaces all at once.
    pub roll: Option<u32>,
}

/// A place for one container of a service.
#[derive(Drop)]
pub struct Slot {
    pub service: Text,
    /// From 1.
    pub number: u32,
    /// The container's name.
    pub name: Text,
    pub image: Text,
    pub policy: Policy,
    pub has_build: bool,
    /// The configuration's hash, in lower hexadecimal.
    pub hash: Text,
    /// The hash by which a container counts that doesn't say that its own has the version 2, in lower hexadecimal.
    pub old_hash: Text,
    pub spec: Boxed<ContainerSpec>,
    /// In order of the network's name.
    pub attach: List<Attach>,
    /// In order of the needed slot.
    pub needs: List<Need>,
    pub goal: Condition,
    /// The seconds that a stop waits before it kills.
    pub stop_seconds: u64,
}

/// A network that a slot's container is on: its place among the declared networks.
#[derive(Drop)]
pub struct Attach {
    pub network: u32,
    pub aliases: List<Text>,
}

/// What a slot's start waits for: a condition on another slot, by its place. With `restart` the slot's container
/// starts anew where the other one is replaced.
#[derive(Clone, Copy, PartialEq, Eq)]
pub struct Need {
    pub slot: u32,
    pub condition: Condition,
    pub required: bool,
    pub restart: bool,
}

/// What is asked of a container: the conditions of the Compose Specification's `depends_on`, and `Running`.
#[derive(Clone, Copy, PartialEq, Eq)]
pub enum Condition {
    Started,
    Healthy,
    Completed,
    Running,
}

/// When an image is pulled: the Compose Specification's `pull_policy`.
#[derive(Clone, Copy, PartialEq, Eq)]
pub enum Policy {
    Always,
    Missing,
    Never,
}

/// The kinds of things that a project names.
#[derive(Clone, Copy, PartialEq, Eq)]
pub enum Kind {
    Service,
    Network,
    Volume,
    Secret,
    Config,
}
