use crate::container::ContainerSpec;
use crate::containers::Containers;
use crate::reply::{ImageRow, NetRow, Report};
use crate::resource::Pairs;
use tree_base::{Boxed, List, Text};

/// What an Engine holds.
#[derive(Drop)]
pub struct Engine {
    pub containers: Containers,
    pub networks: List<NetRow>,
    /// The names of the volumes.
    pub volumes: List<Text>,
    pub images: List<ImageRow>,
    /// The number that the next id spells.
    pub next: u64,
}

/// A container of an Engine.
#[derive(Drop)]
pub struct ContainerRow {
    pub id: Text,
    pub name: Text,
    pub spec: Boxed<ContainerSpec>,
    pub labels: Pairs,
    pub image_id: Text,
    /// The ids of its networks.
    pub networks: List<Text>,
    pub report: Report,
    /// What it has written, as the Engine gives it.
    pub logs: List<u8>,
}
