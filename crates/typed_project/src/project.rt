use crate::network::Network;
use crate::service::Service;
use crate::volume::Volume;
use tree_base::{List, Text};

/// A secret or a config by its key, and the file that it is (Compose Specification, secrets, configs).
#[derive(Drop)]
pub struct FileItem {
    pub key: Text,
    pub file: Text,
}

/// A project by its name. The items of each list are in byte order of their keys, which differ (the Compose Specification,
/// its top-level elements).
#[derive(Drop)]
pub struct Project {
    pub name: Text,
    pub services: List<Service>,
    pub networks: List<Network>,
    pub volumes: List<Volume>,
    pub secrets: List<FileItem>,
    pub configs: List<FileItem>,
}
