use attribute_types::Attribute;
use tree_base::{List, Text};

/// A service by its key, with the attributes that are there, in byte order of their names (Compose Specification, services).
/// Each has a method of its name.
#[derive(Drop)]
pub struct Service {
    pub key: Text,
    pub attributes: List<Attribute>,
}
