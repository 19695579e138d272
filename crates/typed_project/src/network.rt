ghost use Rattle.std.specs.Prelude.{◌≡◌, codes};
ghost use Rattle.std.specs.Option.{option_copied};
ghost use Rattle.attribute_types.specs.Lookups.{bool_at, pairs_at, text_at};

use attribute_types::{Attribute, Pairs, bool_named, pairs_named, text_named};
use tree_base::{List, Text};

/// A network by its key, with the attributes that are there, in byte order of their names (Compose Specification, networks).
#[derive(Drop)]
pub struct Network {
    pub key: Text,
    pub attributes: List<Attribute>,
}

/// The attributes of a network.
impl Network {
    /// Whether other containers may join it. No memory.
    pub fn attachable(&self) -> Option<bool>
        ensures { result ≡ bool_at self.now.attributes (codes "attachable") }
    {
        bool_named(self.attributes.as_slice(), "attachable")
    }

    /// The driver. No memory.
    pub fn driver(&self) -> Option<&Text>
        ensures { option_copied result ≡ text_at self.now.attributes (codes "driver") }
    {
        text_named(self.attributes.as_slice(), "driver")
    }

    /// The options of the driver. No memory.
    pub fn driver_opts(&self) -> Option<&Pairs>
        ensures { option_copied result ≡ pairs_at self.now.attributes (codes "driver_opts") }
    {
        pairs_named(self.attributes.as_slice(), "driver_opts")
    }

    /// Whether it has IPv6 addresses. No memory.
    pub fn enable_ipv6(&self) -> Option<bool>
        ensures { result ≡ bool_at self.now.attributes (codes "enable_ipv6") }
    {
        bool_named(self.attributes.as_slice(), "enable_ipv6")
    }

    /// Whether it is there already, and not made. No memory.
    pub fn external(&self) -> Option<bool>
        ensures { result ≡ bool_at self.now.attributes (codes "external") }
    {
        bool_named(self.attributes.as_slice(), "external")
    }

    /// Whether it leads nowhere else. No memory.
    pub fn internal(&self) -> Option<bool>
        ensures { result ≡ bool_at self.now.attributes (codes "internal") }
    {
        bool_named(self.attributes.as_slice(), "internal")
    }

    /// The labels. No memory.
    pub fn labels(&self) -> Option<&Pairs>
        ensures { option_copied result ≡ pairs_at self.now.attributes (codes "labels") }
    {
        pairs_named(self.attributes.as_slice(), "labels")
    }

    /// The name, which is always there. No memory.
    pub fn name(&self) -> Option<&Text>
        ensures { option_copied result ≡ text_at self.now.attributes (codes "name") }
    {
        text_named(self.attributes.as_slice(), "name")
    }
}
