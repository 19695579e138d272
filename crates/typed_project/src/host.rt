ghost use Rattle.std.specs.Prelude.{◌≡◌, codes};
ghost use Rattle.std.specs.Option.{option_copied};
ghost use Rattle.attribute_types.specs.Lookups.{bool_at, pairs_at, text_at, texts_at, ulimits_at};

use crate::service::Service;
use attribute_types::{
    Pairs, Ulimit, bool_named, pairs_named, text_named, texts_named, ulimits_named,
};
use tree_base::{List, Text};

/// What the container may do on its host.
impl Service {
    /// The capabilities that are added. No memory.
    pub fn cap_add(&self) -> Option<&List<Text>>
        ensures { option_copied result ≡ texts_at self.now.attributes (codes "cap_add") }
    {
        texts_named(self.attributes.as_slice(), "cap_add")
    }

    /// The capabilities that are dropped. No memory.
    pub fn cap_drop(&self) -> Option<&List<Text>>
        ensures { option_copied result ≡ texts_at self.now.attributes (codes "cap_drop") }
    {
        texts_named(self.attributes.as_slice(), "cap_drop")
    }

    /// The devices of the host, each as `HOST[:CONTAINER[:PERMISSIONS]]`. No memory.
    pub fn devices(&self) -> Option<&List<Text>>
        ensures { option_copied result ≡ texts_at self.now.attributes (codes "devices") }
    {
        texts_named(self.attributes.as_slice(), "devices")
    }

    /// The further groups of the user. No memory.
    pub fn group_add(&self) -> Option<&List<Text>>
        ensures { option_copied result ≡ texts_at self.now.attributes (codes "group_add") }
    {
        texts_named(self.attributes.as_slice(), "group_add")
    }

    /// The mode of inter-process communication. No memory.
    pub fn ipc(&self) -> Option<&Text>
        ensures { option_copied result ≡ text_at self.now.attributes (codes "ipc") }
    {
        text_named(self.attributes.as_slice(), "ipc")
    }

    /// The mode of process ids. No memory.
    pub fn pid(&self) -> Option<&Text>
        ensures { option_copied result ≡ text_at self.now.attributes (codes "pid") }
    {
        text_named(self.attributes.as_slice(), "pid")
    }

    /// Whether the container has all privileges. No memory.
    pub fn privileged(&self) -> Option<bool>
        ensures { result ≡ bool_at self.now.attributes (codes "privileged") }
    {
        bool_named(self.attributes.as_slice(), "privileged")
    }

    /// Whether the file system of the container is read-only. No memory.
    pub fn read_only(&self) -> Option<bool>
        ensures { result ≡ bool_at self.now.attributes (codes "read_only") }
    {
        bool_named(self.attributes.as_slice(), "read_only")
    }

    /// The options of labels and profiles. No memory.
    pub fn security_opt(&self) -> Option<&List<Text>>
        ensures { option_copied result ≡ texts_at self.now.attributes (codes "security_opt") }
    {
        texts_named(self.attributes.as_slice(), "security_opt")
    }

    /// The kernel parameters. No memory.
    pub fn sysctls(&self) -> Option<&Pairs>
        ensures { option_copied result ≡ pairs_at self.now.attributes (codes "sysctls") }
    {
        pairs_named(self.attributes.as_slice(), "sysctls")
    }

    /// The limits of the container's processes, in byte order of their keys. No memory.
    pub fn ulimits(&self) -> Option<&List<Ulimit>>
        ensures { option_copied result ≡ ulimits_at self.now.attributes (codes "ulimits") }
    {
        ulimits_named(self.attributes.as_slice(), "ulimits")
    }

    /// The mode of user ids. No memory.
    pub fn userns_mode(&self) -> Option<&Text>
        ensures { option_copied result ≡ text_at self.now.attributes (codes "userns_mode") }
    {
        text_named(self.attributes.as_slice(), "userns_mode")
    }
}
