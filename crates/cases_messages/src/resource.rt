use engine_types::{NetworkSpec, Pairs, VolumeSpec};
use tree_base::Text;

/// A network with a name and labels. No memory.
pub fn network_named(name: Text, labels: Pairs, external: bool) -> NetworkSpec {
    NetworkSpec {
        name,
        labels,
        driver: None,
        internal: None,
        attachable: None,
        enable_ipv6: None,
        options: None,
        external,
    }
}

/// A volume with a name and labels. No memory.
pub fn volume_named(name: Text, labels: Pairs, external: bool) -> VolumeSpec {
    VolumeSpec {
        name,
        labels,
        driver: None,
        driver_opts: None,
        external,
    }
}
