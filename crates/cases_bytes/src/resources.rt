use crate::values::{flag_if, pairs_at, pairs_if, text_if};
use case_files::{Fields, Reading};
use engine_types::{NetworkSpec, VolumeSpec};
use tree_base::Text;

/// A network with a name, and of the members that are said.
pub(crate) fn network_of(reading: &mut Reading, name: Text, fields: &Fields) -> NetworkSpec {
    NetworkSpec {
        name,
        labels: pairs_at(reading, fields, "labels"),
        driver: text_if(reading, fields, "driver"),
        internal: flag_if(reading, fields, "internal"),
        attachable: flag_if(reading, fields, "attachable"),
        enable_ipv6: flag_if(reading, fields, "enable_ipv6"),
        options: pairs_if(reading, fields, "options"),
        external: false,
    }
}

/// A volume with a name, and of the members that are said.
pub(crate) fn volume_of(reading: &mut Reading, name: Text, fields: &Fields) -> VolumeSpec {
    VolumeSpec {
        name,
        labels: pairs_at(reading, fields, "labels"),
        driver: text_if(reading, fields, "driver"),
        driver_opts: pairs_if(reading, fields, "driver_opts"),
        external: false,
    }
}
