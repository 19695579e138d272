//! The labels by which containers, networks and volumes are known to belong to a project: those that Docker
//! Compose writes, and one of this program's own.

ghost use Rattle.std.specs.Prelude.{◌≡◌};
ghost use Rattle.engine_types.specs.Labels.{project_label, service_label, number_label, hash_label};
ghost use Rattle.engine_types.specs.Labels.{version_label, hash_version, oneoff_label, not_oneoff};
ghost use Rattle.engine_types.specs.Labels.{network_label, volume_label};

/// The name of the project.
pub const PROJECT: &str = "com.docker.compose.project";

/// The name of the container's service.
pub const SERVICE: &str = "com.docker.compose.service";

/// The container's number among those of its service, in decimal.
pub const NUMBER: &str = "com.docker.compose.container-number";

/// The configuration's hash that the container was made with, in lower hexadecimal.
pub const HASH: &str = "com.docker.compose.config-hash";

/// The version of the hash: this program's own label.
pub const VERSION: &str = "project-engine.hash-version";

/// The value of `VERSION` for a hash that covers the contents of the files that a service uses.
pub const HASH_VERSION: &str = "2";

/// Whether the container was made for one run of a command.
pub const ONEOFF: &str = "com.docker.compose.oneoff";

/// The value of `ONEOFF` for a container that wasn't.
pub const NOT_ONEOFF: &str = "False";

/// The key of the network.
pub const NETWORK: &str = "com.docker.compose.network";

/// The key of the volume.
pub const VOLUME: &str = "com.docker.compose.volume";

/// Each constant is the text that its definition spells: a law, which does nothing when it runs.
pub fn as_defined()
    ensures project { PROJECT.now ≡ project_label }
    ensures service { SERVICE.now ≡ service_label }
    ensures number { NUMBER.now ≡ number_label }
    ensures hash { HASH.now ≡ hash_label }
    ensures version { VERSION.now ≡ version_label }
    ensures hash_version { HASH_VERSION.now ≡ hash_version }
    ensures oneoff { ONEOFF.now ≡ oneoff_label }
    ensures not_oneoff { NOT_ONEOFF.now ≡ not_oneoff }
    ensures network { NETWORK.now ≡ network_label }
    ensures volume { VOLUME.now ≡ volume_label }
{}
