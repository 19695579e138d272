ghost use Rattle.std.specs.Prelude.{◌≡◌, IfOk};

use crate::container::ContainerSpec;
use crate::resource::{NetworkSpec, VolumeSpec};
use std::alloc::Global;
use tree_base::{Boxed, List, Memory, Text, TryCopy};

/// What is asked of the Engine: one call of the Docker Engine API v1.43 each.
#[derive(Drop)]
pub enum Request {
    /// `GET /containers/json`, the containers of a project in every state.
    ListContainers {
        project: Text,
    },
    /// `GET /containers/{id}/json`.
    Inspect {
        id: Text,
    },
    /// `GET /containers/{id}/logs`, what a container has written.
    Logs {
        id: Text,
    },
    /// `POST /containers/create`.
    Create {
        name: Text,
        spec: Boxed<ContainerSpec>,
    },
    /// `POST /containers/{id}/start`.
    Start {
        id: Text,
    },
    /// `POST /containers/{id}/stop`, which kills after so many seconds.
    Stop {
        id: Text,
        seconds: u64,
    },
    /// `DELETE /containers/{id}`.
    Remove {
        id: Text,
    },
    /// `GET /networks`.
    ListNetworks,
    /// `POST /networks/create`.
    MakeNetwork {
        spec: NetworkSpec,
    },
    /// `POST /networks/{id}/connect`.
    Connect {
        network: Text,
        container: Text,
        aliases: List<Text>,
    },
    /// `DELETE /networks/{id}`.
    RemoveNetwork {
        id: Text,
    },
    /// `GET /volumes`.
    ListVolumes,
    /// `POST /volumes/create`.
    MakeVolume {
        spec: VolumeSpec,
    },
    /// `DELETE /volumes/{name}`.
    RemoveVolume {
        name: Text,
    },
    /// `GET /images/{name}/json`.
    Image {
        name: Text,
    },
    /// `POST /images/create`.
    Pull {
        name: Text,
    },
}

impl TryCopy for Request {
    fn copy(&self, alloc: Global) -> Result<Request, Memory> {
        match self {
            Request::ListContainers { project } => Ok(Request::ListContainers {
                project: project.copy(alloc)?,
            }),
            Request::Inspect { id } => Ok(Request::Inspect {
                id: id.copy(alloc)?,
            }),
            Request::Logs { id } => Ok(Request::Logs {
                id: id.copy(alloc)?,
            }),
            Request::Create { name, spec } => Ok(Request::Create {
                name: name.copy(alloc)?,
                spec: spec.copy(alloc)?,
            }),
            Request::Start { id } => Ok(Request::Start {
                id: id.copy(alloc)?,
            }),
            Request::Stop { id, seconds } => Ok(Request::Stop {
                id: id.copy(alloc)?,
                seconds: *seconds,
            }),
            Request::Remove { id } => Ok(Request::Remove {
                id: id.copy(alloc)?,
            }),
            Request::ListNetworks => Ok(Request::ListNetworks),
            Request::MakeNetwork { spec } => Ok(Request::MakeNetwork {
                spec: spec.copy(alloc)?,
            }),
            Request::Connect {
                network,
                container,
                aliases,
            } => Ok(Request::Connect {
                network: network.copy(alloc)?,
                container: container.copy(alloc)?,
                aliases: aliases.copy(alloc)?,
            }),
            Request::RemoveNetwork { id } => Ok(Request::RemoveNetwork {
                id: id.copy(alloc)?,
            }),
            Request::ListVolumes => Ok(Request::ListVolumes),
            Request::MakeVolume { spec } => Ok(Request::MakeVolume {
                spec: spec.copy(alloc)?,
            }),
            Request::RemoveVolume { name } => Ok(Request::RemoveVolume {
                name: name.copy(alloc)?,
            }),
            Request::Image { name } => Ok(Request::Image {
                name: name.copy(alloc)?,
            }),
            Request::Pull { name } => Ok(Request::Pull {
                name: name.copy(alloc)?,
            }),
        }
    }
}
