ghost use Rattle.std.specs.Prelude.{◌≡◌, IfOk};

use crate::resource::Pairs;
use std::alloc::Global;
use tree_base::{Copier, List, Memory, Text, TryCopy};

/// What the Engine answers.
#[derive(Drop)]
pub enum Reply {
    Containers(List<Listed>),
    State(Report),
    /// What a container has written.
    Bytes(List<u8>),
    /// The id of the container or network that was made.
    Made(Text),
    Done,
    /// The container was already started or stopped.
    Already,
    Networks(List<NetRow>),
    /// The names of the volumes.
    Volumes(List<Text>),
    ImageId(Text),
    Pulled,
    /// The message of an error inside the stream of a pull.
    PullFailed(Text),
    Refused { status: u16, message: Text },
}

impl TryCopy for Reply {
    fn copy(&self, alloc: Global) -> Result<Reply, Memory> {
        match self {
            Reply::Containers(rows) => Ok(Reply::Containers(rows.copy(alloc)?)),
            Reply::State(report) => Ok(Reply::State(*report)),
            Reply::Bytes(bytes) => Ok(Reply::Bytes(bytes.copy(alloc)?)),
            Reply::Made(id) => Ok(Reply::Made(id.copy(alloc)?)),
            Reply::Done => Ok(Reply::Done),
            Reply::Already => Ok(Reply::Already),
            Reply::Networks(rows) => Ok(Reply::Networks(rows.copy(alloc)?)),
            Reply::Volumes(names) => Ok(Reply::Volumes(names.copy(alloc)?)),
            Reply::ImageId(id) => Ok(Reply::ImageId(id.copy(alloc)?)),
            Reply::Pulled => Ok(Reply::Pulled),
            Reply::PullFailed(message) => Ok(Reply::PullFailed(message.copy(alloc)?)),
            Reply::Refused { status, message } => Ok(Reply::Refused {
                status: *status,
                message: message.copy(alloc)?,
            }),
        }
    }
}

/// A container as a listing shows it.
#[derive(Drop)]
pub struct Listed {
    pub id: Text,
    pub name: Text,
    pub image_id: Text,
    pub labels: Pairs,
    pub state: ContainerState,
    /// The names of its networks.
    pub networks: List<Text>,
}

impl TryCopy for Listed {
    fn copy(&self, alloc: Global) -> Result<Listed, Memory> {
        let mut copier = Copier::new(alloc);
        let copy = Listed {
            id: copier.text(&self.id),
            name: copier.text(&self.name),
            image_id: copier.text(&self.image_id),
            labels: copier.list(&self.labels),
            state: self.state,
            networks: copier.list(&self.networks),
        };
        copier.whole(copy)
    }
}

/// The state of a container: the Engine API's words for `State.Status`.
#[derive(Clone, Copy, PartialEq, Eq)]
pub enum ContainerState {
    Created,
    Running,
    Paused,
    Restarting,
    Removing,
    Exited,
    Dead,
}

/// The health of a container: the Engine API's words for `State.Health.Status`, `Absent` for `none` or
/// no health.
#[derive(Clone, Copy, PartialEq, Eq)]
pub enum Health {
    Absent,
    Starting,
    Healthy,
    Unhealthy,
}

/// What an inspection reports of a container.
#[derive(Clone, Copy, PartialEq, Eq)]
pub struct Report {
    pub state: ContainerState,
    pub exit_code: i64,
    pub health: Health,
}

/// A network as a listing shows it.
#[derive(Drop)]
pub struct NetRow {
    pub id: Text,
    pub name: Text,
    pub labels: Pairs,
}

impl TryCopy for NetRow {
    fn copy(&self, alloc: Global) -> Result<NetRow, Memory> {
        let mut copier = Copier::new(alloc);
        let copy = NetRow {
            id: copier.text(&self.id),
            name: copier.text(&self.name),
            labels: copier.list(&self.labels),
        };
        copier.whole(copy)
    }
}

/// An image with its id.
#[derive(Drop)]
pub struct ImageRow {
    pub name: Text,
    pub id: Text,
}

impl TryCopy for ImageRow {
    fn copy(&self, alloc: Global) -> Result<ImageRow, Memory> {
        Ok(ImageRow {
            name: self.name.copy(alloc)?,
            id: self.id.copy(alloc)?,
        })
    }
}
