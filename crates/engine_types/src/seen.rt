ghost use Rattle.std.specs.Prelude.{◌≡◌, IfOk};

use crate::declared::Kind;
use crate::exchange::{Exchange, WireEnd};
use crate::reply::{ImageRow, Listed, NetRow};
use crate::request::Request;
use std::alloc::Global;
use tree_base::{Copier, List, Memory, Text, TryCopy};

/// What an observation saw of the Engine.
#[derive(Drop)]
pub struct Seen {
    pub containers: List<Listed>,
    pub networks: List<NetRow>,
    /// The names of the volumes.
    pub volumes: List<Text>,
    pub images: List<ImageRow>,
}

impl TryCopy for Seen {
    fn copy(&self, alloc: Global) -> Result<Seen, Memory> {
        let mut copier = Copier::new(alloc);
        let copy = Seen {
            containers: copier.list(&self.containers),
            networks: copier.list(&self.networks),
            volumes: copier.list(&self.volumes),
            images: copier.list(&self.images),
        };
        copier.whole(copy)
    }
}

/// What an observation is made for.
#[derive(Debug, Clone, Copy, PartialEq, Eq)]
pub enum Purpose {
    Up,
    Down,
}

/// An observation: its exchanges in order, and how it ended.
#[derive(Drop)]
pub struct Observed {
    pub exchanges: List<Exchange>,
    pub end: SeenEnd,
}

/// How an observation ended.
#[derive(Drop)]
pub enum SeenEnd {
    Good(Seen),
    Bad(SeenFault),
}

/// Why nothing can be planned.
#[derive(Drop)]
pub enum SeenFault {
    RequestFailed {
        request: Request,
        status: u16,
        message: Text,
    },
    PullFailed {
        image: Text,
        message: Text,
    },
    Lost {
        request: Request,
        cause: WireEnd,
    },
    NotSent {
        request: Request,
    },
    NetworkTwice {
        name: Text,
        first: Text,
        second: Text,
    },
    ForeignNetwork {
        name: Text,
        id: Text,
    },
    ExternalMissing {
        kind: Kind,
        name: Text,
    },
    NeedsBuild {
        service: Text,
    },
    TooManyActions {
        count: u64,
    },
    Memory,
}

impl TryCopy for SeenFault {
    fn copy(&self, alloc: Global) -> Result<SeenFault, Memory> {
        match self {
            SeenFault::RequestFailed {
                request,
                status,
                message,
            } => Ok(SeenFault::RequestFailed {
                message: message.copy(alloc)?,
                status: *status,
                request: request.copy(alloc)?,
            }),
            SeenFault::PullFailed { image, message } => Ok(SeenFault::PullFailed {
                image: image.copy(alloc)?,
                message: message.copy(alloc)?,
            }),
            SeenFault::Lost { request, cause } => Ok(SeenFault::Lost {
                request: request.copy(alloc)?,
                cause: *cause,
            }),
            SeenFault::NotSent { request } => Ok(SeenFault::NotSent {
                request: request.copy(alloc)?,
            }),
            SeenFault::NetworkTwice {
                name,
                first,
                second,
            } => Ok(SeenFault::NetworkTwice {
                name: name.copy(alloc)?,
                first: first.copy(alloc)?,
                second: second.copy(alloc)?,
            }),
            SeenFault::ForeignNetwork { name, id } => Ok(SeenFault::ForeignNetwork {
                name: name.copy(alloc)?,
                id: id.copy(alloc)?,
            }),
            SeenFault::ExternalMissing { kind, name } => Ok(SeenFault::ExternalMissing {
                kind: *kind,
                name: name.copy(alloc)?,
            }),
            SeenFault::NeedsBuild { service } => Ok(SeenFault::NeedsBuild {
                service: service.copy(alloc)?,
            }),
            SeenFault::TooManyActions { count } => Ok(SeenFault::TooManyActions { count: *count }),
            SeenFault::Memory => Ok(SeenFault::Memory),
        }
    }
}
