//! The typed project: what the files of a project mean, by names and kinds, whatever form they were written in.
//!
//! A service, a network and a volume hold their attributes in a list, and give each by a method of its name, whose contract says
//! that it is the value under that name. What isn't there is None.
#![tactic(auto)]

mod host;
mod joining;
mod network;
mod process;
mod project;
mod resource;
mod running;
mod service;
mod volume;

pub use attribute_types::{AttrKind, kind_of};
pub use network::Network;
pub use project::{FileItem, Project};
pub use service::Service;
pub use volume::Volume;
