//! The bodies of the requests to the Docker Engine API v1.43, as JSON (RFC 8259), and the bytes of the requests with them.
//!
//! `body_of` is exact by tables of members: the name of each, and the field that gives it. Its text is read back as
//! that value, by what `serde_json` reads. Want of memory is the one refusal.
#![tactic(auto)]

mod bodies;
mod containers;
mod hosts;
mod mappings;
mod objects;
mod resources;
mod rows;
mod values;

pub use bodies::{body_of, request_bytes};
