//! A note on volumes that a project declares and somebody else made: `down --volumes` removes them by their names.
//!
//! The contract of `volume_note` gives its text exactly, by the project's name, the names of its volumes and the body of an Engine's
//! response to `GET /volumes`.
#![tactic(auto)]

mod volumes;

pub use volumes::volume_note;
