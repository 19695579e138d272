//! The networks and volumes that a project declares of the Engine.
//!
//! The contracts say by definitions on the project exactly the rows: in byte order of the names, those of one name one row, with
//! the labels of Docker Compose.
#![tactic(auto)]

pub mod labels;
mod rows;

pub use rows::{networks, volumes};
