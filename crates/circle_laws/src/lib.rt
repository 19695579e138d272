//! Laws of circles among services: above the definitions alone, so that they hold of what the
//! program answers. Nothing in this crate runs.
//!
//! In no project that a tree means, and in none that is loaded, do services need one another in a
//! circle.
#![tactic(auto)]

mod laws;

pub use laws::{loaded_projects_have_no_circle, meant_projects_have_no_circle};
