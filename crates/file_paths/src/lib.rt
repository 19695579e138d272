//! Paths of files in the text, the texts of a file's tree that are paths, and the shape that a model's tree has to
//! have.
//!
//! Which texts are paths, and which form stands where, are tables, a line an attribute. A call answers what the
//! definitions give: a path, a tree whose paths are absolute, the path to the first part of another form, or the first
//! path whose home isn't known. Only want of memory is free.
#![tactic(auto)]

mod form;
mod home;
mod kept;
mod laws;
mod path;
mod refusal;
mod resolve;
mod shape;
mod spot;
mod text;

pub use home::{all_homed, homed};
pub use laws::taken_paths_stay;
pub use path::{directory_of, joined};
pub use refusal::PathRefusal;
pub use resolve::{resolved, resolved_service};
pub use shape::shape_fault;
pub use spot::PathKind;
