//! The normal form of a project: its name, and what its active services and their tree declare, taken from what was
//! loaded.
//!
//! The contract of `project_of` says which project a loaded tree gives by the name of `-p` and by profiles, or the first
//! refusal: that of the name, then of the active services, then of what the tree declares. A law says that a name that a call gives is the project's.
#![tactic(auto)]

mod directory;
mod laws;
mod loaded;
mod name;

pub use laws::given_names_win;
pub use loaded::project_of;
pub use name::project_name;
