//! The project that a merged tree means, or why it means none.
//!
//! The contract of `project_of` says which project a tree gives under a name, or the first refusal: that of the top-level
//! elements, then of what is declared, each by itself, then of names that aren't there, then of services that need one
//! another in a circle. What goes without saying is put in, and what no service uses is left out.
#![tactic(auto)]

mod attributes;
mod declared;
mod elements;
mod entries;
mod files;
mod keys;
mod names;
mod needs;
mod networks;
mod places;
mod project;
mod refusing;
mod services;
mod settled;
mod undefined;
mod used;
mod volumes;

pub use project::project_of;
