//! Laws of attributes and of what tables accept: above the definitions alone, so that they hold of what the program answers.
//! Nothing in this crate runs.
//!
//! A page shows each attribute so that it reads back, what is declared was accepted, and ports and mounts read back from their
//! short and their long forms.
#![tactic(auto)]

mod accepted;
mod attributes;
mod forms;

pub use accepted::{
    accepted_services_are_long, accepted_trees_are_long, accepted_trees_are_shaped,
};
pub use attributes::{
    files_read_back, named_networks_read_back, named_volumes_read_back, networks_read_back,
    services_read_back, volumes_read_back,
};
pub use forms::forms_are_free;
