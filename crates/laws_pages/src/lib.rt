//! Laws of what trees mean and of the pages of projects, as YAML and as JSON: above the definitions alone, so that they hold of
//! what the program answers. Nothing in this crate runs.
//!
//! What a tree means doesn't hang on the order of its keys. A project is what the tree of its own page means, and its page, as the
//! Compose file of a directory, is loaded as that project. The JSON of a page tells all that the page shows, and both are read as
//! one tree.
#![tactic(auto)]

mod json_nodes;
mod json_pages;
mod loaded_pages;
mod order;
mod page_words;
mod pages;
mod printed_projects;

pub use json_nodes::{json_pages_tell_nodes, json_tells_nodes, page_words_are_numbers_and_flags};
pub use json_pages::{
    json_gives_values, json_pages_mean_their_projects, printed_pages_mean_their_projects,
    project_pages_agree,
};
pub use loaded_pages::pages_are_loaded;
pub use order::order_does_not_matter;
pub use page_words::pages_are_printable;
pub use pages::pages_mean_their_projects;
pub use printed_projects::{pages_give_values, project_pages_read_back};
