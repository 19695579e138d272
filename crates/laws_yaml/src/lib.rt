//! Laws of texts in the YAML profile: above the definitions of reading and of pages alone, so that they hold of what
//! `yaml_tree::read` gives and of what `project_print` writes. Nothing in this crate runs.
//!
//! Mappings and sequences read back entry by entry, blank lines and comments change nothing, and the page of a node, its flow on
//! one line and its JSON are all read as its tree.
#![tactic(auto)]

mod blank_lines;
mod collections;
mod flow_trees;
mod json_trees;
mod node_pages;
mod printed_pages;
mod text_pages;

pub use blank_lines::blank_lines_change_nothing;
pub use collections::{mappings_read_back, sequences_read_back, trees_are_within_limits};
pub use flow_trees::{
    blocks_and_flows_agree, flows_read_back, printed_blocks_and_flows_agree,
    printed_flows_read_back,
};
pub use json_trees::{json_reads_back, pages_and_json_agree, printed_json_reads_back};
pub use node_pages::pages_read_back;
pub use printed_pages::printed_pages_read_back;
pub use text_pages::text_pages_read_back;
