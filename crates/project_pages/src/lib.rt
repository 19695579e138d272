//! The page of a project: the node that shows it, its text as YAML and as JSON.
//!
//! `project_node` is what the page shows: the sections that aren't empty, and in each of them what
//! is declared, attribute by attribute, in the order in which the project has them. `page` and
//! `page_json` are its texts, and `service_json` is the text of a service that is hashed. Each
//! contract says by a definition on the project exactly what the call gives.
#![tactic(auto)]

mod attributes;
mod entries;
mod kept;
mod lines;
mod numbers;
mod pages;
mod rows;
mod sections;
mod texts;
mod to_node;
mod values;

pub use pages::{page, page_json, project_node, service_json};
