//! Laws of trees laid over one another: above the definition of merging alone, so that they hold of what
//! `merge_rules::overlay` and `merge_rules::overlay_onto` answer. Nothing in this crate runs.
//!
//! Three files merge the same however they are grouped, where the upper two are plain; examples show what goes wrong
//! where they aren't. And what a file doesn't speak of is as it was.
#![tactic(auto)]

mod examples;
mod grouping;
mod one_file;
mod unspoken;

pub use examples::{grown_differs, ports_are_plain, twice_differs};
pub use grouping::{plain_files_group, plain_stays, plain_trees_group, without_unique_plain};
pub use one_file::one_file_is_its_long_form;
pub use unspoken::{unspoken_stays, unspoken_stays_in_files};
