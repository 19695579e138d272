//! The calls of the ground that cases make: texts, lists, maps, trees, paths, boxes and copies.
//!
//! `inputs_of` has the inputs of each call beside its main one, and `answer` makes the call of a case and puts what it
//! answered. Things that change take `steps`, each a word or a mapping of one key, as `pop` or `{push: 3}`, and say what
//! the steps `gave` and what the thing `becomes`. An input that isn't of its form is a fault of the case.
#![tactic(auto)]

mod calls;
mod case_step;
mod entries;
mod items;
mod lists;
mod maps;
mod parts;
mod paths;
mod reserved_lists;
mod texts;
mod trees;
mod values;

pub use calls::{answer, inputs_of};
pub use entries::{Entries, under_keys, variables_tree};
pub use items::Items;
pub use parts::{is_word, scalar_in};
pub use paths::path_tree;
pub use trees::tree_with_marks;
