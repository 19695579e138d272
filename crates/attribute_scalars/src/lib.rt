//! Reads values that have no attributes below them: scalars, lists of texts, pairs and labels, and the entries of a mapping in byte
//! order of their keys.
//!
//! The contract of each reader says which value a tree gives, or what is refused, with its path.
#![tactic(auto)]

mod entries;
mod lists;
mod refusing;
mod scalars;

pub use entries::{Entry, entries_of, in_byte_order, own_entries_of, value_among};
pub use lists::{all_formed, as_test, labels_of, mapping_in, pairs_of, texts_of};
pub use refusing::{refused, under_key, under_place};
pub use scalars::{
    bool_of, decimal_of, duration_of, has_form, has_no_colon, int_of, is_null, is_word_of, num_of,
    size_of, target_of, text_of,
};
