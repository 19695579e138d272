//! What stands on one line of a YAML text: properties, keys, aliases and scalars, and the counts of what was read.
//!
//! Each call gives exactly what its definition spells, or the exact place of its refusal; only want of memory is
//! left open. `Progress` counts nodes and bytes and keeps named nodes, `Properties` are what stands before a node,
//! and `Entries` are those of a mapping that is being read.
#![tactic(auto)]

mod added;
mod block;
mod entries;
mod key;
mod marks;
mod progress;
mod properties;
mod quotes;
mod scalar;
mod spot;

pub use block::{block_scalar, line_end};
pub use entries::{Entries, Merge, merged, new_key, no_entries, with_pair};
pub use key::{Key, key_at};
pub use marks::{
    before_colon, colon_of_key, is_colon_of, is_item, is_key, is_key_behind, is_left_out,
    is_property, is_quote, key_len, name_len, properties_len, starts,
};
pub use progress::Progress;
pub use properties::{
    Properties, Tag, carried, fault_of_key, finished, no_properties, properties_from, unspelled,
};
pub use quotes::quoted_len;
pub use scalar::{nothing, word};
pub use spot::Spot;
