//! Reads the attributes of a mapping by their table: what stands at an attribute that has no attributes of its own.
//!
//! The contract of `fields_of` says which attributes a mapping gives, in byte order of their names, or the first that is refused,
//! with its path. A value that is as good as none (null, an empty list, a flag that isn't set) is absent.
#![tactic(auto)]

mod deploy;
mod fields;
mod forms;

pub use fields::{fields_of, named, unless_wanted, with_wanting};
pub use forms::{is_bind, plain_value};
