//! The variables that texts and trees take though they are unset and nothing stands in for them.
//!
//! The contract of `put_unset` gives their names exactly, by the parts that `interpolate` reads in each text: a name alone, as `$NAME` and
//! `${NAME}`, and what the tail of a form takes where the tail itself is taken. A default, an alternative or a message stands in for the
//! variable of its own form. Each name is put once, in the order of the tree.
#![tactic(auto)]

mod part;
mod scan;
mod text;
mod tree;

pub use tree::put_unset;
