//! Flow collections of YAML: `[ ]` and `{ }`, over several lines.
//!
//! `flow` reads the node that begins at a character of a row, in which the lines of the collection stand joined by
//! line feeds. It gives exactly the node that is spelled, or the exact place of its refusal; only want of memory is
//! left open.
#![tactic(auto)]

mod gap;
mod key;
mod node;
mod piece;
mod properties;

pub use node::flow;
