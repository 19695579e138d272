//! Trees from the lines of a text in a profile of YAML.
//!
//! `read` gives the tree that the lines spell, or the refusal of the first part that is wrong, with its exact
//! place: its contract is the definition of reading, `specs/Reading.antt`. Only want of memory is left open.
#![tactic(auto)]

mod inline;
mod node;
mod owner;
mod parts;
mod reader;

pub use reader::read;
