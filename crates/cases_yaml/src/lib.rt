//! The calls of the YAML reader, as cases make them: what a text spells or where it is refused, and the lines,
//! rows and scalars that it is read by.
//!
//! `inputs_of` knows the calls with their inputs beside the main one, and `answer` makes one.
#![tactic(auto)]

mod calls;
mod refusals;
mod rows;
mod scalars;
mod texts;

pub use calls::{answer, inputs_of};
