//! The calls of the reading side that cases make: variables, the words of a command line, short forms, merging, profiles,
//! dependents, pages, and those of the ground below them.
//!
//! `inputs_of` has the inputs of each call beside its main one, and `answer` makes the call of a case and puts what it
//! answered. An input that isn't of its form is a fault of the case.
#![tactic(auto)]

mod active;
mod calls;
mod dependents;
mod env_files;
mod forms;
mod laws;
mod merging;
mod mounts;
mod options;
mod pages;
mod ports;
mod refusing;
mod variables;
mod words;

pub use calls::{answer, inputs_of};
