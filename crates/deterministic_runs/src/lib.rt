//! The law that a run of one worker has one journal over an Engine whose answers are determined, where memory isn't wanted: what
//! the Engine answers says how each exchange ends, and after how many of them the worker is asked to stop. Nothing in this
//! crate runs.
#![tactic(auto)]

mod laws;

pub use laws::{memory_is_determined, one_journal, volume_comes_up};
