//! An Engine in memory that holds, from its beginning, what it is told to hold.
//!
//! The contract of `engine_that_holds` says exactly which Engines can be held, and that the one it gives holds this.
#![tactic(auto)]

mod holding;

pub use holding::engine_that_holds;
