//! Laws of the worlds of a run: what an Engine holds once a run that brings a project up or takes it down has gone
//! well, in every world of its journal and for any number of workers; and the test of what an Engine holds.
//!
//! The functions in `laws` have empty bodies: their contracts are the laws. Runs that have all that the laws on
//! exactness and on `down` ask for are worked out in `run_laws`.
#![tactic(auto)]

mod exactness;
mod laws;
mod look_ups;

pub use exactness::exact;
pub use laws::{
    every_action_ended_well, exact_in_each_world, gone_in_each_world, one_worker_leaves,
    seen_is_there, told_runs_have_worlds,
};
