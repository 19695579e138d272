//! Laws of runs of `up` one after another, each of which may have been cut off anywhere: over all of them at most one
//! container is made for each slot, and the containers that agree with a slot are spared. They hold for any number of
//! workers.
//!
//! The functions in `laws` have empty bodies: their contracts are the laws. Runs that meet their premises are worked out in
//! `run_laws`.
#![tactic(auto)]

mod laws;

pub use laws::{
    cuts_anywhere, made_once_across_runs, made_once_after_runs, once_across_runs,
    run_spares_agreeing, runs_spare_agreeing,
};
