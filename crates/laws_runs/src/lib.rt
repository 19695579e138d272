//! Laws of runs that begin: above the definitions and the ledger's contracts, so that they hold of what it answers. Nothing in
//! this crate runs.
//!
//! A run of a declared set may begin, and what is granted has a request.
#![tactic(auto)]

mod beginnings;
mod grants;

pub use beginnings::{
    begun_grants_have_requests, begun_runs_end, begun_runs_have_plans, runs_may_begin,
};
pub use grants::grants_have_requests;
