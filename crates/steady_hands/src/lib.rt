//! Hands of workers that are never asked to stop, and of whose exchanges none is lost: those of the last run of `simulate`. One owns its
//! Engine in memory, the others share one.
//!
//! That is so of whatever was done with such a hand, as a fact of its type: each exchange of its log was answered or wanted memory,
//! and it never told its worker to stop.
#![tactic(auto)]

mod lone_hand;
mod steady_hand;

pub use lone_hand::LoneHand;
pub use steady_hand::SteadyHand;
