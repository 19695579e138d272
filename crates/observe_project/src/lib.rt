//! Observes what an Engine has of a project, before anything is planned.
//!
//! `observe` lists the project's containers, and the networks and volumes where the project declares any; it
//! judges what was listed; and for `up` it looks at each image once, by its pull policy. Its contract says that
//! the exchanges are those of an observation of the declared set and end as they say, or for want of memory;
//! that the hand's log and its Engine went through exactly these exchanges; and where a lost exchange, or one
//! that wasn't sent, has its cause.
#![tactic(auto)]

mod asking;
mod fetching;
mod images;
mod judging;
mod keys;
mod listing;
mod networks;
mod observing;
mod outcomes;

pub use judging::is_up;
pub use observing::observe;
