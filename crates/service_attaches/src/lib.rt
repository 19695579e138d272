//! The networks that the containers of a service are on, among those that its project declares.
//!
//! The contract of `attaches` says by a definition exactly which: each network of the service by the place of its row, in the order
//! of the names, with the names that the service has there.
#![tactic(auto)]

mod places;

pub use places::attaches;
