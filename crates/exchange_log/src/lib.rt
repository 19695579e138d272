//! The log of a hand: every exchange that it made, in order, with the room of the next one.
//!
//! A look at a container that was answered with a report takes 40 bytes: the report, a share of the id that was looked at, and its
//! place among the other exchanges, which are kept as they are. Contracts see the list of all exchanges, and whether the next one
//! can be put without memory.
#![tactic(auto)]

mod exchange_log;
mod look;

pub use exchange_log::ExchangeLog;
pub use look::{Look, SharedId};
