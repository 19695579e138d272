//! The Engine's messages as cases write them: readers of requests, replies and outcomes from the words of a line, and
//! what says them in words again, so that a case states what is wanted as a list of lines.
//!
//! A line reads back as the value that it was said of, but where the page of its function says what it leaves out.
#![tactic(auto)]

mod exchange;
mod ids;
mod names;
mod reply;
mod request;
mod resource;
mod spec;

pub use exchange::{cause_of, exchange_lines, outcome_line, read_outcome, say_outcome};
pub use ids::{id_at, id_of, say_id};
pub use names::{
    code_of, condition_of, health_of, kind_of, policy_of, purpose_of, report_of, state_at,
};
pub use reply::{read_bytes, read_report, reply_line, say_report};
pub use request::{read_request, request_line};
pub use resource::{network_named, volume_named};
pub use spec::spec_of;
