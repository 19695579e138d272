//! The events that the Docker Engine API's `GET /events` streams, one JSON object a line, read from the pieces of its body; and what
//! the reports on a container, which events ask for, say of its goal.
//!
//! The contract of `EventReader` says that the events which it gives, and the line that it refuses, are those of all bytes that
//! it was fed: however they were cut, and however often an event was taken in between. That of `next_verdict` says that verdicts,
//! taken on report by report, are what all reports say together.
#![tactic(auto)]

mod event;
mod examples;
mod laws;
mod lines;
mod open_line;
mod reader;
mod verdicts;

pub use event::{Event, EventRefusal, LineFault};
pub use examples::{empty_object_is_bad, events_are_told};
pub use laws::{bad_lines_stay, events_stay};
pub use reader::EventReader;
pub use verdicts::next_verdict;
