//! The lines of several containers' logs, in a book that threads share: each turn adds one entry, the lines of one part of one
//! container's reply.
//!
//! Contracts say which entry a call leaves by the entries so far: the lines as they were given, or an entry without lines that is
//! full, exactly where the texts of all lines would pass 268,435,456 bytes. Whether a worker may add follows from its own entries
//! alone: each container is one worker's, and has at most eight entries. No turn takes memory.
#![tactic(auto)]

mod book;
mod entries;
mod laws;
mod sizes;

pub use book::LogBook;
pub use entries::{LogAnswer, LogCall, LogEntry};
pub use laws::containers_have_one_worker;
