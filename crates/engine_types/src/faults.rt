use crate::exchange::{Outcome, WireEnd};
use crate::request::Request;
use tree_base::Text;

/// Why the logs of a project aren't all there. A slot is told by its container's name.
#[derive(Drop)]
pub enum LogsRefusal {
    /// The project has more than 10,000 slots. Nothing was sent.
    TooManySlots { count: u32 },
    /// The slot's container has a terminal, so that its output comes without frames.
    Terminal { slot: Text },
    /// What the slot's container wrote came in bytes that are no frames from this place on.
    Frames { slot: Text, at: u64 },
    /// The lines would pass what a book holds: some are missing.
    LogsFull,
    /// A request wasn't answered well.
    Request { request: Request, outcome: Outcome },
    /// Memory was wanted.
    Memory,
}

/// What ended the stream of an Engine's events.
#[derive(Clone, Copy, PartialEq, Eq)]
pub enum StreamFault {
    /// The Engine answered with another status than 200.
    Refused(u16),
    /// What came is no response, or the connection failed.
    Wire(WireEnd),
    /// A line is no event; `at` is the place of its first byte in the body, from 0.
    BadEvent { at: u64 },
    /// A line has more than 1,048,576 bytes.
    TooLong { at: u64 },
    /// The body ended.
    Closed,
}
