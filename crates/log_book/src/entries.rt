use log_frames::LogLine;
use tree_base::List;

/// What a worker calls in its turn.
#[derive(Drop)]
pub enum LogCall {
    /// It adds the lines of the next part of a container's reply.
    Add {
        /// The number of the container.
        container: u32,
        lines: List<LogLine>,
    },
}

/// What it is answered.
#[derive(Clone, Copy, PartialEq, Eq, Drop)]
pub enum LogAnswer {
    /// The lines stand in the book.
    Added,
    /// They would pass what a book holds: the entry has none.
    Full,
}

/// An entry of the book: the lines of one part of a container's reply.
#[derive(Drop)]
pub struct LogEntry {
    /// The number of the worker that added it.
    pub worker: u32,
    /// The number of the container.
    pub container: u32,
    /// The lines, in their order; none where the entry is full.
    pub lines: List<LogLine>,
    /// Whether the lines were left out, since the texts of all would pass what a book holds.
    pub full: bool,
}
