use engine_types::LogsRefusal;
use log_book::LogEntry;
use outside_api::Hand;
use tree_base::List;

/// What came of the logs of a project.
#[derive(Drop)]
pub struct Logged<H: Hand> {
    /// The exit status, which is that of the refusal; 0 without one.
    pub status: u8,
    pub refusal: Option<LogsRefusal>,
    /// The hands, in their order.
    pub hands: List<H>,
    /// The lines, an entry for each part of a container's reply, in the order of the workers' turns.
    pub entries: List<LogEntry>,
}
