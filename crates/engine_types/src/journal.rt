use crate::declared::Condition;
use crate::exchange::Outcome;
use crate::reply::Report;
use crate::request::Request;
use crate::seen::SeenFault;
use crate::sighting::Sighting;
use tree_base::Text;

/// An entry of a run's journal. Workers, actions and slots are named by their numbers.
#[derive(Drop)]
pub enum Entry {
    /// The observation that the run stands on.
    Seen(Sighting),
    /// The worker begins an action.
    Claim { worker: u32, action: u32 },
    /// The worker begins to ask for a report on a slot's container.
    Poll { worker: u32, slot: u32 },
    /// What came of the worker's latest claim or poll.
    Ended { worker: u32, outcome: Outcome },
    /// The worker found nothing to do yet.
    Idle { worker: u32 },
    /// The worker found nothing left to do.
    Leave { worker: u32 },
    /// The worker was asked to stop.
    Stop { worker: u32 },
    /// The worker met the deadline, or the journal is full.
    Late { worker: u32, why: LateWhy },
    /// The worker found no memory.
    Short { worker: u32 },
}

/// What was passed: the deadline, with the reading of the clock in milliseconds, or the number of entries.
#[derive(Clone, Copy, PartialEq, Eq)]
pub enum LateWhy {
    Deadline(u64),
    Entries,
}

/// What bounds a run. The deadline is in milliseconds of the hands' clock; `wait` gives each slot its goal;
/// `stop_seconds` stands in place of each container's own.
#[derive(Clone, Copy, PartialEq, Eq)]
pub struct RunLimits {
    pub workers: u32,
    pub deadline: Option<u64>,
    pub wait: bool,
    pub stop_seconds: Option<u32>,
}

/// The fault that a run ends with: that of its first failing entry.
#[derive(Drop)]
pub enum RunFault {
    Seen(SeenFault),
    Request {
        request: Request,
        outcome: Outcome,
    },
    Condition {
        slot: Text,
        condition: Condition,
        report: Report,
    },
    Stopped,
    Late(LateWhy),
    Memory,
}
