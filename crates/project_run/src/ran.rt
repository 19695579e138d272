use engine_types::{Declared, Entry, RunFault, RunLimits};
use tree_base::{List, Text};

/// What came of a run: its journal, oldest entry first; its report, a line for each action that ended well; and the
/// fault of its first failing entry, None where the run went well.
#[derive(Drop)]
pub struct Ran {
    pub journal: List<Entry>,
    pub report: Text,
    pub fault: Option<RunFault>,
}

/// What came of a run, with the declared set that it was of, where that is left.
#[derive(Drop)]
pub(crate) struct Carried {
    pub ran: Ran,
    pub declared: Option<Declared>,
}

/// What came of a run, and what the same run can be made of once more: the declared set, None where memory was wanted for the run;
/// and the limits that it had.
#[derive(Drop)]
pub struct Handed {
    pub ran: Ran,
    pub declared: Option<Declared>,
    pub limits: RunLimits,
}
