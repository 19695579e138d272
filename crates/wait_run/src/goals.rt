use engine_types::{Condition, Report};
use run_model::Verdict;
use tree_base::{List, Text, TextMap};

/// A slot's goal, and how far it is met.
#[derive(Clone, Copy)]
pub(crate) struct Goal {
    pub(crate) condition: Condition,
    pub(crate) verdict: Verdict,
}

/// A report that failed its slot's goal.
#[derive(Clone, Copy)]
pub(crate) struct Failing {
    pub(crate) slot: u32,
    pub(crate) report: Report,
}

/// The goals of all slots, in their order.
#[derive(Drop)]
pub(crate) struct Goals {
    /// The id of each slot's container.
    pub(crate) containers: List<Text>,
    pub(crate) rows: List<Goal>,
    /// The place of each container's slot under the container's id.
    pub(crate) places: TextMap<u32>,
    /// How many aren't met.
    pub(crate) left: usize,
    /// Those that were met, in the order in which they first were.
    pub(crate) met: List<u32>,
    /// The first report that failed one.
    pub(crate) failed: Option<Failing>,
}
