use engine_types::{Declared, RunLimits};
use outside_api::Hand;
use project_run::Ran;
use tree_base::List;

/// What came of a run of several workers, and their hands in the order in which they were given.
#[derive(Drop)]
pub struct RanTogether<H: Hand> {
    pub ran: Ran,
    pub hands: List<H>,
}

/// The same with the declared set that it was of, where that is left.
#[derive(Drop)]
pub(crate) struct CarriedTogether<H: Hand> {
    pub ran: Ran,
    pub hands: List<H>,
    pub declared: Option<Declared>,
}

/// What came of a run of several workers, their hands in the order in which they were given, and what the same run can be made of once
/// more: the declared set, None where memory was wanted for the run; and the limits that it had.
#[derive(Drop)]
pub struct HandedTogether<H: Hand> {
    pub ran: Ran,
    pub hands: List<H>,
    pub declared: Option<Declared>,
    pub limits: RunLimits,
}
