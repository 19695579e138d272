use engine_types::{Declared, Observed, Plan, RunLimits};

/// What a run begins with.
#[derive(Clone, Copy)]
pub(crate) struct Outset<'a> {
    pub declared: &'a Declared,
    pub observed: &'a Observed,
    pub plan: &'a Plan,
    pub limits: RunLimits,
}
