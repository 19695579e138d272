use engine_types::{Declared, Entry, Plan, RunLimits};

/// A run so far: what it is of, and its journal, oldest entry first.
#[derive(Clone, Copy)]
pub struct RunSoFar<'a> {
    pub declared: &'a Declared,
    pub plan: &'a Plan,
    pub limits: RunLimits,
    pub journal: &'a [Entry],
}
