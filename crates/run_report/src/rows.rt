ghost use Rattle.std.specs.Prelude.{◌≡◌, IfOk};
ghost use Rattle.run_report.specs.Rows.{AreRowsOf};
ghost use Rattle.run_requests.specs.Setups.{setup_of};

use crate::claims::claim_places;
use crate::wanted::{Wanted, wanted_rows};
use engine_types::Entry;
use run_requests::Run;
use std::alloc::Global;
use tree_base::Memory;

/// What is looked up of a journal for each report: where actions are claimed, and up to where conditions are wanted.
#[derive(Drop)]
pub(crate) struct Rows {
    pub(crate) claims: Vec<usize>,
    pub(crate) wanted: Vec<Wanted>,
}

impl Rows {
    pub(crate) fn of(alloc: Global, run: &Run<'_>, journal: &[Entry]) -> Result<Rows, Memory>
        ensures { IfOk result (λ rows. AreRowsOf (setup_of run.now) journal.now rows) }
    {
        let claims = claim_places(alloc, journal, run.plan.actions.len())?;
        match wanted_rows(alloc, run, claims.as_slice()) {
            Ok(wanted) => Ok(Rows { claims, wanted }),
            Err(Memory) => Err(Memory),
        }
    }
}
