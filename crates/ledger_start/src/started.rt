ghost use Rattle.std.specs.Prelude.{IfOk};
ghost use Rattle.ledger_start.specs.Outsets.{MayStart, start_setup};
ghost use Rattle.ledger_start.specs.Starts.{AreStarted};

use crate::actions::first_actions;
use crate::fixed::{dependents_of, no_losses};
use crate::outset::Outset;
use crate::places::places_of;
use crate::rows::{action_rows, slot_rows};
use ledger_core::Started;
use plan_rows::Row;
use start_rows::first_workers;
use std::alloc::Global;
use tree_base::Memory;

/// The rows that a ledger begins with, made from the plan. Their whole room is taken here.
pub(crate) fn started_of(alloc: Global, outset: &Outset<'_>) -> Result<Started, Memory>
    requires { MayStart outset.now }
    ensures { IfOk result (λ started.
        AreStarted (start_setup outset.now) outset.now.observed.now started) }
{
    let starts = first_actions(alloc, outset, Row::Starts)?;
    let starts = starts.as_slice();
    let workers = first_workers(alloc, outset.limits.workers)?;
    let losses = no_losses(alloc, outset)?;
    let rows = action_rows(alloc, outset, starts)?;
    let places = places_of(alloc, outset)?;
    let dependents = dependents_of(alloc, outset, starts)?;
    let healthy = dependents.healthy.asking.as_slice();
    let completed = dependents.completed.asking.as_slice();
    let slots = slot_rows(alloc, outset, starts, healthy, completed)?;
    Ok(Started {
        rows,
        slots,
        workers,
        losses,
        dependents,
        places,
    })
}
