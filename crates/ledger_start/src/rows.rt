ghost use Rattle.std.specs.Prelude.{◌≡◌, ◌∷◌, ◌<◌, [], IfOk, length};
ghost use Rattle.tree_base.specs.Limits.{count_bound};
ghost use Rattle.engine_types.specs.declared.Condition.{Condition};
ghost use Rattle.engine_types.specs.declared.Entry.{Entry};
ghost use Rattle.ledger_rows.specs.Entries.{RowsSay};
ghost use Rattle.plan_needs.specs.Laws.{AreStarts};
ghost use Rattle.slot_rows.specs.Slots.{AreSlots};
ghost use Rattle.start_rows.specs.Asks.{AreAskingRows};
ghost use Rattle.start_rows.specs.declared.ask.Ask.{Ask};
ghost use Rattle.ledger_start.specs.Outsets.{HasFewNeeds, MayStart, start_setup};

use crate::outset::Outset;
use ledger_rows::ActionRows;
use slot_rows::SlotRows;
use start_rows::{first_lacks, first_slots};
use std::alloc::Global;
use tree_base::{List, Memory};

/// The first rows of the actions.
pub(crate) fn action_rows(
    alloc: Global,
    outset: &Outset<'_>,
    starts: &[Option<u32>],
) -> Result<ActionRows, Memory>
    requires may { MayStart outset.now }
    requires starts { AreStarts (start_setup outset.now) starts.now }
    ensures said { IfOk result (λ rows.
        RowsSay (start_setup outset.now) (Entry.Seen outset.now.observed.now ∷ []) rows) }
    ensures few { IfOk result (λ rows. HasFewNeeds (start_setup outset.now)) }
{
    let actions = outset.plan.actions.as_slice();
    let lacks = first_lacks(alloc, outset.declared, actions, starts)?;
    let rows = ActionRows::new(alloc, lacks)?;
    Ok(rows)
}

/// The first rows of the slots.
pub(crate) fn slot_rows(
    alloc: Global,
    outset: &Outset<'_>,
    starts: &[Option<u32>],
    healthy: &[List<u32>],
    completed: &[List<u32>],
) -> Result<SlotRows, Memory>
    requires may { MayStart outset.now }
    requires starts { AreStarts (start_setup outset.now) starts.now }
    requires starts_size { length starts.now ≡ length outset.now.declared.now.slots }
    requires few { length starts.now < count_bound }
    requires healthy_size { length healthy.now ≡ length outset.now.declared.now.slots }
    requires healthy { AreAskingRows Ask.Any Condition.Healthy (start_setup outset.now)
        healthy.now }
    requires completed_size { length completed.now ≡ length outset.now.declared.now.slots }
    requires completed { AreAskingRows Ask.Any Condition.Completed (start_setup outset.now)
        completed.now }
    ensures { IfOk result (λ slots.
        AreSlots (start_setup outset.now) (Entry.Seen outset.now.observed.now ∷ []) slots) }
{
    let wait = outset.limits.wait;
    let rows = first_slots(alloc, outset.declared, starts, healthy, completed, wait)?;
    let slots = SlotRows::new(alloc, rows)?;
    Ok(slots)
}
