ghost use Rattle.std.specs.Prelude.{◌≡◌, ◌+◌, ◌++◌, ◌∷◌, [], ◌<◌, ℕ, length, reverse};
ghost use Rattle.engine_types.specs.declared.Aim.{Aim};
ghost use Rattle.tree_base.specs.Limits.{count_bound};
ghost use Rattle.engine_types.specs.declared.Entry.{Entry};
ghost use Rattle.run_model.specs.Journals.{Watch, holding};
ghost use Rattle.run_model.specs.Legal.{IsLegal};
ghost use Rattle.run_model.specs.Plans.{IsOrderly, IsWhole, kind_of, needs_of, slot_needs};
ghost use Rattle.ledger_rows.specs.Entries.{Ending, RowsSay};
ghost use Rattle.slot_rows.specs.Slots.{AreSlots};
ghost use Rattle.ledger_ends.specs.Dependents.{AreDependents};
ghost use Rattle.ledger_ends.specs.Entries.{ending};
ghost use Rattle.ledger_ends.specs.Losses.{HasNoLosses};

use crate::turning::{turn_completed, turn_healthy};
use engine_types::Outcome;
use ledger_ends::{Dependents, Losses, RunSoFar, retire_fresh};
use ledger_rows::ActionRows;
use slot_rows::{SlotRows, reported};

/// A worker's poll of a slot ends. No memory.
pub fn end_poll(
    so_far: RunSoFar<'_>,
    rows: &mut ActionRows,
    slots: &mut SlotRows,
    losses: &mut Losses,
    dependents: &Dependents,
    worker: u32,
    slot: u32,
    outcome: &Outcome,
)
    ghost run: { Ending }
    requires same { run ≡ ending so_far worker outcome.now }
    requires legal { (aim : Aim) × IsLegal aim run.setup (reverse run.journal) }
    requires held { holding (reverse run.journal) run.worker ≡ Watch slot }
    requires orderly { IsOrderly run.setup.declared run.setup.actions }
    requires whole { IsWhole run.setup.declared }
    requires few { (a : ℕ) → length (needs_of run.setup.actions a)
        + length (slot_needs run.setup.declared (kind_of run.setup.actions a)) < count_bound }
    requires said { RowsSay run.setup run.journal rows.old }
    requires watched { AreSlots run.setup (reverse run.journal) slots.old }
    requires no_losses { HasNoLosses run.setup losses.old }
    requires dependents { AreDependents run.setup dependents.now }
    requires there { slot < length slots.old }
    ensures said { RowsSay run.setup (run.journal ++ Entry.Ended run.worker run.outcome ∷ [])
        rows.new }
    ensures watched { AreSlots run.setup (Entry.Ended run.worker run.outcome
        ∷ reverse run.journal) slots.new }
    ensures no_losses { HasNoLosses run.setup losses.new }
{
    let before = slots.row(slot);
    let after = reported(before, outcome);
    slots.set(slot, after);
    turn_healthy(rows, losses, dependents, slot, before, after);
    turn_completed(rows, losses, dependents, slot, before, after);
    let actions = so_far.plan.actions.as_slice();
    retire_fresh(slots, &mut losses.fresh, rows, so_far.declared, actions);
}
