ghost use Rattle.std.specs.Prelude.{◌≡◌, ◌++◌, ◌∷◌, [], ◌<◌, length, reverse};
ghost use Rattle.engine_types.specs.declared.Entry.{Entry};
ghost use Rattle.run_model.specs.Journals.{Badly, ended_as};
ghost use Rattle.run_model.specs.Plans.{IsOrderly, IsWhole, kind_of};
ghost use Rattle.ledger_rows.specs.Entries.{Ending, IsDueTo, RowsSay};
ghost use Rattle.slot_rows.specs.Slots.{AreSlots};
ghost use Rattle.ledger_ends.specs.Dependents.{AreDependents};
ghost use Rattle.ledger_ends.specs.Entries.{ending};
ghost use Rattle.ledger_ends.specs.Losses.{HasNoLosses};

use crate::dependents::Dependents;
use crate::losses::Losses;
use crate::retiring::retire_fresh;
use crate::run_so_far::RunSoFar;
use engine_types::Outcome;
use ledger_rows::ActionRows;
use slot_rows::SlotRows;

/// A claimed action ends otherwise than well. What that blocks asks for no report any more. No memory.
pub fn end_badly(
    so_far: RunSoFar<'_>,
    rows: &mut ActionRows,
    slots: &mut SlotRows,
    losses: &mut Losses,
    dependents: &Dependents,
    worker: u32,
    action: u32,
    outcome: &Outcome,
)
    ghost run: { Ending }
    requires same { run ≡ ending so_far worker outcome.now }
    requires orderly { IsOrderly run.setup.declared run.setup.actions }
    requires whole { IsWhole run.setup.declared }
    requires said { RowsSay run.setup run.journal rows.old }
    requires watched { AreSlots run.setup (reverse run.journal) slots.old }
    requires no_losses { HasNoLosses run.setup losses.old }
    requires dependents { AreDependents run.setup dependents.now }
    requires there { action < length rows.old.states }
    requires due { IsDueTo run.setup run.journal run.worker action }
    requires bad { ended_as (kind_of run.setup.actions action) run.outcome ≡ Badly }
    ensures said { RowsSay run.setup (run.journal ++ Entry.Ended run.worker run.outcome ∷ [])
        rows.new }
    ensures watched { AreSlots run.setup (Entry.Ended run.worker run.outcome
        ∷ reverse run.journal) slots.new }
    ensures no_losses { HasNoLosses run.setup losses.new }
{
    let stopped = dependents.stopped.as_slice();
    let freed = dependents.freed.as_slice();
    ledger_rows::end_badly(
        rows,
        &mut losses.pending,
        &mut losses.fresh,
        action,
        stopped,
        freed,
    );
    let actions = so_far.plan.actions.as_slice();
    retire_fresh(slots, &mut losses.fresh, rows, so_far.declared, actions);
}
