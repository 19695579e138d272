ghost use Rattle.std.specs.Prelude.{◌≡◌, ◌++◌, ◌∷◌, [], ◌<◌, length, reverse, true};
ghost use Rattle.engine_types.specs.declared.Entry.{Entry};
ghost use Rattle.run_model.specs.Journals.{Nothing, holding};
ghost use Rattle.run_model.specs.Plans.{IsOrderly, IsWhole};
ghost use Rattle.ledger_rows.specs.ActionRows.{is_ready};
ghost use Rattle.ledger_rows.specs.Entries.{Page, RowsSay};
ghost use Rattle.slot_rows.specs.Slots.{AreSlots};
ghost use Rattle.ledger_ends.specs.Entries.{Claiming, claiming};

use crate::retiring::{needs_of, retire};
use crate::run_so_far::RunSoFar;
use ledger_rows::ActionRows;
use slot_rows::SlotRows;

/// A worker that holds nothing claims an action that may be claimed, which asks for no report any more. No memory.
pub fn claim(
    so_far: RunSoFar<'_>,
    rows: &mut ActionRows,
    slots: &mut SlotRows,
    worker: u32,
    action: u32,
)
    ghost run: { Claiming }
    requires same { run ≡ claiming so_far worker }
    requires orderly { IsOrderly run.setup.declared run.setup.actions }
    requires whole { IsWhole run.setup.declared }
    requires said { RowsSay run.setup run.journal rows.old }
    requires watched { AreSlots run.setup (reverse run.journal) slots.old }
    requires there { action < length rows.old.states }
    requires ready { is_ready rows.old action ≡ true }
    requires idle { holding (reverse run.journal) run.worker ≡ Nothing }
    ensures said { RowsSay run.setup (run.journal ++ Entry.Claim run.worker action ∷ []) rows.new }
    ensures watched { AreSlots run.setup (Entry.Claim run.worker action ∷ reverse run.journal)
        slots.new }
{
    ledger_rows::claim(rows, action);
    let actions = so_far.plan.actions.as_slice();
    retire(slots, needs_of(so_far.declared, actions, action));
}
