ghost use Rattle.std.specs.Prelude.{◌≡◌, ◌++◌, ◌∷◌, [], ◌<◌, length};
ghost use Rattle.engine_types.specs.declared.Entry.{Entry};
ghost use Rattle.engine_types.specs.declared.Outcome.{Outcome};
ghost use Rattle.run_model.specs.Journals.{Well, ended_as};
ghost use Rattle.run_model.specs.Plans.{kind_of};
ghost use Rattle.ledger_rows.specs.Entries.{GoodEnding, IsDueTo, RowsSay};
ghost use Rattle.ledger_ends.specs.Dependents.{AreDependents};
ghost use Rattle.ledger_ends.specs.Entries.{good_ending};

use crate::dependents::Dependents;
use crate::run_so_far::RunSoFar;
use engine_types::Outcome as Came;
use ledger_rows::ActionRows;

/// A claimed action ends well, which lets others go. No memory.
pub fn end_well(
    so_far: RunSoFar<'_>,
    rows: &mut ActionRows,
    dependents: &Dependents,
    worker: u32,
    action: u32,
    outcome: &Came,
)
    ghost run: { GoodEnding }
    requires same { run ≡ good_ending so_far worker outcome.now }
    requires said { RowsSay run.setup run.journal rows.old }
    requires dependents { AreDependents run.setup dependents.now }
    requires there { action < length rows.old.states }
    requires due { IsDueTo run.setup run.journal run.worker action }
    requires good { ended_as (kind_of run.setup.actions action) (Outcome.Answered run.reply)
        ≡ Well run.reply }
    ensures { RowsSay run.setup
        (run.journal ++ Entry.Ended run.worker (Outcome.Answered run.reply) ∷ []) rows.new }
{
    let released = dependents.released.as_slice();
    let at = so_far.journal.len();
    ledger_rows::end_well(rows, action, at, released[action as usize].as_slice());
}
