ghost use Rattle.std.specs.Prelude.{◌≡◌, ◌<◌, ℕ, true};
ghost use Rattle.engine_types.specs.declared.Aim.{Aim};
ghost use Rattle.outside_api.specs.Accounts.{AreCaused, account};
ghost use Rattle.run_model.specs.Ending.{IsRunOver};
ghost use Rattle.run_model.specs.EngineRules.{TellsSteps, exchanges_in};
ghost use Rattle.run_model.specs.Journals.{Nothing, has_left, holding};
ghost use Rattle.run_model.specs.Logs.{GrowsBy};
ghost use Rattle.run_model.specs.Plans.{IsOrderly, IsWhole};
ghost use Rattle.journal_laws.specs.Courses.{entries, setup_of};
ghost use Rattle.journal_laws.specs.Laws.{IsLegalRun};
ghost use Rattle.ledger_core.specs.Beginning.{run_of};
ghost use Rattle.ledger_run.specs.Steps.{exchanges_since, steps_since};
ghost use Rattle.ledger_run.specs.Timing.{HasRoom, IsTimed};
ghost use Rattle.ledger_run.specs.Works.{EndsByLeaving, GoesOn, HasOnlySeen};

use crate::turn::turn;
use ledger_core::Ledger;
use outside_api::Hand;
use std::alloc::Global;

/// Works on a run as its worker 0, with this hand, from the observation on until the ledger lets the worker leave. The deadline
/// is that of the run's limits, in milliseconds of the hand's clock. Before each ask the hand looks whether it is to stop, and
/// else, where there is a deadline, reads its clock. It pauses 500 ms before each poll, and 250 ms where there is nothing to
/// do yet.
pub fn work<H: Hand>(alloc: Global, ledger: &mut Ledger, hand: &mut H, deadline: Option<u64>)
    requires begun { HasOnlySeen ledger.old.journal }
    requires workers { 0 < ledger.old.limits.workers }
    requires limits { ledger.old.limits.deadline ≡ deadline }
    requires clock { HasRoom (H.clock hand.old) }
    ensures same { ledger.new ≡ run_of ledger.old.declared ledger.old.plan ledger.old.limits
        ledger.new.journal }
    ensures more { GoesOn ledger.old.journal ledger.new.journal }
    ensures legal { (aim : Aim) → IsLegalRun aim ledger.old → IsLegalRun aim ledger.new }
    ensures left { has_left (entries ledger.new) 0 ≡ true }
    ensures none_out { (w : ℕ) → holding (entries ledger.new) w ≡ Nothing }
    ensures ends { EndsByLeaving ledger.new.journal }
    ensures over { (aim : Aim) → ledger.old.limits.workers ≡ 1 → IsWhole ledger.old.declared
        → IsOrderly ledger.old.declared ledger.old.plan.actions → IsLegalRun aim ledger.old
        → IsRunOver (setup_of ledger.new) (entries ledger.new) }
    ensures log { GrowsBy (exchanges_since ledger.old ledger.new) (H.log hand.old)
        (H.log hand.new) }
    ensures told { TellsSteps (steps_since ledger.old ledger.new) (H.engine hand.old)
        (H.engine hand.new) }
    ensures steps { exchanges_in (steps_since ledger.old ledger.new)
        ≡ exchanges_since ledger.old ledger.new }
    ensures caused { AreCaused (exchanges_since ledger.old ledger.new)
        (account (H.log hand.old) (H.heard hand.old) (H.faults hand.old))
        (account (H.log hand.new) (H.heard hand.new) (H.faults hand.new)) }
    ensures timed { IsTimed deadline (entries ledger.new) (H.clock hand.old) (H.clock hand.new) }
{
    'turns: while turn(alloc, ledger, hand, deadline) {}
}
