ghost use Rattle.std.specs.Prelude.{◌≡◌, ◌∷◌, ◌≤◌, ◌<◌, [], None, Some, IfSome, reverse};
ghost use Rattle.engine_types.specs.declared.Entry.{Entry as Entered};
ghost use Rattle.engine_types.specs.declared.RunFault.{RunFault as Fault};
ghost use Rattle.journal_laws.specs.Courses.{setup_of};
ghost use Rattle.ledger_core.specs.Beginning.{MayBegin, run_of};
ghost use Rattle.ledger_run.specs.Tellings.{telling};
ghost use Rattle.ledger_run.specs.Timing.{HasRoom};
ghost use Rattle.ledger_run.specs.Works.{HasOnlySeen};
ghost use Rattle.project_run.specs.Carrying.{IsCarriedOut, IsWorked, cut_short};
ghost use Rattle.project_run.specs.Whole.{IsFault, IsReport};
ghost use Rattle.run_model.specs.Ending.{first_fault};
ghost use Rattle.run_model.specs.Lines.{report_text};

use crate::ending::end;
use crate::journals::{FirstJournal, only_seen};
use crate::ran::{Carried, Ran};
use engine_types::{Declared, Exchange, Observed, Plan, RunFault, RunLimits, SeenEnd, SeenFault};
use ledger_core::Ledger;
use ledger_run::work;
use ledger_start::begin;
use outside_api::Hand;
use std::alloc::Global;
use tree_base::{List, Text};

/// Carries a plan out that was made from an observation, and tells what came of it. Where there is no memory to begin, the
/// observation has ended for want of it, and stands in the journal that was given, which is empty and has room for it. The declared
/// set is handed back where there was memory to begin.
pub(crate) fn carry_out<H: Hand>(
    alloc: Global,
    hand: &mut H,
    declared: Declared,
    observed: Observed,
    plan: Plan,
    limits: RunLimits,
    journal: FirstJournal,
) -> Carried
    requires may { MayBegin declared observed plan limits }
    requires clock { HasRoom (H.clock hand.old) }
    requires empty { journal.items ≡ [] }
    requires room { 1 ≤ journal.spare }
    ensures carried { IsCarriedOut declared observed plan limits result.ran.journal
        (telling (H.log hand.old) (H.heard hand.old) (H.faults hand.old) (H.clock hand.old)
        (H.engine hand.old))
        (telling (H.log hand.new) (H.heard hand.new) (H.faults hand.new) (H.clock hand.new)
        (H.engine hand.new)) }
    ensures fault { IsFault (first_fault
        (setup_of (run_of declared plan limits result.ran.journal)) (reverse result.ran.journal))
        result.ran.fault }
    ensures report { IsReport (report_text
        (setup_of (run_of declared plan limits result.ran.journal)) (reverse result.ran.journal))
        result.ran.fault result.ran.report }
    ensures back { IfSome result.declared (λ same. same ≡ declared) }
    ensures lost { result.declared ≡ None → result.ran.fault ≡ Some Fault.Memory }
{
    match begin(alloc, declared, observed, plan, limits) {
        Ok(ledger) => work_through(alloc, hand, ledger, limits),
        Err(observed) => Carried {
            ran: unbegun(alloc, observed.exchanges, journal),
            declared: None,
        },
    }
}

/// Works on a run that has begun until its worker leaves.
fn work_through<H: Hand>(
    alloc: Global,
    hand: &mut H,
    mut ledger: Ledger,
    limits: RunLimits,
) -> Carried
    requires begun { HasOnlySeen ledger.journal }
    requires limits { ledger.limits ≡ limits }
    requires workers { 0 < limits.workers }
    requires clock { HasRoom (H.clock hand.old) }
    ensures worked { IsWorked ledger result.ran.journal
        (telling (H.log hand.old) (H.heard hand.old) (H.faults hand.old) (H.clock hand.old)
        (H.engine hand.old))
        (telling (H.log hand.new) (H.heard hand.new) (H.faults hand.new) (H.clock hand.new)
        (H.engine hand.new)) }
    ensures fault { IsFault (first_fault
        (setup_of (run_of ledger.declared ledger.plan limits result.ran.journal))
        (reverse result.ran.journal)) result.ran.fault }
    ensures report { IsReport (report_text
        (setup_of (run_of ledger.declared ledger.plan limits result.ran.journal))
        (reverse result.ran.journal)) result.ran.fault result.ran.report }
    ensures back { IfSome result.declared (λ same. same ≡ ledger.declared) }
    ensures kept { result.declared ≡ None → ⊥ }
{
    work(alloc, &mut ledger, hand, limits.deadline);
    let (declared, plan, journal) = ledger.finish();
    let ran = end(alloc, &declared, &plan, limits, journal);
    Carried {
        ran,
        declared: Some(declared),
    }
}

/// What came of a run that there was no memory to begin, after an observation of these exchanges. No memory.
fn unbegun(alloc: Global, exchanges: List<Exchange>, journal: FirstJournal) -> Ran
    requires empty { journal.items ≡ [] }
    requires room { 1 ≤ journal.spare }
    ensures journal { result.journal ≡ Entered.Seen (cut_short exchanges) ∷ [] }
    ensures fault { result.fault ≡ Some Fault.Memory }
    ensures report { result.report ≡ [] }
{
    let end = SeenEnd::Bad(SeenFault::Memory);
    Ran {
        journal: only_seen(Observed { exchanges, end }, journal),
        report: Text::new(alloc),
        fault: Some(RunFault::Memory),
    }
}
