ghost use Rattle.std.specs.Prelude.{◌≡◌, ◌∷◌, ◌≤◌, ◌<◌, ◌⊎◌, [], All, None, Some, IfSome, length, reverse};
ghost use Rattle.engine_types.specs.declared.Entry.{Entry as Entered};
ghost use Rattle.engine_types.specs.declared.RunFault.{RunFault as Fault};
ghost use Rattle.journal_laws.specs.Courses.{setup_of};
ghost use Rattle.ledger_core.specs.Beginning.{MayBegin, run_of};
ghost use Rattle.ledger_run.specs.Tellings.{telling};
ghost use Rattle.ledger_run.specs.Timing.{HasRoom};
ghost use Rattle.ledger_run.specs.Works.{HasOnlySeen};
ghost use Rattle.ledger_turns.specs.Calls.{IsOpen};
ghost use Rattle.parallel_run.specs.Together.{AreCarriedOut, IsUnbegun, IsWorkedOn};
ghost use Rattle.project_run.specs.Carrying.{cut_short};
ghost use Rattle.project_run.specs.Whole.{IsFault, IsReport};
ghost use Rattle.run_model.specs.Ending.{first_fault};
ghost use Rattle.run_model.specs.Lines.{report_text};

use crate::ran_together::CarriedTogether;
use engine_types::{
    Declared, Entry, Exchange, Observed, Plan, RunFault, RunLimits, SeenEnd, SeenFault,
};
use ledger_core::Ledger;
use ledger_start::begin;
use outside_api::Hand;
use project_run::{FirstJournal, Ran, end, only_seen};
use std::alloc::Global;
use std::sync::Wait;
use std::thread::Threads;
use tree_base::{List, Text};
use worker_pool::{Together, work_together};

/// Carries a plan out that was made from an observation, with a worker for each hand, and tells what came of it. Where there is no
/// memory to begin, the observation has ended for want of it, and stands in the journal that was given, which is empty and has room
/// for it. The declared set is handed back where there was memory to begin.
pub(crate) fn carry_out<R: Threads + Wait + Sync, H: Hand + Send>(
    alloc: Global,
    rt: &R,
    hands: List<H>,
    declared: Declared,
    observed: Observed,
    plan: Plan,
    limits: RunLimits,
    journal: FirstJournal,
) -> CarriedTogether<H>
    requires may { MayBegin declared observed plan limits }
    requires some { 0 < length hands }
    requires workers { limits.workers ≡ length hands }
    requires clocks { All (λ h. HasRoom (H.clock h)) hands }
    requires empty { journal.items ≡ [] }
    requires room { 1 ≤ journal.spare }
    ensures carried { AreCarriedOut (λ h. telling (H.log h) (H.heard h) (H.faults h) (H.clock h)
        (H.engine h)) declared observed plan limits result.ran.journal hands result.hands }
    ensures back { IfSome result.declared (λ same. same ≡ declared) }
    ensures lost { result.declared ≡ None → result.ran.fault ≡ Some Fault.Memory }
    ensures fault { IsFault (first_fault
        (setup_of (run_of declared plan limits result.ran.journal)) (reverse result.ran.journal))
        result.ran.fault }
    ensures report { IsReport (report_text
        (setup_of (run_of declared plan limits result.ran.journal)) (reverse result.ran.journal))
        result.ran.fault result.ran.report }
{
    match begin(alloc, declared, observed, plan, limits) {
        Ok(ledger) => work_through(alloc, rt, hands, ledger, limits, journal),
        Err(observed) => CarriedTogether {
            ran: unbegun(alloc, observed.exchanges, journal),
            hands,
            declared: None,
        },
    }
}

/// Works on a run that has begun until its workers leave.
fn work_through<R: Threads + Wait + Sync, H: Hand + Send>(
    alloc: Global,
    rt: &R,
    hands: List<H>,
    ledger: Ledger,
    limits: RunLimits,
    journal: FirstJournal,
) -> CarriedTogether<H>
    requires begun { HasOnlySeen ledger.journal }
    requires open_run { IsOpen ledger }
    requires limits { ledger.limits ≡ limits }
    requires some { 0 < length hands }
    requires workers { limits.workers ≡ length hands }
    requires clocks { All (λ h. HasRoom (H.clock h)) hands }
    requires empty { journal.items ≡ [] }
    requires room { 1 ≤ journal.spare }
    ensures worked { (observed : Observed) → ledger.journal ≡ Entered.Seen observed ∷ []
        → IsWorkedOn (λ h. telling (H.log h) (H.heard h) (H.faults h) (H.clock h) (H.engine h))
        ledger result.ran.journal hands result.hands
        ⊎ IsUnbegun observed result.ran.journal hands result.hands }
    ensures back { IfSome result.declared (λ same. same ≡ ledger.declared) }
    ensures lost { result.declared ≡ None → result.ran.fault ≡ Some Fault.Memory }
    ensures fault { IsFault (first_fault
        (setup_of (run_of ledger.declared ledger.plan limits result.ran.journal))
        (reverse result.ran.journal)) result.ran.fault }
    ensures report { IsReport (report_text
        (setup_of (run_of ledger.declared ledger.plan limits result.ran.journal))
        (reverse result.ran.journal)) result.ran.fault result.ran.report }
{
    match work_together(alloc, rt, ledger, hands, limits.deadline) {
        Ok(done) => {
            let Together { ledger, hands } = done;
            let (declared, plan, journal) = ledger.finish();
            let ran = end(alloc, &declared, &plan, limits, journal);
            CarriedTogether {
                ran,
                hands,
                declared: Some(declared),
            }
        }
        Err(kept) => {
            let Together { ledger, hands } = kept;
            let ran = unbegun(alloc, exchanges_of(ledger), journal);
            CarriedTogether {
                ran,
                hands,
                declared: None,
            }
        }
    }
}

/// The exchanges of the observation that a ledger's journal has alone. No memory.
fn exchanges_of(ledger: Ledger) -> List<Exchange>
    requires { HasOnlySeen ledger.journal }
    ensures { (observed : Observed) → ledger.journal ≡ Entered.Seen observed ∷ []
        → result ≡ observed.exchanges }
{
    let (_declared, _plan, journal) = ledger.finish();
    observed_in(journal)
}

/// The exchanges of the observation that a journal has alone. No memory.
fn observed_in(mut journal: List<Entry>) -> List<Exchange>
    requires { HasOnlySeen journal }
    ensures { (observed : Observed) → journal ≡ Entered.Seen observed ∷ []
        → result ≡ observed.exchanges }
{
    match journal.pop() {
        Some(Entry::Seen(sighting)) => {
            let Observed { exchanges, end: _ } = sighting.into_observed();
            exchanges
        }
        _ => unreachable!(),
    }
}

/// What came of a run that there was no memory to begin, after an observation of these exchanges. No memory.
fn unbegun(alloc: Global, exchanges: List<Exchange>, journal: FirstJournal) -> Ran
    requires empty { journal.items ≡ [] }
    requires room { 1 ≤ journal.spare }
    ensures journal { result.journal ≡ Entered.Seen (cut_short exchanges) ∷ [] }
    ensures fault { result.fault ≡ Some Fault.Memory }
    ensures report { result.report ≡ [] }
{
    let end = SeenEnd::Bad(SeenFault::Memory);
    Ran {
        journal: only_seen(Observed { exchanges, end }, journal),
        report: Text::new(alloc),
        fault: Some(RunFault::Memory),
    }
}
