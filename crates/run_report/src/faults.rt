ghost use Rattle.std.specs.Prelude.{◌≡◌, IfOk, None, Some, length, option_map, reverse};
ghost use Rattle.engine_types.specs.declared.RunFault.{RunFault};
ghost use Rattle.engine_types.specs.declared.SeenEnd.{SeenEnd};
ghost use Rattle.run_model.specs.Ending.{ended_fault, exchange_fault, fault_of, first_fault, seen_fault, slot_name};
ghost use Rattle.run_model.specs.Journals.{Watch, Work, holding};
ghost use Rattle.run_model.specs.Requests.{request_out};
ghost use Rattle.run_report.specs.Conditions.{failed_condition};
ghost use Rattle.run_report.specs.Rows.{AreRows, AreRowsOf};
ghost use Rattle.run_requests.specs.Setups.{setup_of};

use crate::asking::request_out;
use crate::conditions::{failed_condition, needed};
use crate::held::{Held, earlier, held_after};
use crate::lines::slot_name;
use crate::rows::Rows;
use crate::standings::ended_well;
use engine_types::{Condition, Entry, Outcome, Report, Request, RunFault, SeenEnd, SeenFault};
use health_watch::report_of;
use run_requests::Run;
use std::alloc::Global;
use tree_base::{Memory, Text, TryCopy};

/// What a run is refused with, by its journal from the oldest entry on: the fault of the first entry that
/// fails, None where none does.
pub fn fault(alloc: Global, run: &Run<'_>, journal: &[Entry]) -> Result<Option<RunFault>, Memory>
    ensures { IfOk result (λ fault. fault ≡ first_fault (setup_of run.now) (reverse journal.now)) }
{
    let rows = Rows::of(alloc, run, journal)?;
    first_fault(alloc, run, &rows, journal)
}

/// The fault of the first entry that fails, over the rows of the journal.
fn first_fault(
    alloc: Global,
    run: &Run<'_>,
    rows: &Rows,
    journal: &[Entry],
) -> Result<Option<RunFault>, Memory>
    requires { AreRowsOf (setup_of run.now) journal.now rows.now }
    ensures { IfOk result (λ fault. fault ≡ first_fault (setup_of run.now) (reverse journal.now)) }
{
    for at in 0..journal.len() {
        if let Some(fault) = fault_of(alloc, run, rows, earlier(journal, at), &journal[at])? {
            return Ok(Some(fault));
        }
    }
    Ok(None)
}

/// The fault of an entry that comes after these, of which none failed.
fn fault_of(
    alloc: Global,
    run: &Run<'_>,
    rows: &Rows,
    past: &[Entry],
    entry: &Entry,
) -> Result<Option<RunFault>, Memory>
    requires rows { AreRows (setup_of run.now) (reverse past.now) (length past.now) rows.now }
    requires none { first_fault (setup_of run.now) (reverse past.now) ≡ None }
    ensures { IfOk result (λ fault.
        fault ≡ fault_of (setup_of run.now) (reverse past.now) entry.now) }
{
    match entry {
        Entry::Seen(observed) => seen_fault(alloc, &observed.get().end),
        Entry::Ended { worker, outcome } => end_fault(alloc, run, rows, past, *worker, outcome),
        Entry::Stop { .. } => Ok(Some(RunFault::Stopped)),
        Entry::Late { why, .. } => Ok(Some(RunFault::Late(*why))),
        Entry::Short { .. } => Ok(Some(RunFault::Memory)),
        Entry::Claim { .. } => Ok(None),
        Entry::Poll { .. } => Ok(None),
        Entry::Idle { .. } => Ok(None),
        Entry::Leave { .. } => Ok(None),
    }
}

fn seen_fault(alloc: Global, end: &SeenEnd) -> Result<Option<RunFault>, Memory>
    ensures { IfOk result (λ fault. fault ≡ seen_fault end.now) }
{
    match end {
        SeenEnd::Good(_) => Ok(None),
        SeenEnd::Bad(fault) => Ok(Some(bad_fault(alloc, fault)?)),
    }
}

fn bad_fault(alloc: Global, fault: &SeenFault) -> Result<RunFault, Memory>
    ensures { IfOk result (λ of. Some of ≡ seen_fault (SeenEnd.Bad fault.now)) }
{
    match fault {
        SeenFault::Memory => Ok(RunFault::Memory),
        SeenFault::RequestFailed { .. } => whole_fault(alloc, fault),
        SeenFault::PullFailed { .. } => whole_fault(alloc, fault),
        SeenFault::Lost { .. } => whole_fault(alloc, fault),
        SeenFault::NotSent { .. } => whole_fault(alloc, fault),
        SeenFault::NetworkTwice { .. } => whole_fault(alloc, fault),
        SeenFault::ForeignNetwork { .. } => whole_fault(alloc, fault),
        SeenFault::ExternalMissing { .. } => whole_fault(alloc, fault),
        SeenFault::NeedsBuild { .. } => whole_fault(alloc, fault),
        SeenFault::TooManyActions { .. } => whole_fault(alloc, fault),
    }
}

fn whole_fault(alloc: Global, fault: &SeenFault) -> Result<RunFault, Memory>
    ensures { IfOk result (λ of. of ≡ RunFault.Seen fault.now) }
{
    let fault = fault.copy(alloc)?;
    Ok(RunFault::Seen(fault))
}

/// The fault of a worker's end: it ends what it held after these entries.
fn end_fault(
    alloc: Global,
    run: &Run<'_>,
    rows: &Rows,
    past: &[Entry],
    worker: u32,
    outcome: &Outcome,
) -> Result<Option<RunFault>, Memory>
    requires rows { AreRows (setup_of run.now) (reverse past.now) (length past.now) rows.now }
    requires none { first_fault (setup_of run.now) (reverse past.now) ≡ None }
    ensures { IfOk result (λ fault.
        fault ≡ ended_fault (setup_of run.now) (reverse past.now) worker outcome.now
        (holding (reverse past.now) worker)) }
{
    match held_after(past, worker) {
        Held::Nothing => Ok(None),
        Held::Work(action) => work_fault(alloc, run, past, worker, action, outcome),
        Held::Watch(slot) => watch_fault(alloc, run, rows, past, worker, slot, outcome),
    }
}

/// The fault of an action's end: there is one where it didn't end well.
fn work_fault(
    alloc: Global,
    run: &Run<'_>,
    past: &[Entry],
    worker: u32,
    action: u32,
    outcome: &Outcome,
) -> Result<Option<RunFault>, Memory>
    ensures { IfOk result (λ fault.
        fault ≡ ended_fault (setup_of run.now) (reverse past.now) worker outcome.now
        (Work action)) }
{
    if ended_well(run.plan, action as usize, outcome) {
        return Ok(None);
    }
    let fault = exchange_fault(alloc, run, past, worker, outcome)?;
    Ok(Some(fault))
}

/// The fault of a poll's end: there is one where no report came, or where it makes a wanted condition fail.
fn watch_fault(
    alloc: Global,
    run: &Run<'_>,
    rows: &Rows,
    past: &[Entry],
    worker: u32,
    slot: u32,
    outcome: &Outcome,
) -> Result<Option<RunFault>, Memory>
    requires rows { AreRows (setup_of run.now) (reverse past.now) (length past.now) rows.now }
    requires none { first_fault (setup_of run.now) (reverse past.now) ≡ None }
    requires held { holding (reverse past.now) worker ≡ Watch slot }
    ensures { IfOk result (λ fault.
        fault ≡ ended_fault (setup_of run.now) (reverse past.now) worker outcome.now
        (Watch slot)) }
{
    match report_of(outcome) {
        Some(report) => report_fault(alloc, run, rows, past, worker, slot, report),
        None => {
            let fault = exchange_fault(alloc, run, past, worker, outcome)?;
            Ok(Some(fault))
        }
    }
}

/// The fault of a report on a slot.
fn report_fault(
    alloc: Global,
    run: &Run<'_>,
    rows: &Rows,
    past: &[Entry],
    worker: u32,
    slot: u32,
    report: &Report,
) -> Result<Option<RunFault>, Memory>
    requires { AreRows (setup_of run.now) (reverse past.now) (length past.now) rows.now }
    ensures { IfOk result (λ fault. fault ≡ option_map
        (λ condition. RunFault.Condition
        (slot_name (setup_of run.now) slot) condition report.now)
        (failed_condition (setup_of run.now) (reverse past.now) worker slot report.now)) }
{
    let by_starts = needed(run, rows, past, slot, report);
    match failed_condition(run, past, worker, slot, report, by_starts) {
        Some(condition) => condition_fault(alloc, run, slot, condition, report),
        None => Ok(None),
    }
}

fn condition_fault(
    alloc: Global,
    run: &Run<'_>,
    slot: u32,
    condition: Condition,
    report: &Report,
) -> Result<Option<RunFault>, Memory>
    ensures { IfOk result (λ fault. fault ≡ Some (RunFault.Condition
        (slot_name (setup_of run.now) slot) condition report.now)) }
{
    let slot = Text::from_str(alloc, slot_name(run, slot))?;
    Ok(Some(RunFault::Condition {
        slot,
        condition,
        report: *report,
    }))
}

/// The fault of an exchange that a worker ends so, not well.
fn exchange_fault(
    alloc: Global,
    run: &Run<'_>,
    past: &[Entry],
    worker: u32,
    outcome: &Outcome,
) -> Result<RunFault, Memory>
    ensures { IfOk result (λ fault. fault ≡ exchange_fault
        (request_out (setup_of run.now) (reverse past.now) worker) outcome.now) }
{
    match outcome {
        Outcome::Memory => Ok(RunFault::Memory),
        Outcome::Answered(_) => request_fault(alloc, run, past, worker, outcome),
        Outcome::Lost(_) => request_fault(alloc, run, past, worker, outcome),
        Outcome::NotSent => request_fault(alloc, run, past, worker, outcome),
    }
}

fn request_fault(
    alloc: Global,
    run: &Run<'_>,
    past: &[Entry],
    worker: u32,
    outcome: &Outcome,
) -> Result<RunFault, Memory>
    ensures { IfOk result (λ fault. fault ≡ RunFault.Request
        (request_out (setup_of run.now) (reverse past.now) worker) outcome.now) }
{
    let request = request_out(alloc, run, past, worker)?;
    with_outcome(alloc, request, outcome)
}

/// The fault of a request that came to this.
fn with_outcome(alloc: Global, request: Request, outcome: &Outcome) -> Result<RunFault, Memory>
    ensures { IfOk result (λ fault. fault ≡ RunFault.Request request outcome.now) }
{
    match outcome.copy(alloc) {
        Ok(outcome) => Ok(RunFault::Request { request, outcome }),
        Err(Memory) => {
            drop(request);
            Err(Memory)
        }
    }
}
