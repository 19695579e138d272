ghost use Rattle.std.specs.Prelude.{◌≡◌, None, if◌then◌else◌, option_map, reverse};
ghost use Rattle.std.specs.Option.{option_map_or};
ghost use Rattle.engine_types.specs.declared.RunFault.{RunFault};
ghost use Rattle.engine_types.specs.declared.SeenEnd.{SeenEnd};
ghost use Rattle.run_model.specs.Ending.{ended_fault, fault_of, fault_status, first_fault, outcome_status, seen_fault, slot_name, status_of};
ghost use Rattle.run_model.specs.Journals.{Watch, ended_as, holding, is_well};
ghost use Rattle.run_model.specs.Plans.{kind_of};
ghost use Rattle.run_report.specs.Conditions.{failed_condition};
ghost use Rattle.run_requests.specs.Setups.{setup_of};

use crate::conditions::{failed_by_starts, failed_condition};
use crate::held::{Held, earlier, held_after};
use crate::standings::ended_well;
use engine_types::{Entry, Outcome, Plan, Report, SeenEnd, SeenFault};
use health_watch::report_of;
use run_lookups::{outcome_status, seen_status};
use run_requests::Run;

/// The exit status of a run, by its journal from the oldest entry on: that of the first entry that fails, else 0. No memory.
pub fn status(run: &Run<'_>, journal: &[Entry]) -> u8
    ensures { result ≡ status_of (setup_of run.now) (reverse journal.now) }
{
    for at in 0..journal.len() {
        let status = entry_status(run, earlier(journal, at), &journal[at]);
        if status > 0 {
            return status;
        }
    }
    0
}

/// The status that an entry gives after these, of which none failed.
fn entry_status(run: &Run<'_>, past: &[Entry], entry: &Entry) -> u8
    requires { first_fault (setup_of run.now) (reverse past.now) ≡ None }
    ensures { result ≡ option_map_or fault_status
        (fault_of (setup_of run.now) (reverse past.now) entry.now) 0 }
{
    match entry {
        Entry::Seen(observed) => seen_end_status(&observed.get().end),
        Entry::Ended { worker, outcome } => end_status(run, past, *worker, outcome),
        Entry::Stop { .. } => 5,
        Entry::Late { .. } => 6,
        Entry::Short { .. } => 9,
        Entry::Claim { .. } => 0,
        Entry::Poll { .. } => 0,
        Entry::Idle { .. } => 0,
        Entry::Leave { .. } => 0,
    }
}

fn seen_end_status(end: &SeenEnd) -> u8
    ensures { result ≡ option_map_or fault_status (seen_fault end.now) 0 }
{
    match end {
        SeenEnd::Good(_) => 0,
        SeenEnd::Bad(fault) => bad_end_status(fault),
    }
}

fn bad_end_status(fault: &SeenFault) -> u8
    ensures { result ≡ option_map_or fault_status (seen_fault (SeenEnd.Bad fault.now)) 0 }
{
    seen_status(fault)
}

/// The status that a worker's end gives: it ends what it held after these entries.
fn end_status(run: &Run<'_>, past: &[Entry], worker: u32, outcome: &Outcome) -> u8
    requires { first_fault (setup_of run.now) (reverse past.now) ≡ None }
    ensures { result ≡ option_map_or fault_status
        (ended_fault (setup_of run.now) (reverse past.now) worker outcome.now
        (holding (reverse past.now) worker)) 0 }
{
    match held_after(past, worker) {
        Held::Nothing => 0,
        Held::Work(action) => work_status(run.plan, action, outcome),
        Held::Watch(slot) => watch_status(run, past, worker, slot, outcome),
    }
}

/// The status that an action's end gives: that of its outcome where it didn't end well.
fn work_status(plan: &Plan, action: u32, outcome: &Outcome) -> u8
    ensures { result ≡ (if is_well (ended_as (kind_of plan.now.actions action) outcome.now) then 0
        else outcome_status outcome.now) }
{
    if ended_well(plan, action as usize, outcome) {
        0
    } else {
        outcome_status(outcome)
    }
}

/// The status that a poll's end gives: that of its outcome where no report came, and 4 where the report makes a wanted
/// condition fail.
fn watch_status(run: &Run<'_>, past: &[Entry], worker: u32, slot: u32, outcome: &Outcome) -> u8
    requires none { first_fault (setup_of run.now) (reverse past.now) ≡ None }
    requires held { holding (reverse past.now) worker ≡ Watch slot }
    ensures { result ≡ option_map_or fault_status
        (ended_fault (setup_of run.now) (reverse past.now) worker outcome.now (Watch slot)) 0 }
{
    match report_of(outcome) {
        Some(report) => report_status(run, past, worker, slot, report),
        None => outcome_status(outcome),
    }
}

fn report_status(run: &Run<'_>, past: &[Entry], worker: u32, slot: u32, report: &Report) -> u8
    ensures { result ≡ option_map_or fault_status (option_map
        (λ condition. RunFault.Condition
        (slot_name (setup_of run.now) slot) condition report.now)
        (failed_condition (setup_of run.now) (reverse past.now) worker slot report.now)) 0 }
{
    let by_starts = failed_by_starts(run, past, slot, report);
    match failed_condition(run, past, worker, slot, report, by_starts) {
        Some(_) => 4,
        None => 0,
    }
}
