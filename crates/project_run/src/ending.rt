ghost use Rattle.std.specs.Prelude.{◌≡◌, ◌∷◌, ◌≤◌, ℕ, [], List, Option, IfOk, Some, reverse, slice_get};
ghost use Rattle.engine_types.specs.declared.Entry.{Entry as Entered};
ghost use Rattle.engine_types.specs.declared.RunFault.{RunFault as Fault};
ghost use Rattle.journal_laws.specs.Courses.{first_seen, setup_of};
ghost use Rattle.ledger_core.specs.Beginning.{run_of};
ghost use Rattle.ledger_core.specs.Seeing.{seen_at};
ghost use Rattle.project_run.specs.Opening.{HasEndedBadly};
ghost use Rattle.project_run.specs.Whole.{IsFault, IsReport};
ghost use Rattle.run_model.specs.Ending.{first_fault};
ghost use Rattle.run_model.specs.Lines.{report_text};
ghost use Rattle.run_model.specs.Runs.{Task, run_fault, run_report, unseen};
ghost use Rattle.run_requests.specs.Setups.{of_one_worker, setup_of as setup_in};

use crate::journals::{FirstJournal, only_seen};
use crate::ran::Ran;
use engine_types::{Declared, Entry, Observed, Plan, RunFault, RunLimits, Seen};
use ledger_core::first_seen;
use run_report::{fault, report};
use run_requests::Run;
use std::alloc::Global;
use tree_base::{List, Memory, Text};

/// What is told of a run beside its journal.
#[derive(Drop)]
struct Reading {
    report: Text,
    fault: Option<RunFault>,
}

/// What came of a run whose observation ended well, by its journal.
pub fn end(
    alloc: Global,
    declared: &Declared,
    plan: &Plan,
    limits: RunLimits,
    journal: List<Entry>,
) -> Ran
    requires { seen_at (slice_get journal 0) ≡ Some (first_seen journal) }
    ensures journal { result.journal ≡ journal }
    ensures fault { IsFault (first_fault (setup_of (run_of declared.now plan.now limits journal))
        (reverse journal)) result.fault }
    ensures report { IsReport (report_text
        (setup_of (run_of declared.now plan.now limits journal)) (reverse journal)) result.fault
        result.report }
{
    let reading = read_run(alloc, declared, plan, limits, journal.as_slice());
    ran(alloc, journal, reading)
}

/// What came of a run that ended with its observation. The journal is empty, and has room for it.
pub fn ended(alloc: Global, declared: &Declared, observed: Observed, journal: FirstJournal) -> Ran
    requires bad { HasEndedBadly observed }
    requires empty { journal.items ≡ [] }
    requires room { 1 ≤ journal.spare }
    ensures journal { result.journal ≡ Entered.Seen observed ∷ [] }
    ensures fault { (task : Task)
        → IsFault (run_fault task (Entered.Seen observed ∷ [])) result.fault }
    ensures report { (task : Task)
        → IsReport (run_report task (Entered.Seen observed ∷ [])) result.fault result.report }
{
    let journal = only_seen(observed, journal);
    let reading = read_alone(alloc, declared, journal.as_slice());
    ran(alloc, journal, reading)
}

/// What is told of a run that ended with its observation, whatever it would have been of else.
fn read_alone(alloc: Global, declared: &Declared, journal: &[Entry]) -> Result<Reading, Memory>
    ensures fault { IfOk result (λ reading. reading.fault
        ≡ first_fault (of_one_worker declared.now unseen []) (reverse journal.now)) }
    ensures report { IfOk result (λ reading. reading.report
        ≡ report_text (of_one_worker declared.now unseen []) (reverse journal.now)) }
{
    let seen = Seen {
        containers: List::new(alloc),
        networks: List::new(alloc),
        volumes: List::new(alloc),
        images: List::new(alloc),
    };
    let plan = Plan {
        actions: List::new(alloc),
        kept: List::new(alloc),
    };
    let run = Run::of_one_worker(declared, &seen, &plan);
    let reading = read_journal(alloc, &run, journal)?;
    Ok(reading)
}

/// The journal and what was read from it; want of memory where it couldn't be read.
fn ran(alloc: Global, journal: List<Entry>, reading: Result<Reading, Memory>) -> Ran
    ensures journal { result.journal ≡ journal }
    ensures fault { (expected : Option Fault) → IfOk reading (λ told. told.fault ≡ expected)
        → IsFault expected result.fault }
    ensures report { (expected : List ℕ) → IfOk reading (λ told. told.report ≡ expected)
        → IsReport expected result.fault result.report }
{
    match reading {
        Ok(Reading { report, fault }) => Ran {
            journal,
            report,
            fault,
        },
        Err(Memory) => Ran {
            journal,
            report: Text::new(alloc),
            fault: Some(RunFault::Memory),
        },
    }
}

/// What is told of a run that saw what its journal begins with.
fn read_run(
    alloc: Global,
    declared: &Declared,
    plan: &Plan,
    limits: RunLimits,
    journal: &[Entry],
) -> Result<Reading, Memory>
    requires { seen_at (slice_get journal.now 0) ≡ Some (first_seen journal.now) }
    ensures fault { IfOk result (λ reading. reading.fault
        ≡ first_fault (setup_of (run_of declared.now plan.now limits journal.now))
        (reverse journal.now)) }
    ensures report { IfOk result (λ reading. reading.report
        ≡ report_text (setup_of (run_of declared.now plan.now limits journal.now))
        (reverse journal.now)) }
{
    let Some(seen) = first_seen(journal) else {
        unreachable!();
    };
    let run = Run {
        declared,
        seen,
        plan,
        limits,
    };
    read_journal(alloc, &run, journal)
}

fn read_journal(alloc: Global, run: &Run<'_>, journal: &[Entry]) -> Result<Reading, Memory>
    ensures fault { IfOk result (λ reading.
        reading.fault ≡ first_fault (setup_in run.now) (reverse journal.now)) }
    ensures report { IfOk result (λ reading.
        reading.report ≡ report_text (setup_in run.now) (reverse journal.now)) }
{
    Ok(Reading {
        report: report(alloc, run, journal)?,
        fault: fault(alloc, run, journal)?,
    })
}
