//! How actions stand after entries of a journal.

ghost use Rattle.std.specs.Prelude.{◌≡◌, reverse};
ghost use Rattle.std.specs.Option.{option_copied, option_map_or};
ghost use Rattle.run_model.specs.Conditions.{counts, poll_counts};
ghost use Rattle.run_model.specs.Journals.{ended_as, holding, is_well, is_work_on, standing};
ghost use Rattle.run_model.specs.Plans.{kind_of};
ghost use Rattle.run_report.specs.Telling.{decides, latest_deciding, standing_by};
ghost use Rattle.run_requests.specs.Setups.{setup_of};

use crate::actions::{kind_of, start_of};
use crate::held::{Held, earlier, held_after};
use crate::polls::latest_poll;
use engine_types::{Entry, Outcome, Plan};
use run_lookups::is_well;
use run_requests::Run;

/// The latest entry that says how an action stands.
pub(crate) fn deciding(past: &[Entry], action: usize) -> Option<&Entry>
    ensures { option_copied result ≡ latest_deciding (reverse past.now) action }
{
    let mut at = past.len();
    while at > 0 {
        at -= 1;
        let entry = &past[at];
        if decides(earlier(past, at), entry, action) {
            return Some(entry);
        }
    }
    None
}

/// Whether an entry that comes after these says how an action stands: it claims the action, or ends it.
fn decides(past: &[Entry], entry: &Entry, of: usize) -> bool
    ensures { result ≡ decides (reverse past.now) entry.now of }
{
    match entry {
        Entry::Claim { action, .. } => *action as usize == of,
        Entry::Ended { worker, .. } => holds(past, *worker, of),
        _ => false,
    }
}

/// Whether a worker holds this action after these entries.
fn holds(past: &[Entry], worker: u32, of: usize) -> bool
    ensures { result ≡ is_work_on of (holding (reverse past.now) worker) }
{
    match held_after(past, worker) {
        Held::Work(action) => action as usize == of,
        Held::Nothing | Held::Watch(_) => false,
    }
}

/// Whether an action ended well.
fn stands_well(run: &Run<'_>, past: &[Entry], action: usize) -> bool
    ensures { result ≡ is_well (standing (setup_of run.now) (reverse past.now) action) }
{
    match deciding(past, action) {
        Some(entry) => is_well_by(run.plan, entry, action),
        None => false,
    }
}

/// Whether an action ended well by the entry that says how it stands.
fn is_well_by(plan: &Plan, entry: &Entry, action: usize) -> bool
    ensures { result ≡ is_well (standing_by plan.now.actions entry.now action) }
{
    match entry {
        Entry::Ended { outcome, .. } => ended_well(plan, action, outcome),
        _ => false,
    }
}

/// Whether an action that ended so ended well.
pub(crate) fn ended_well(plan: &Plan, action: usize, outcome: &Outcome) -> bool
    ensures { result ≡ is_well (ended_as (kind_of plan.now.actions action) outcome.now) }
{
    match kind_of(plan, action) {
        Some(kind) => is_well(kind, outcome),
        None => false,
    }
}

/// Whether a report on a slot that is asked for here counts.
fn counts(run: &Run<'_>, past: &[Entry], slot: u32) -> bool
    ensures { result ≡ counts (setup_of run.now) (reverse past.now) slot }
{
    match start_of(run.plan, slot) {
        Some(start) => stands_well(run, past, start),
        None => true,
    }
}

/// Whether the report of a worker's latest poll counts.
pub(crate) fn poll_counts(run: &Run<'_>, past: &[Entry], worker: u32) -> bool
    ensures { result ≡ poll_counts (setup_of run.now) (reverse past.now) worker }
{
    match latest_poll(past, worker) {
        Some(poll) => counts(run, poll.before, poll.slot),
        None => false,
    }
}
