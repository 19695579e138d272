//! The condition that a report makes fail.

ghost use Rattle.std.specs.Prelude.{◌≡◌, length, reverse};
ghost use Rattle.run_model.specs.Conditions.{is_failed_verdict, judge};
ghost use Rattle.run_report.specs.Conditions.{failed_by_start, failed_by_starts, failed_condition, failed_goal, failed_of, failed_wanted, fails_need, is_against};
ghost use Rattle.run_report.specs.Rows.{AreRows};
ghost use Rattle.run_requests.specs.Setups.{setup_of};

use crate::actions::{kind_of, needs_of};
use crate::claims::was_claimed;
use crate::rows::Rows;
use crate::standings::poll_counts;
use crate::wanted::may_fail;
use engine_types::{Condition, Entry, Need, Report};
use health_watch::judge;
use run_model::Verdict;
use run_requests::Run;

/// The condition that the report of a worker's poll of a slot makes fail, after entries of which none failed. What it fails of
/// what the starts require is told.
pub(crate) fn failed_condition(
    run: &Run<'_>,
    past: &[Entry],
    worker: u32,
    slot: u32,
    report: &Report,
    by_starts: Option<Condition>,
) -> Option<Condition>
    requires { by_starts ≡
        failed_by_starts (setup_of run.now) (reverse past.now) slot report.now }
    ensures { result ≡
        failed_condition (setup_of run.now) (reverse past.now) worker slot report.now }
{
    let condition = failed_wanted(run, past, slot, report, by_starts)?;
    if poll_counts(run, past, worker) {
        Some(condition)
    } else {
        None
    }
}

/// What a report on a slot fails of all that is wanted.
fn failed_wanted(
    run: &Run<'_>,
    past: &[Entry],
    slot: u32,
    report: &Report,
    by_starts: Option<Condition>,
) -> Option<Condition>
    requires { by_starts ≡
        failed_by_starts (setup_of run.now) (reverse past.now) slot report.now }
    ensures { result ≡ failed_wanted (setup_of run.now) (reverse past.now) slot report.now }
{
    match by_starts {
        Some(condition) => Some(condition),
        None => failed_goal(run, slot, report),
    }
}

/// The condition that a report on a slot fails of what the starts require, by the rows of the journal.
pub(crate) fn needed(
    run: &Run<'_>,
    rows: &Rows,
    past: &[Entry],
    slot: u32,
    report: &Report,
) -> Option<Condition>
    requires { AreRows (setup_of run.now) (reverse past.now) (length past.now) rows.now }
    ensures { result ≡ failed_by_starts (setup_of run.now) (reverse past.now) slot report.now }
{
    if may_fail(rows.wanted.as_slice(), slot, report, past.len()) {
        failed_by_starts(run, past, slot, report)
    } else {
        None
    }
}

/// The same without rows, from the first action on. No memory.
pub(crate) fn failed_by_starts(
    run: &Run<'_>,
    past: &[Entry],
    slot: u32,
    report: &Report,
) -> Option<Condition>
    ensures { result ≡ failed_by_starts (setup_of run.now) (reverse past.now) slot report.now }
{
    for at in 0..run.plan.actions.len() {
        if let Some(condition) = failed_by_start(run, past, slot, report, at) {
            return Some(condition);
        }
    }
    None
}

/// The condition that a report on a slot fails of what an action requires, unless the action was claimed.
fn failed_by_start(
    run: &Run<'_>,
    past: &[Entry],
    slot: u32,
    report: &Report,
    action: usize,
) -> Option<Condition>
    ensures { result ≡
        failed_by_start (setup_of run.now) (reverse past.now) slot report.now action }
{
    let needs = needs_of(run.declared, kind_of(run.plan, action));
    let condition = failed_of(slot, report, needs)?;
    if was_claimed(past, action) {
        None
    } else {
        Some(condition)
    }
}

/// The first condition that these needs require and a report on a slot fails.
fn failed_of(slot: u32, report: &Report, needs: &[Need]) -> Option<Condition>
    ensures { result ≡ failed_of slot report.now needs.now }
{
    let need = needs.iter().find(|need| fails_need(slot, report, need))?;
    Some(need.condition)
}

fn fails_need(slot: u32, report: &Report, need: &Need) -> bool
    ensures { result ≡ fails_need slot report.now need.now }
{
    need.required && slot == need.slot && is_against(report, need.condition)
}

/// Whether a report fails a condition.
pub(crate) fn is_against(report: &Report, condition: Condition) -> bool
    ensures { result ≡ is_against report.now condition }
{
    match judge(condition, report) {
        Verdict::Failed => true,
        _ => false,
    }
}

/// The goal that a report on a slot fails; slots have goals where the run waits for them.
fn failed_goal(run: &Run<'_>, slot: u32, report: &Report) -> Option<Condition>
    ensures { result ≡ failed_goal (setup_of run.now) slot report.now }
{
    if !run.limits.wait {
        return None;
    }
    let slot = run.declared.slots.get(slot as usize)?;
    if is_against(report, slot.goal) {
        Some(slot.goal)
    } else {
        None
    }
}
