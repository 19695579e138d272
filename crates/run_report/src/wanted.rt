ghost use Rattle.std.specs.Prelude.{◌≡◌, IfOk, get_or, length};
ghost use Rattle.run_model.specs.Plans.{kind_of, slot_needs};
ghost use Rattle.run_report.specs.Conditions.{is_against};
ghost use Rattle.run_report.specs.Rows.{AreGrown, AreWanted, AreWantedBy, is_wanted_still, may_fail, raised, until, with_need};
ghost use Rattle.run_requests.specs.Setups.{setup_of};

use crate::actions::{kind_of, needs_of};
use crate::conditions::is_against;
use engine_types::{Condition, Need, Report};
use run_requests::Run;
use std::alloc::Global;
use tree_base::Memory;

/// Up to which place of a journal each condition of a slot is wanted by a start.
#[derive(Clone, Copy)]
pub(crate) struct Wanted {
    pub(crate) healthy: usize,
    pub(crate) completed: usize,
    pub(crate) running: usize,
}

/// For each slot up to which place the starts want its conditions: each start up to its claim.
pub(crate) fn wanted_rows(
    alloc: Global,
    run: &Run<'_>,
    claims: &[usize],
) -> Result<Vec<Wanted>, Memory>
    requires { length claims.now ≡ length run.now.plan.now.actions }
    ensures { IfOk result (λ rows. AreWantedBy (setup_of run.now) claims.now rows.items
        (length run.now.plan.now.actions)) }
{
    let unwanted = Wanted {
        healthy: 0,
        completed: 0,
        running: 0,
    };
    let mut rows = vec![in alloc; unwanted; run.declared.slots.len()]?;
    for at in 0..run.plan.actions.len() {
        let needs = needs_of(run.declared, kind_of(run.plan, at));
        let place = claims[at];
        want_all(&mut rows, needs, place);
    }
    Ok(rows)
}

/// Keeps that needs are wanted up to a place.
fn want_all(rows: &mut Vec<Wanted>, needs: &[Need], place: usize)
    ensures grown { AreGrown rows.old.items rows.new.items }
    ensures wanted { AreWanted rows.new.items needs.now place }
{
    for at in 0..needs.len() {
        let need = &needs[at];
        want(rows, need, place);
    }
}

/// Keeps that a need is wanted up to a place.
fn want(rows: &mut Vec<Wanted>, need: &Need, place: usize)
    ensures { rows.new.items ≡ with_need rows.old.items need.now place }
{
    let at = need.slot as usize;
    if need.required && at < rows.len() {
        rows[at] = raised(rows[at], need.condition, place);
    }
}

fn raised(row: Wanted, condition: Condition, place: usize) -> Wanted
    ensures { result ≡ raised row condition place }
{
    let Wanted {
        healthy,
        completed,
        running,
    } = row;
    match condition {
        Condition::Healthy => Wanted {
            healthy: healthy.max(place),
            completed,
            running,
        },
        Condition::Completed => Wanted {
            healthy,
            completed: completed.max(place),
            running,
        },
        Condition::Running => Wanted {
            healthy,
            completed,
            running: running.max(place),
        },
        Condition::Started => row,
    }
}

fn until(row: &Wanted, condition: Condition) -> usize
    ensures { result ≡ until row.now condition }
{
    match condition {
        Condition::Healthy => row.healthy,
        Condition::Completed => row.completed,
        Condition::Running => row.running,
        Condition::Started => 0,
    }
}

/// Whether a report on a slot may fail a condition that a start wants here. Where it may not, no start is looked at.
pub(crate) fn may_fail(rows: &[Wanted], slot: u32, report: &Report, place: usize) -> bool
    ensures { result ≡ may_fail rows.now slot report.now place }
{
    match rows.get(slot as usize) {
        Some(row) => {
            is_wanted_still(row, report, place, Condition::Healthy)
                || is_wanted_still(row, report, place, Condition::Completed)
                || is_wanted_still(row, report, place, Condition::Running)
        }
        None => true,
    }
}

fn is_wanted_still(row: &Wanted, report: &Report, place: usize, condition: Condition) -> bool
    ensures { result ≡ is_wanted_still row.now report.now place condition }
{
    place <= until(row, condition) && is_against(report, condition)
}
