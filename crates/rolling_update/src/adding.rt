//! A plan with the needs that a rolling update adds.

ghost use Rattle.std.specs.Prelude.{◌≡◌, ◌↔◌, ◌⊎◌, ◌++◌, Bool, ℕ, IfOk, is_some, map};
ghost use Rattle.std.specs.List.{list_any};
ghost use Rattle.std.specs.List.Sorted.{IsStrictlyIncreasing};
ghost use Rattle.rolling_update.specs.Needs.{HasNeeds, IsUpPlan, awaiting, kinds_in, rolled_basis};
ghost use Rattle.run_model.specs.EngineRules.{Among};
ghost use Rattle.run_model.specs.Plans.{IsWhole, basis_of, needed_by, planned, up_aim};
ghost use Rattle.run_model.specs.Rolling.{awaited_by, run_actions};

use crate::finder::Finder;
use crate::rolled::rolled_slots;
use crate::table::Table;
use crate::texts::Texts;
use crate::waiting::all_waited;
use engine_types::{Action, Declared, DeclaredService, Plan, Seen};
use std::alloc::Global;
use tree_base::{List, Memory};

/// The plan of `up` with the needs that a rolling update adds: where a service replaces only so many of its slots at a time, the
/// stop of a live container of a rolled slot needs the start of the slot that stands as many rolled slots before, and the start
/// of a rolled slot needs the stop of every container of it. The actions are the same, and so is the plan where no service rolls.
pub fn roll(alloc: Global, declared: &Declared, seen: &Seen, plan: Plan) -> Result<Plan, Memory>
    requires whole { IsWhole declared.now }
    requires planned { IsUpPlan declared.now seen.now plan.actions }
    ensures rolled { (orphans : Bool)
        → plan.actions ≡ planned (basis_of declared.now seen.now (up_aim orphans))
        → IfOk result (λ rolled. rolled.actions
        ≡ run_actions (basis_of declared.now seen.now (up_aim orphans))) }
    ensures kept { IfOk result (λ rolled. rolled.kept ≡ plan.kept) }
{
    if !any_rolls(declared.services.as_slice()) {
        return Ok(plan);
    }
    let Plan { actions, kept } = plan;
    let actions = rolled_actions(alloc, declared, seen, actions.as_slice())?;
    Ok(Plan { actions, kept })
}

/// Whether a service says how many of its slots are replaced at a time. No memory.
fn any_rolls(services: &[DeclaredService]) -> bool
    ensures { result ≡ list_any (λ service. is_some service.roll) services.now }
{
    for service in services {
        if service.roll.is_some() {
            return true;
        }
    }
    false
}

fn rolled_actions(
    alloc: Global,
    declared: &Declared,
    seen: &Seen,
    actions: &[Action],
) -> Result<List<Action>, Memory>
    requires whole { IsWhole declared.now }
    requires planned { IsUpPlan declared.now seen.now actions.now }
    ensures { (orphans : Bool)
        → actions.now ≡ planned (basis_of declared.now seen.now (up_aim orphans))
        → IfOk result (λ all. all
        ≡ run_actions (basis_of declared.now seen.now (up_aim orphans))) }
{
    let texts = Texts::new(alloc, declared, seen, actions)?;
    let finder = Finder::new(alloc, declared, seen, actions, &texts)?;
    let rolled = rolled_slots(alloc, &finder)?;
    let waited = all_waited(alloc, &finder, rolled.as_slice())?;
    let table = Table::new(finder, rolled, waited);
    all_rolled(alloc, &table, actions)
}

/// The actions of a table with the needs that are added.
fn all_rolled(alloc: Global, table: &Table<'_>, actions: &[Action]) -> Result<List<Action>, Memory>
    requires same { actions.now ≡ table.now.actions }
    requires needs { HasNeeds table.now }
    ensures { IfOk result (λ all. all ≡ map (awaiting table.now) actions.now) }
{
    let mut all = List::new(alloc);
    for action in actions {
        let needs = needs_of(alloc, table, action)?;
        all.push(Action {
            kind: action.kind,
            needs,
        })?;
    }
    Ok(all)
}

/// What an action needs in a run.
fn needs_of(alloc: Global, table: &Table<'_>, action: &Action) -> Result<List<u32>, Memory>
    requires { action.now.needs
        ≡ needed_by (rolled_basis table.now) (kinds_in table.now.actions) action.now.kind }
    ensures { IfOk result (λ needs. needs
        ≡ awaited_by (rolled_basis table.now) (kinds_in table.now.actions) action.now.kind) }
{
    let added = table.added(alloc, action.kind)?;
    let needs = joined(alloc, action.needs.as_slice(), added.as_slice())?;
    Ok(List::from_vec(needs))
}

/// Needs with those that are added, in order and each once.
fn joined(alloc: Global, needs: &[u32], added: &[u32]) -> Result<Vec<u32>, Memory>
    ensures rises { IfOk result (λ all. IsStrictlyIncreasing all.items) }
    ensures holds { IfOk result (λ all. (b : ℕ)
        → Among all.items b ↔ (Among needs.now b ⊎ Among added.now b)) }
{
    let mut all = together(alloc, needs, added)?;
    all.sort_unstable();
    all.dedup();
    Ok(all)
}

/// Numbers with others behind them.
fn together(alloc: Global, numbers: &[u32], others: &[u32]) -> Result<Vec<u32>, Memory>
    ensures { IfOk result (λ all. all.items ≡ numbers.now ++ others.now) }
{
    let mut all = Vec::new(alloc);
    all.extend_from_slice(numbers)?;
    all.extend_from_slice(others)?;
    Ok(all)
}
