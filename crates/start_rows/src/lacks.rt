ghost use Rattle.std.specs.Prelude.{◌≡◌, ◌+◌, ◌<◌, ℕ, None, Some, IfOk, get_or, length};
ghost use Rattle.tree_base.specs.Limits.{count_bound};
ghost use Rattle.ledger_rows.specs.Counts.{counted};
ghost use Rattle.run_model.specs.Plans.{kind_of, needs_of, slot_needs};
ghost use Rattle.start_rows.specs.Firsts.{first_lack, keeps_first};

use crate::needs::small;
use engine_types::{Action, Condition, Declared, Need};
use plan_needs::{slot_needs, start_at};
use std::alloc::Global;
use tree_base::Memory;

/// For each action how many of its needs keep it at first. The starts of the slots are by slot.
pub fn first_lacks(
    alloc: Global,
    declared: &Declared,
    actions: &[Action],
    starts: &[Option<u32>],
) -> Result<Vec<u32>, Memory>
    ensures size { IfOk result (λ lacks. length lacks.items ≡ length actions.now) }
    ensures each { IfOk result (λ lacks. (a : ℕ) → a < length actions.now
        → get_or lacks.items a 0 ≡ first_lack declared.now actions.now starts.now a) }
    ensures few { IfOk result (λ lacks. (a : ℕ) → a < length actions.now
        → length (needs_of actions.now a)
        + length (slot_needs declared.now (kind_of actions.now a)) < count_bound) }
{
    let mut lacks = Vec::new(alloc);
    for action in actions {
        let lack = lack_of(declared, action, starts)?;
        lacks.push(lack)?;
    }
    Ok(lacks)
}

/// How many needs of an action keep it at first.
fn lack_of(declared: &Declared, action: &Action, starts: &[Option<u32>]) -> Result<u32, Memory>
    ensures lack { IfOk result (λ lack. lack ≡ length action.now.needs
        + counted (keeps_first starts.now) (slot_needs declared.now (Some action.now.kind))) }
    ensures few { IfOk result (λ lack. length action.now.needs
        + length (slot_needs declared.now (Some action.now.kind)) < count_bound) }
{
    let needs = slot_needs(declared, action.kind);
    small(needs.len())?;
    let own = small(action.needs.len())?;
    let keeping = keeping(needs, starts);
    let keeping = small(keeping)?;
    Ok(own + keeping)
}

/// How many of these needs keep their start at first. No memory.
fn keeping(needs: &[Need], starts: &[Option<u32>]) -> usize
    ensures { result ≡ counted (keeps_first starts.now) needs.now }
{
    let mut count = 0;
    for need in needs {
        if keeps_first(need, starts) {
            count += 1;
        }
    }
    count
}

/// Whether a need keeps its start at first: each does, but one for Started of a slot that no action starts.
fn keeps_first(need: &Need, starts: &[Option<u32>]) -> bool
    ensures { result ≡ keeps_first starts.now need.now }
{
    match need.condition {
        Condition::Started => start_at(starts, need.slot).is_some(),
        _ => true,
    }
}
