ghost use Rattle.std.specs.Prelude.{◌≡◌, ◌+◌, ◌<◌, ◌==◌, ◌∷◌, ◌++◌, ℕ, [], if◌then◌else◌, get_or, length, set, IfOk, OnOk};
ghost use Rattle.tree_base.specs.Limits.{count_bound};
ghost use Rattle.ledger_rows.specs.Counts.{counted};
ghost use Rattle.run_model.specs.Plans.{kind_of, slot_needs};
ghost use Rattle.start_rows.specs.Asks.{asked_by, with_ask};

use crate::ask::{Ask, asks};
use engine_types::{Action, Condition, Declared, Need};
use ledger_rows::empty_rows;
use plan_needs::slot_needs;
use std::alloc::Global;
use tree_base::{List, Memory};

/// For each slot the starts that ask so for a condition of it, each as often as its slot's needs do.
pub fn asking_rows(
    alloc: Global,
    ask: Ask,
    condition: Condition,
    declared: &Declared,
    actions: &[Action],
) -> Result<List<List<u32>>, Memory>
    requires small { length actions.now < count_bound }
    ensures size { IfOk result (λ rows. length rows ≡ length declared.now.slots) }
    ensures each { IfOk result (λ rows. (s a : ℕ) → s < length declared.now.slots
        → counted (λ b. b == a) (get_or rows s [])
        ≡ counted (asked_by ask s condition) (slot_needs declared.now (kind_of actions.now a))) }
{
    let mut rows = empty_rows(alloc, declared.slots.len())?;
    for (at, action) in actions.iter().enumerate() {
        let needs = slot_needs(declared, action.kind);
        add_asks(&mut rows, ask, condition, needs, at as u32)?;
    }
    Ok(List::from_vec(rows))
}

/// Puts an action into the rows of the slots that these needs ask for.
fn add_asks(
    rows: &mut [List<u32>],
    ask: Ask,
    condition: Condition,
    needs: &[Need],
    action: u32,
) -> Result<(), Memory>
    ensures ok { OnOk result ((s a : ℕ) → s < length rows.old
        → counted (λ b. b == a) (get_or rows.new s [])
        ≡ counted (λ b. b == a) (get_or rows.old s [])
        + (if action == a then counted (asked_by ask s condition) needs.now else 0)) }
{
    for need in needs {
        add_ask(rows, ask, condition, need, action)?;
    }
    Ok(())
}

/// Puts an action into the row of the slot that a need names, where it asks so.
fn add_ask(
    rows: &mut [List<u32>],
    ask: Ask,
    condition: Condition,
    need: &Need,
    action: u32,
) -> Result<(), Memory>
    ensures ok { OnOk result (rows.new ≡ with_ask ask condition need.now action rows.old) }
{
    if asks(ask, condition, need) && (need.slot as usize) < rows.len() {
        put_last(rows, need.slot, action)?;
    }
    Ok(())
}

fn put_last(rows: &mut [List<u32>], at: u32, action: u32) -> Result<(), Memory>
    requires { at < length rows.old }
    ensures ok { OnOk result
        (rows.new ≡ set rows.old at (get_or rows.old at [] ++ action ∷ [])) }
{
    let row = &mut rows[at as usize];
    row.push(action)?;
    Ok(())
}
