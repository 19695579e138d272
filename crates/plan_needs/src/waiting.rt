ghost use Rattle.std.specs.Prelude.{◌≡◌, ◌+◌, ◌==◌, ℕ, [], if◌then◌else◌, get_or, length, IfOk, OnOk, Some};
ghost use Rattle.ledger_rows.specs.Counts.{counted};
ghost use Rattle.run_model.specs.Plans.{slot_needs};
ghost use Rattle.plan_needs.specs.Waits.{needs_for, waited, waits_for};

use crate::wait::{Wait, begins_with_needs, is_wanted};
use engine_types::{Action, ActionKind, Declared, Need};
use std::alloc::Global;
use tree_base::{List, Memory, TryCopy};

/// For each action those that it waits for so, each as often as it does. The starts of the slots are by slot.
pub fn all_waited_for(
    alloc: Global,
    wait: Wait,
    declared: &Declared,
    actions: &[Action],
    starts: &[Option<u32>],
) -> Result<List<List<u32>>, Memory>
    ensures size { IfOk result (λ lists. length lists ≡ length actions.now) }
    ensures each { IfOk result (λ lists. (a x : ℕ)
        → counted (λ b. b == x) (get_or lists a [])
        ≡ waited wait declared.now actions.now starts.now a x) }
{
    let mut lists = List::new(alloc);
    for action in actions {
        lists.push(waited_for(alloc, wait, declared, action, starts)?)?;
    }
    Ok(lists)
}

/// Those that one action waits for so.
fn waited_for(
    alloc: Global,
    wait: Wait,
    declared: &Declared,
    action: &Action,
    starts: &[Option<u32>],
) -> Result<List<u32>, Memory>
    ensures { IfOk result (λ list. (x : ℕ) → counted (λ b. b == x) list
        ≡ counted (λ b. b == x) (needs_for wait action.now.needs)
        + counted (waits_for wait starts.now x)
        (slot_needs declared.now (Some action.now.kind))) }
{
    let mut list = if begins_with_needs(wait) {
        action.needs.copy(alloc)?
    } else {
        List::new(alloc)
    };
    push_starts(&mut list, wait, slot_needs(declared, action.kind), starts)?;
    Ok(list)
}

/// Puts the starts that these needs wait for last.
fn push_starts(
    list: &mut List<u32>,
    wait: Wait,
    needs: &[Need],
    starts: &[Option<u32>],
) -> Result<(), Memory>
    ensures ok { OnOk result ((x : ℕ) → counted (λ b. b == x) list.new
        ≡ counted (λ b. b == x) list.old + counted (waits_for wait starts.now x) needs.now) }
{
    for need in needs {
        push_start(list, wait, need, starts)?;
    }
    Ok(())
}

/// Puts the start that a need waits for last.
fn push_start(
    list: &mut List<u32>,
    wait: Wait,
    need: &Need,
    starts: &[Option<u32>],
) -> Result<(), Memory>
    ensures ok { OnOk result ((x : ℕ) → counted (λ b. b == x) list.new
        ≡ counted (λ b. b == x) list.old
        + (if waits_for wait starts.now x need.now then 1 else 0)) }
{
    if is_wanted(wait, need) {
        if let Some(start) = start_at(starts, need.slot) {
            list.push(start)?;
        }
    }
    Ok(())
}

/// The start of a slot, if any. No memory.
pub fn start_at(starts: &[Option<u32>], slot: u32) -> Option<u32>
    ensures { result ≡ get_or starts.now slot None }
{
    let at = slot as usize;
    if at < starts.len() { starts[at] } else { None }
}

/// What the slot of a start needs. No memory.
pub fn slot_needs<'a>(declared: &'a Declared, kind: ActionKind) -> &'a [Need]
    ensures { result.now ≡ slot_needs declared.now (Some kind) }
{
    match kind {
        ActionKind::StartSlot { slot } => match declared.slots.get(slot as usize) {
            Some(slot) => slot.needs.as_slice(),
            None => &[],
        },
        _ => &[],
    }
}
