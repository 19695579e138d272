ghost use Rattle.std.specs.Prelude.{◌≡◌, ℕ, ◌<◌, ◌≤◌, Some, get_or, length, slice_get, false, true};
ghost use Rattle.engine_types.specs.declared.Condition.{Condition};
ghost use Rattle.engine_types.specs.declared.Need.{Need};
ghost use Rattle.run_model.specs.Conditions.{is_pending, is_reported};
ghost use Rattle.run_model.specs.Plans.{IsWhole, kind_of, slot_needs};
ghost use Rattle.ledger_rows.specs.Counts.{counted};
ghost use Rattle.ledger_rows.specs.Facts.{asks_of};
ghost use Rattle.ledger_rows.specs.Rows.{blocked_in, is_pending_in};
ghost use Rattle.slot_rows.specs.Keys.{no_slot};
ghost use Rattle.slot_rows.specs.Slots.{AreSlots};
ghost use Rattle.ledger_ends.specs.Retiring.{AreSlotsWhile, History, Retires, askers_on, still_asks, unasked};

use engine_types::{Action, ActionKind, Condition as Wanted, Declared, Need as Asked};
use ledger_rows::{ActionRows, State};
use rank_rows::RankRow;
use slot_rows::{SlotRow, SlotRows};

/// A slot's row with one asker of a condition fewer. No memory.
fn unask(row: SlotRow, condition: Wanted) -> SlotRow
    requires { is_reported condition ≡ true → 1 ≤ askers_on condition row }
    ensures { result ≡ unasked condition row }
{
    let mut row = row;
    match condition {
        Wanted::Healthy => row.healthy_askers -= 1,
        Wanted::Completed => row.completed_askers -= 1,
        _ => {}
    }
    row
}

/// These needs ask for no report on their slots any more. No memory.
pub(crate) fn retire(slots: &mut SlotRows, needs: &[Asked])
    requires there { (i : ℕ) (need : Need) → slice_get needs.now i ≡ Some need
        → need.slot < length slots.old }
    requires asked { (s : ℕ) (c : Condition) → s < length slots.old → is_reported c ≡ true
        → counted (asks_of s c) needs.now ≤ askers_on c (get_or slots.old s no_slot) }
    ensures { Retires needs.now slots.old slots.new }
{
    for need in needs {
        let row = slots.row(need.slot);
        slots.set(need.slot, unask(row, need.condition));
    }
}

/// Each fresh action that is blocked asks for no report any more, and none is fresh then. No memory.
pub fn retire_fresh(
    slots: &mut SlotRows,
    fresh: &mut RankRow,
    rows: &ActionRows,
    declared: &Declared,
    actions: &[Action],
)
    ghost run: { History }
    requires declared { declared.now ≡ run.setup.declared }
    requires actions { actions.now ≡ run.setup.actions }
    requires whole { IsWhole run.setup.declared }
    requires size { length fresh.old ≡ length actions.now }
    requires same { length rows.now.states ≡ length actions.now }
    requires blocked { (a : ℕ) → blocked_in rows.now a ≡ true
        → is_pending run.setup run.past a ≡ false }
    requires asking { AreSlotsWhile run.setup run.past (still_asks run rows.now fresh.old)
        slots.old }
    ensures watched { AreSlots run.setup run.past slots.new }
    ensures none { (a : ℕ) → is_pending_in fresh.new a ≡ false }
    ensures size { length fresh.new ≡ length fresh.old }
{
    while let Some(action) = fresh.first() {
        fresh.put(action, None);
        if let State::Blocked = rows.state(action) {
            retire(slots, needs_of(declared, actions, action));
        }
    }
}

/// What the slot of a start needs. No memory.
pub(crate) fn needs_of<'a>(declared: &'a Declared, actions: &[Action], action: u32) -> &'a [Asked]
    ensures { result.now ≡ slot_needs declared.now (kind_of actions.now action) }
{
    match actions.get(action as usize) {
        Some(found) => match found.kind {
            ActionKind::StartSlot { slot } => match declared.slots.get(slot as usize) {
                Some(slot) => slot.needs.as_slice(),
                None => &[],
            },
            _ => &[],
        },
        None => &[],
    }
}
