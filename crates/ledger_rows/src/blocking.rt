ghost use Rattle.std.specs.Prelude.{◌≡◌, ℕ, ◌+◌, ◌<◌, ◌≤◌, ◌==◌, ◌&&◌, not, length, slice_get, Some, None, false};
ghost use Rattle.ledger_rows.specs.Facts.{AreSound};
ghost use Rattle.ledger_rows.specs.Rows.{AreLosing, AreRows, Blocks, Ground, IsNet, is_pending_in, was_blocked, work};

use crate::action_rows::{ActionRows, State};
use crate::releasing::release;
use rank_rows::RankRow;
use tree_base::List;

/// Marks those of these actions that may still be claimed as blocked; their own loss is then to be carried on.
pub(crate) fn block(rows: &mut ActionRows, pending: &mut RankRow, stopped: &[u32])
    requires same { length pending.old ≡ length rows.old.states }
    requires there { (i a : ℕ) → slice_get stopped.now i ≡ Some a → a < length rows.old.states }
    ensures { Blocks stopped.now rows.old rows.new pending.old pending.new }
{
    for action in stopped {
        if let State::Free = rows.state(*action) {
            rows.set_state(*action, State::Blocked);
            pending.put(*action, Some(0));
        }
    }
}

/// Carries on each loss that waits: the actions that it stops are blocked, and lost in turn; needs that can no longer be
/// met let the others go. Each action is lost at most once, and is fresh then.
pub fn lose(
    rows: &mut ActionRows,
    pending: &mut RankRow,
    fresh: &mut RankRow,
    stopped: &[List<u32>],
    freed: &[List<u32>],
)
    ghost ground: { Ground }
    requires net { IsNet ground.setup stopped.now freed.now }
    requires sound { AreSound ground.setup ground.facts }
    requires losing { AreLosing ground.setup ground.facts ground.journal rows.old pending.old }
    requires same { length fresh.old ≡ length rows.old.states }
    ensures rows { AreRows ground.setup ground.facts ground.journal rows.new }
    ensures none { (a : ℕ) → is_pending_in pending.new a ≡ false }
    ensures size { length pending.new ≡ length pending.old }
    ensures before { (a : ℕ) → was_blocked rows.new fresh.new a
        ≡ (was_blocked rows.old fresh.old a && not (is_pending_in pending.old a)) }
    ensures fresh_size { length fresh.new ≡ length fresh.old }
{
    while let Some(action) = pending.first() {
        pending.put(action, None);
        fresh.put(action, Some(0));
        let at = action as usize;
        release(rows, freed[at].as_slice());
        block(rows, pending, stopped[at].as_slice());
    }
}
