ghost use Rattle.std.specs.Prelude.{◌≡◌, ℕ, ◌+◌, ◌<◌, ◌≤◌, ◌==◌, length, slice_get};
ghost use Rattle.tree_base.specs.Limits.{count_bound};
ghost use Rattle.ledger_rows.specs.ActionRows.{lack_at};
ghost use Rattle.ledger_rows.specs.Counts.{counted};

use crate::action_rows::ActionRows;

/// One need fewer keeps each of these actions, as often as it stands there. No memory.
pub fn release(rows: &mut ActionRows, released: &[u32])
    requires same { length rows.old.lacks ≡ length rows.old.states }
    requires there { (i a : ℕ) → slice_get released.now i ≡ Some a → a < length rows.old.states }
    requires kept { (a : ℕ) → counted (λ b. b == a) released.now ≤ lack_at rows.old a }
    ensures states { rows.new.states ≡ rows.old.states }
    ensures size { length rows.new.lacks ≡ length rows.old.lacks }
    ensures lacks { (a : ℕ)
        → lack_at rows.new a + counted (λ b. b == a) released.now ≡ lack_at rows.old a }
{
    for action in released {
        let lack = rows.lack(*action);
        rows.set_lack(*action, lack - 1);
    }
}

/// One need more keeps each of these actions, as often as it stands there. No memory.
pub(crate) fn raise(rows: &mut ActionRows, kept: &[u32])
    requires same { length rows.old.lacks ≡ length rows.old.states }
    requires there { (i a : ℕ) → slice_get kept.now i ≡ Some a → a < length rows.old.states }
    requires small { (a : ℕ)
        → lack_at rows.old a + counted (λ b. b == a) kept.now < count_bound }
    ensures states { rows.new.states ≡ rows.old.states }
    ensures size { length rows.new.lacks ≡ length rows.old.lacks }
    ensures lacks { (a : ℕ)
        → lack_at rows.new a ≡ lack_at rows.old a + counted (λ b. b == a) kept.now }
{
    for action in kept {
        let lack = rows.lack(*action);
        rows.set_lack(*action, lack + 1);
    }
}
