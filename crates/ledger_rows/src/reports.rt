ghost use Rattle.std.specs.Prelude.{◌≡◌, ◌+◌, ◌<◌, ◌==◌, ℕ, length, true, false};
ghost use Rattle.tree_base.specs.Limits.{count_bound};
ghost use Rattle.run_model.specs.Conditions.{is_started};
ghost use Rattle.ledger_rows.specs.ActionRows.{lack_at};
ghost use Rattle.ledger_rows.specs.Counts.{counted};
ghost use Rattle.ledger_rows.specs.Facts.{AreSound, FailsOne, MeetsOne, counts_by};
ghost use Rattle.ledger_rows.specs.Reports.{AreAsking, ArePreferring, AreRequiring, Change};
ghost use Rattle.ledger_rows.specs.Rows.{AreRows, IsNet, is_pending_in, was_blocked};

use crate::action_rows::ActionRows;
use crate::blocking::{block, lose};
use crate::releasing::{raise, release};
use rank_rows::RankRow;
use tree_base::List;

/// A report meets a condition of a slot, which hasn't failed: each need that asks for it lets its start go. No memory.
pub fn meet(rows: &mut ActionRows, asking: &[u32])
    ghost report: { Change }
    requires said { AreRows report.setup report.before report.journal rows.old }
    requires one { MeetsOne report.before report.after report.slot report.condition }
    requires later { is_started report.condition ≡ false }
    requires counts { counts_by report.setup report.before report.slot ≡ true }
    requires asking { AreAsking report.setup report.slot report.condition asking.now }
    ensures said { AreRows report.setup report.after report.journal rows.new }
    ensures states { rows.new.states ≡ rows.old.states }
{
    release(rows, asking);
}

/// Takes back that a report met a condition of a slot, before that fails: each need that asks for it keeps its start
/// again. No memory.
pub fn unmeet(rows: &mut ActionRows, asking: &[u32])
    ghost report: { Change }
    requires said { AreRows report.setup report.after report.journal rows.old }
    requires one { MeetsOne report.before report.after report.slot report.condition }
    requires later { is_started report.condition ≡ false }
    requires counts { counts_by report.setup report.before report.slot ≡ true }
    requires asking { AreAsking report.setup report.slot report.condition asking.now }
    requires small { (a : ℕ)
        → lack_at rows.old a + counted (λ b. b == a) asking.now < count_bound }
    ensures said { AreRows report.setup report.before report.journal rows.new }
    ensures states { rows.new.states ≡ rows.old.states }
{
    raise(rows, asking);
}

/// A report fails a condition of a slot, which wasn't met: each start that requires it is blocked, and whatever that blocks
/// in turn; each need that doesn't require it lets its start go. Those that are blocked are fresh then. No memory.
pub fn fail(
    rows: &mut ActionRows,
    pending: &mut RankRow,
    fresh: &mut RankRow,
    required: &[u32],
    optional: &[u32],
    stopped: &[List<u32>],
    freed: &[List<u32>],
)
    ghost report: { Change }
    requires said { AreRows report.setup report.before report.journal rows.old }
    requires one { FailsOne report.before report.after report.slot report.condition }
    requires later { is_started report.condition ≡ false }
    requires counts { counts_by report.setup report.before report.slot ≡ true }
    requires required { AreRequiring report.setup report.slot report.condition required.now }
    requires optional { ArePreferring report.setup report.slot report.condition optional.now }
    requires net { IsNet report.setup stopped.now freed.now }
    requires sound { AreSound report.setup report.after }
    requires none { (a : ℕ) → is_pending_in pending.old a ≡ false }
    requires size { length pending.old ≡ length rows.old.states }
    requires fresh_size { length fresh.old ≡ length rows.old.states }
    ensures said { AreRows report.setup report.after report.journal rows.new }
    ensures none { (a : ℕ) → is_pending_in pending.new a ≡ false }
    ensures size { length pending.new ≡ length rows.new.states }
    ensures before { (a : ℕ) → was_blocked rows.new fresh.new a
        ≡ was_blocked rows.old fresh.old a }
    ensures fresh_size { length fresh.new ≡ length rows.new.states }
{
    release(rows, optional);
    block(rows, pending, required);
    lose(rows, pending, fresh, stopped, freed);
}
