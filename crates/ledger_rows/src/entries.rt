ghost use Rattle.std.specs.Prelude.{◌≡◌, ◌++◌, ◌∷◌, [], ℕ, ◌<◌, length, true, false};
ghost use Rattle.engine_types.specs.declared.Entry.{Entry};
ghost use Rattle.engine_types.specs.declared.Outcome.{Outcome};
ghost use Rattle.run_model.specs.Journals.{Badly, Well, ended_as};
ghost use Rattle.run_model.specs.Plans.{kind_of};
ghost use Rattle.ledger_rows.specs.ActionRows.{is_ready};
ghost use Rattle.ledger_rows.specs.Entries.{AreReleased, Ending, GoodEnding, IsDueTo, Page, RowsSay};
ghost use Rattle.ledger_rows.specs.Rows.{IsNet, is_pending_in, was_blocked};

use crate::action_rows::{ActionRows, State};
use crate::blocking::lose;
use crate::releasing::release;
use rank_rows::RankRow;
use tree_base::List;

/// An action that may be claimed is claimed, by any worker. No memory.
pub fn claim(rows: &mut ActionRows, action: u32)
    ghost run: { Page }
    requires said { RowsSay run.setup run.journal rows.old }
    requires there { action < length rows.old.states }
    requires ready { is_ready rows.old action ≡ true }
    ensures { (w : ℕ) → RowsSay run.setup (run.journal ++ Entry.Claim w action ∷ []) rows.new }
{
    rows.set_state(action, State::Out);
}

/// A claimed action ends well, by the entry at this place of the journal, which lets others go. No memory.
pub fn end_well(rows: &mut ActionRows, action: u32, at: usize, released: &[u32])
    ghost run: { GoodEnding }
    requires said { RowsSay run.setup run.journal rows.old }
    requires there { action < length rows.old.states }
    requires due { IsDueTo run.setup run.journal run.worker action }
    requires good { ended_as (kind_of run.setup.actions action) (Outcome.Answered run.reply)
        ≡ Well run.reply }
    requires last { at ≡ length run.journal }
    requires released { AreReleased run.setup action released.now }
    ensures { RowsSay run.setup
        (run.journal ++ Entry.Ended run.worker (Outcome.Answered run.reply) ∷ []) rows.new }
{
    rows.set_state(action, State::Well(at));
    release(rows, released);
}

/// A claimed action ends otherwise than well. What that blocks is blocked, whatever is blocked by it in turn too, and what
/// waited for it without requiring it is let go. Those that are blocked are fresh then. No memory.
pub fn end_badly(
    rows: &mut ActionRows,
    pending: &mut RankRow,
    fresh: &mut RankRow,
    action: u32,
    stopped: &[List<u32>],
    freed: &[List<u32>],
)
    ghost run: { Ending }
    requires said { RowsSay run.setup run.journal rows.old }
    requires there { action < length rows.old.states }
    requires due { IsDueTo run.setup run.journal run.worker action }
    requires bad { ended_as (kind_of run.setup.actions action) run.outcome ≡ Badly }
    requires net { IsNet run.setup stopped.now freed.now }
    requires none { (a : ℕ) → is_pending_in pending.old a ≡ false }
    requires size { length pending.old ≡ length rows.old.states }
    requires fresh_size { length fresh.old ≡ length rows.old.states }
    ensures said { RowsSay run.setup (run.journal ++ Entry.Ended run.worker run.outcome ∷ [])
        rows.new }
    ensures none { (a : ℕ) → is_pending_in pending.new a ≡ false }
    ensures size { length pending.new ≡ length rows.new.states }
    ensures before { (a : ℕ) → was_blocked rows.new fresh.new a
        ≡ was_blocked rows.old fresh.old a }
    ensures fresh_size { length fresh.new ≡ length rows.new.states }
{
    rows.set_state(action, State::Badly);
    pending.put(action, Some(0));
    lose(rows, pending, fresh, stopped, freed);
}
