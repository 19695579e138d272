ghost use Rattle.std.specs.Prelude.{◌≡◌, ◌+◌, ◌<◌, ℕ, false, length, true};
ghost use Rattle.tree_base.specs.Limits.{count_bound};
ghost use Rattle.run_model.specs.Conditions.{is_reported};
ghost use Rattle.run_model.specs.Plans.{kind_of, needs_of, slot_needs};
ghost use Rattle.run_model.specs.declared.verdict.Verdict.{Verdict};
ghost use Rattle.ledger_rows.specs.Facts.{AreSound, counts_by};
ghost use Rattle.ledger_rows.specs.Rows.{AreRows, IsNet, is_pending_in, was_blocked};
ghost use Rattle.ledger_ends.specs.Dependents.{AreAsked};
ghost use Rattle.ledger_polls.specs.Verdicts.{AreReady, News, facts_by, facts_with, may_follow};

use ledger_ends::{Asking, Dependents, Losses};
use ledger_rows::{ActionRows, fail, meet, unmeet};
use run_model::Verdict as Said;
use slot_rows::SlotRow;

/// A report meets a condition of which nothing was told. No memory.
#[tactic(auto, using(crate::proofs::News::meets_one, crate::proofs::News::later_reported))]
fn meet_open(rows: &mut ActionRows, asked: &Asking, slot: u32)
    ghost news: { News }
    requires slot { slot ≡ news.slot }
    requires said { AreRows news.setup (facts_with news Verdict.NotYet) news.journal rows.old }
    requires reported { is_reported news.condition ≡ true }
    requires counts { counts_by news.setup (facts_by news.stands news.verdicts) news.slot ≡ true }
    requires there { news.slot < length news.setup.declared.slots }
    requires asked { AreAsked news.setup news.condition asked.now }
    ensures said { AreRows news.setup (facts_with news Verdict.Met) news.journal rows.new }
    ensures states { rows.new.states ≡ rows.old.states }
{
    let asking = asked.asking.as_slice();
    meet(rows, asking[slot as usize].as_slice());
}

/// A condition that was met is taken back. No memory.
#[tactic(auto, using(crate::proofs::News::meets_one, crate::proofs::News::later_reported, crate::proofs::News::small_again))]
fn unmeet_met(rows: &mut ActionRows, asked: &Asking, slot: u32)
    ghost news: { News }
    requires slot { slot ≡ news.slot }
    requires said { AreRows news.setup (facts_with news Verdict.Met) news.journal rows.old }
    requires reported { is_reported news.condition ≡ true }
    requires counts { counts_by news.setup (facts_by news.stands news.verdicts) news.slot ≡ true }
    requires there { news.slot < length news.setup.declared.slots }
    requires asked { AreAsked news.setup news.condition asked.now }
    requires few { (a : ℕ) → length (needs_of news.setup.actions a)
        + length (slot_needs news.setup.declared (kind_of news.setup.actions a)) < count_bound }
    ensures said { AreRows news.setup (facts_with news Verdict.NotYet) news.journal rows.new }
    ensures states { rows.new.states ≡ rows.old.states }
{
    let asking = asked.asking.as_slice();
    unmeet(rows, asking[slot as usize].as_slice());
}

/// A report fails a condition of which nothing was told. No memory.
#[tactic(auto, using(crate::proofs::News::fails_one, crate::proofs::News::later_reported))]
fn fail_open(
    rows: &mut ActionRows,
    losses: &mut Losses,
    dependents: &Dependents,
    asked: &Asking,
    slot: u32,
)
    ghost news: { News }
    requires slot { slot ≡ news.slot }
    requires said { AreRows news.setup (facts_with news Verdict.NotYet) news.journal rows.old }
    requires reported { is_reported news.condition ≡ true }
    requires counts { counts_by news.setup (facts_by news.stands news.verdicts) news.slot ≡ true }
    requires sound { AreSound news.setup (facts_with news Verdict.Failed) }
    requires there { news.slot < length news.setup.declared.slots }
    requires asked { AreAsked news.setup news.condition asked.now }
    requires net { IsNet news.setup dependents.now.stopped dependents.now.freed }
    requires ready { AreReady news.setup losses.old }
    ensures said { AreRows news.setup (facts_with news Verdict.Failed) news.journal rows.new }
    ensures ready { AreReady news.setup losses.new }
    ensures before { (a : ℕ) → was_blocked rows.new losses.new.fresh a
        ≡ was_blocked rows.old losses.old.fresh a }
{
    let required = asked.required.as_slice();
    let optional = asked.optional.as_slice();
    fail(
        rows,
        &mut losses.pending,
        &mut losses.fresh,
        required[slot as usize].as_slice(),
        optional[slot as usize].as_slice(),
        dependents.stopped.as_slice(),
        dependents.freed.as_slice(),
    );
}

/// A report fails a condition that was met. No memory.
fn fail_met(
    rows: &mut ActionRows,
    losses: &mut Losses,
    dependents: &Dependents,
    asked: &Asking,
    slot: u32,
)
    ghost news: { News }
    requires slot { slot ≡ news.slot }
    requires said { AreRows news.setup (facts_with news Verdict.Met) news.journal rows.old }
    requires reported { is_reported news.condition ≡ true }
    requires counts { counts_by news.setup (facts_by news.stands news.verdicts) news.slot ≡ true }
    requires sound { AreSound news.setup (facts_with news Verdict.Failed) }
    requires there { news.slot < length news.setup.declared.slots }
    requires asked { AreAsked news.setup news.condition asked.now }
    requires net { IsNet news.setup dependents.now.stopped dependents.now.freed }
    requires ready { AreReady news.setup losses.old }
    requires few { (a : ℕ) → length (needs_of news.setup.actions a)
        + length (slot_needs news.setup.declared (kind_of news.setup.actions a)) < count_bound }
    ensures said { AreRows news.setup (facts_with news Verdict.Failed) news.journal rows.new }
    ensures ready { AreReady news.setup losses.new }
    ensures before { (a : ℕ) → was_blocked rows.new losses.new.fresh a
        ≡ was_blocked rows.old losses.old.fresh a }
{
    unmeet_met(rows, asked, slot);
    fail_open(rows, losses, dependents, asked, slot);
}

/// The verdict on a condition of a slot turns. No memory.
fn turn(
    rows: &mut ActionRows,
    losses: &mut Losses,
    dependents: &Dependents,
    asked: &Asking,
    slot: u32,
    before: Said,
    after: Said,
)
    ghost news: { News }
    requires slot { slot ≡ news.slot }
    requires before { before ≡ news.verdicts news.slot news.condition }
    requires follows { may_follow before after ≡ true }
    requires said { AreRows news.setup (facts_by news.stands news.verdicts) news.journal rows.old }
    requires reported { is_reported news.condition ≡ true }
    requires counts { counts_by news.setup (facts_by news.stands news.verdicts) news.slot ≡ true }
    requires sound { AreSound news.setup (facts_with news after) }
    requires there { news.slot < length news.setup.declared.slots }
    requires asked { AreAsked news.setup news.condition asked.now }
    requires net { IsNet news.setup dependents.now.stopped dependents.now.freed }
    requires ready { AreReady news.setup losses.old }
    requires few { (a : ℕ) → length (needs_of news.setup.actions a)
        + length (slot_needs news.setup.declared (kind_of news.setup.actions a)) < count_bound }
    ensures said { AreRows news.setup (facts_with news after) news.journal rows.new }
    ensures ready { AreReady news.setup losses.new }
    ensures turned { (a : ℕ) → was_blocked rows.new losses.new.fresh a
        ≡ was_blocked rows.old losses.old.fresh a }
{
    match (before, after) {
        (Said::NotYet, Said::Met) => meet_open(rows, asked, slot),
        (Said::NotYet, Said::Failed) => fail_open(rows, losses, dependents, asked, slot),
        (Said::Met, Said::Failed) => fail_met(rows, losses, dependents, asked, slot),
        (Said::NotYet, Said::NotYet) => {}
        (Said::Met, Said::Met) => {}
        (Said::Met, Said::NotYet) => {}
        (Said::Failed, Said::Failed) => {}
        (Said::Failed, Said::Met) => {}
        (Said::Failed, Said::NotYet) => {}
    }
}

/// The verdict on Healthy turns, by a slot's rows before and after a report. No memory.
pub(crate) fn turn_healthy(
    rows: &mut ActionRows,
    losses: &mut Losses,
    dependents: &Dependents,
    slot: u32,
    before: SlotRow,
    after: SlotRow,
)
    ghost news: { News }
    requires slot { slot ≡ news.slot }
    requires before { before.healthy ≡ news.verdicts news.slot news.condition }
    requires follows { may_follow before.healthy after.healthy ≡ true }
    requires said { AreRows news.setup (facts_by news.stands news.verdicts) news.journal rows.old }
    requires reported { is_reported news.condition ≡ true }
    requires counts { counts_by news.setup (facts_by news.stands news.verdicts) news.slot ≡ true }
    requires sound { AreSound news.setup (facts_with news after.healthy) }
    requires there { news.slot < length news.setup.declared.slots }
    requires asked { AreAsked news.setup news.condition dependents.now.healthy }
    requires net { IsNet news.setup dependents.now.stopped dependents.now.freed }
    requires ready { AreReady news.setup losses.old }
    requires few { (a : ℕ) → length (needs_of news.setup.actions a)
        + length (slot_needs news.setup.declared (kind_of news.setup.actions a)) < count_bound }
    ensures said { AreRows news.setup (facts_with news after.healthy) news.journal rows.new }
    ensures ready { AreReady news.setup losses.new }
    ensures turned { (a : ℕ) → was_blocked rows.new losses.new.fresh a
        ≡ was_blocked rows.old losses.old.fresh a }
{
    let asked = &dependents.healthy;
    turn(
        rows,
        losses,
        dependents,
        asked,
        slot,
        before.healthy,
        after.healthy,
    );
}

/// The verdict on Completed turns, by a slot's rows before and after a report. No memory.
pub(crate) fn turn_completed(
    rows: &mut ActionRows,
    losses: &mut Losses,
    dependents: &Dependents,
    slot: u32,
    before: SlotRow,
    after: SlotRow,
)
    ghost news: { News }
    requires slot { slot ≡ news.slot }
    requires before { before.completed ≡ news.verdicts news.slot news.condition }
    requires follows { may_follow before.completed after.completed ≡ true }
    requires said { AreRows news.setup (facts_by news.stands news.verdicts) news.journal rows.old }
    requires reported { is_reported news.condition ≡ true }
    requires counts { counts_by news.setup (facts_by news.stands news.verdicts) news.slot ≡ true }
    requires sound { AreSound news.setup (facts_with news after.completed) }
    requires there { news.slot < length news.setup.declared.slots }
    requires asked { AreAsked news.setup news.condition dependents.now.completed }
    requires net { IsNet news.setup dependents.now.stopped dependents.now.freed }
    requires ready { AreReady news.setup losses.old }
    requires few { (a : ℕ) → length (needs_of news.setup.actions a)
        + length (slot_needs news.setup.declared (kind_of news.setup.actions a)) < count_bound }
    ensures said { AreRows news.setup (facts_with news after.completed) news.journal rows.new }
    ensures ready { AreReady news.setup losses.new }
    ensures turned { (a : ℕ) → was_blocked rows.new losses.new.fresh a
        ≡ was_blocked rows.old losses.old.fresh a }
{
    let asked = &dependents.completed;
    turn(
        rows,
        losses,
        dependents,
        asked,
        slot,
        before.completed,
        after.completed,
    );
}
