ghost use Rattle.std.specs.Prelude.{◌≡◌, IfOk, length};
ghost use Rattle.ledger_ends.specs.Dependents.{AreAsked, AreDependents};
ghost use Rattle.ledger_ends.specs.Losses.{HasNoLosses};
ghost use Rattle.plan_needs.specs.Laws.{AreStarts, AreTurned};
ghost use Rattle.start_rows.specs.Asks.{AreAskingRows};
ghost use Rattle.ledger_start.specs.Outsets.{MayStart, start_setup};

use crate::outset::Outset;
use engine_types::Condition;
use ledger_ends::{Asking, Dependents, Losses};
use plan_needs::Wait;
use rank_rows::RankRow;
use start_rows::{Ask, asking_rows, dependent_rows};
use std::alloc::Global;
use tree_base::{List, Memory};

/// The rows that the plan fixes. The starts of the slots are by slot.
pub(crate) fn dependents_of(
    alloc: Global,
    outset: &Outset<'_>,
    starts: &[Option<u32>],
) -> Result<Dependents, Memory>
    requires may { MayStart outset.now }
    requires starts { AreStarts (start_setup outset.now) starts.now }
    ensures { IfOk result (λ rows. AreDependents (start_setup outset.now) rows) }
{
    let released = waiting(alloc, outset, starts, Wait::Started)?;
    let stopped = waiting(alloc, outset, starts, Wait::Required)?;
    let freed = waiting(alloc, outset, starts, Wait::Optional)?;
    let healthy = asking_of(alloc, outset, Condition::Healthy)?;
    let completed = asking_of(alloc, outset, Condition::Completed)?;
    Ok(Dependents {
        released,
        stopped,
        freed,
        healthy,
        completed,
    })
}

/// By action, those that wait for it so.
fn waiting(
    alloc: Global,
    outset: &Outset<'_>,
    starts: &[Option<u32>],
    wait: Wait,
) -> Result<List<List<u32>>, Memory>
    requires may { MayStart outset.now }
    requires starts { AreStarts (start_setup outset.now) starts.now }
    ensures size { IfOk result (λ rows. length rows ≡ length outset.now.plan.now.actions) }
    ensures turned { IfOk result (λ rows.
        AreTurned wait (start_setup outset.now) starts.now rows) }
{
    let actions = outset.plan.actions.as_slice();
    let rows = dependent_rows(alloc, wait, outset.declared, actions, starts)?;
    Ok(rows)
}

/// By slot, the starts that ask for a condition of it.
fn asking_of(alloc: Global, outset: &Outset<'_>, condition: Condition) -> Result<Asking, Memory>
    requires { MayStart outset.now }
    ensures { IfOk result (λ rows. AreAsked (start_setup outset.now) condition rows) }
{
    let asking = asked(alloc, outset, Ask::Any, condition)?;
    let required = asked(alloc, outset, Ask::Required, condition)?;
    let optional = asked(alloc, outset, Ask::Optional, condition)?;
    Ok(Asking {
        asking,
        required,
        optional,
    })
}

/// By slot, the starts that ask so for a condition of it.
fn asked(
    alloc: Global,
    outset: &Outset<'_>,
    ask: Ask,
    condition: Condition,
) -> Result<List<List<u32>>, Memory>
    requires { MayStart outset.now }
    ensures size { IfOk result (λ rows. length rows ≡ length outset.now.declared.now.slots) }
    ensures each { IfOk result (λ rows.
        AreAskingRows ask condition (start_setup outset.now) rows) }
{
    let actions = outset.plan.actions.as_slice();
    let rows = asking_rows(alloc, ask, condition, outset.declared, actions)?;
    Ok(rows)
}

/// No losses, with the room for those of all actions.
pub(crate) fn no_losses(alloc: Global, outset: &Outset<'_>) -> Result<Losses, Memory>
    requires { MayStart outset.now }
    ensures { IfOk result (λ losses. HasNoLosses (start_setup outset.now) losses) }
{
    let count = outset.plan.actions.len() as u32;
    let pending = RankRow::new(alloc, count)?;
    let fresh = RankRow::new(alloc, count)?;
    Ok(Losses { pending, fresh })
}
