ghost use Rattle.std.specs.Prelude.{◌≡◌, ◌<◌, ℕ, None, IfOk, get_or, length};
ghost use Rattle.tree_base.specs.Limits.{count_bound};
ghost use Rattle.plan_rows.specs.Firsts.{first_of};
ghost use Rattle.start_rows.specs.Laws.{place_count};
ghost use Rattle.ledger_start.specs.Outsets.{MayStart};

use crate::outset::Outset;
use engine_types::Declared;
use plan_rows::{Row, first_rows};
use std::alloc::Global;
use tree_base::limits::COUNT_BOUND;
use tree_base::{List, Memory};

/// For each slot or network its action of this row; there is none where it is past the last one. There is no room for more of
/// them than 32 bits number.
pub(crate) fn first_actions(
    alloc: Global,
    outset: &Outset<'_>,
    row: Row,
) -> Result<List<Option<u32>>, Memory>
    requires { MayStart outset.now }
    ensures size { IfOk result (λ places.
        length places ≡ place_count row outset.now.declared.now) }
    ensures few { IfOk result (λ places. length places < count_bound) }
    ensures each { IfOk result (λ places. (s : ℕ)
        → get_or places s None ≡ first_of row outset.now.plan.now.actions s) }
{
    let count = count_of(row, outset.declared)?;
    let places = first_rows(alloc, row, outset.plan.actions.as_slice(), count)?;
    Ok(List::from_vec(places))
}

/// How many slots or networks there are.
fn count_of(row: Row, declared: &Declared) -> Result<u32, Memory>
    ensures same { IfOk result (λ count. count ≡ place_count row declared.now) }
    ensures few { IfOk result (λ count. count < count_bound) }
{
    let count = match row {
        Row::Starts => declared.slots.len(),
        Row::Creates => declared.slots.len(),
        Row::Makes => declared.networks.len(),
    };
    if count < COUNT_BOUND {
        Ok(count as u32)
    } else {
        Err(Memory)
    }
}
