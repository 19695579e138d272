ghost use Rattle.std.specs.Prelude.{◌≡◌, IfOk};
ghost use Rattle.ledger_start.specs.Outsets.{MayStart, start_setup};
ghost use Rattle.ledger_start.specs.Starts.{ArePlaces, containers_of};

use crate::actions::first_actions;
use crate::outset::Outset;
use crate::seconds::all_seconds;
use engine_types::{Listed, SeenEnd};
use ledger_core::Places;
use plan_rows::Row;
use std::alloc::Global;
use tree_base::Memory;

/// Where requests find what they name.
pub(crate) fn places_of(alloc: Global, outset: &Outset<'_>) -> Result<Places, Memory>
    requires { MayStart outset.now }
    ensures { IfOk result (λ places. ArePlaces (start_setup outset.now) places) }
{
    let creates = first_actions(alloc, outset, Row::Creates)?;
    let makes = first_actions(alloc, outset, Row::Makes)?;
    let rows = containers(&outset.observed.end);
    let seconds = all_seconds(alloc, outset.declared, outset.limits, rows)?;
    Ok(Places {
        creates,
        makes,
        seconds,
    })
}

/// The containers that were seen. No memory.
fn containers(end: &SeenEnd) -> &[Listed]
    ensures { result.now ≡ containers_of end.now }
{
    match end {
        SeenEnd::Good(seen) => seen.containers.as_slice(),
        SeenEnd::Bad(_) => &[],
    }
}
