ghost use Rattle.std.specs.Prelude.{◌≡◌, IfOk, find};
ghost use Rattle.std.specs.Option.{option_map_or};
ghost use Rattle.tree_base.specs.Limits.{usual_stop_seconds};
ghost use Rattle.run_model.specs.Labels.{names_slot};
ghost use Rattle.run_model.specs.Requests.{stop_seconds};
ghost use Rattle.run_requests.specs.Setups.{setup_of};

use crate::run::Run;
use engine_types::{Declared, Listed};
use run_lookups::names_slot;
use std::alloc::Global;
use tree_base::Memory;
use tree_base::limits::USUAL_STOP_SECONDS;

/// How many seconds the stop of a container waits: as asked for the run, else as the slot of its labels says, else 10. Memory
/// where there is none to compare labels.
pub fn stop_seconds(alloc: Global, run: &Run<'_>, row: &Listed) -> Result<u64, Memory>
    ensures { IfOk result (λ seconds. seconds ≡ stop_seconds (setup_of run.now) row.now) }
{
    match run.limits.stop_seconds {
        Some(seconds) => Ok(u64::from(seconds)),
        None => slot_seconds(alloc, run.declared, row),
    }
}

fn slot_seconds(alloc: Global, declared: &Declared, row: &Listed) -> Result<u64, Memory>
    ensures { IfOk result (λ seconds. seconds
        ≡ option_map_or (λ slot. slot.stop_seconds)
        (find (λ slot. names_slot slot row.now.labels) declared.now.slots) usual_stop_seconds) }
{
    for slot in declared.slots.as_slice() {
        if names_slot(alloc, slot, &row.labels)? {
            return Ok(slot.stop_seconds);
        }
    }
    Ok(USUAL_STOP_SECONDS)
}
