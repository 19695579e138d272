ghost use Rattle.std.specs.Prelude.{◌≡◌, ◌<◌, ℕ, [], if◌then◌else◌, None, Some, IfOk, get_or, length};
ghost use Rattle.slot_rows.specs.Keys.{no_slot};
ghost use Rattle.start_rows.specs.Firsts.{first_slot, row_of};

use crate::needs::small;
use engine_types::{Declared, Slot};
use run_model::Verdict;
use slot_rows::SlotRow;
use std::alloc::Global;
use tree_base::{List, Memory};

/// The first row of each slot: its reports count at once where no action starts it, nothing was reported, and the starts that
/// ask for it are those in its rows.
pub fn first_slots(
    alloc: Global,
    declared: &Declared,
    starts: &[Option<u32>],
    healthy: &[List<u32>],
    completed: &[List<u32>],
    wait: bool,
) -> Result<Vec<SlotRow>, Memory>
    requires starts { length starts.now ≡ length declared.now.slots }
    requires healthy { length healthy.now ≡ length declared.now.slots }
    requires completed { length completed.now ≡ length declared.now.slots }
    ensures size { IfOk result (λ rows. length rows.items ≡ length declared.now.slots) }
    ensures each { IfOk result (λ rows. (s : ℕ) → s < length declared.now.slots
        → get_or rows.items s no_slot
        ≡ first_slot declared.now wait starts.now healthy.now completed.now s) }
{
    let mut rows = Vec::new(alloc);
    for (at, slot) in declared.slots.as_slice().iter().enumerate() {
        let healthy_askers = small(healthy[at].len())?;
        let completed_askers = small(completed[at].len())?;
        let row = row_of(slot, starts[at], healthy_askers, completed_askers, wait);
        rows.push(row)?;
    }
    Ok(rows)
}

/// The first row of a slot with this start, for which so many needs ask. No memory.
fn row_of(
    slot: &Slot,
    start: Option<u32>,
    healthy_askers: u32,
    completed_askers: u32,
    wait: bool,
) -> SlotRow
    ensures { result ≡ row_of slot.now.goal start healthy_askers completed_askers wait }
{
    SlotRow {
        counts: start.is_none(),
        out: false,
        polls: 0,
        healthy: Verdict::NotYet,
        completed: Verdict::NotYet,
        running: Verdict::NotYet,
        healthy_askers,
        completed_askers,
        goal: if wait { Some(slot.goal) } else { None },
    }
}
