ghost use Rattle.std.specs.Prelude.{◌≡◌, ◌++◌, ◌≤◌, if◌then◌else◌, length, IfOk, OnOk};
ghost use Rattle.tree_base.specs.ByteOrder.{is_before};
ghost use Rattle.tree_base.specs.Limits.{most_log_slots};
ghost use Rattle.std.specs.Option.{option_copied};
ghost use Rattle.logs_run.specs.Slots.{container_of, has_terminal, tasks, tasks_of};

use engine_types::{Declared, Listed, Slot};
use run_lookups::is_of_slot;
use std::alloc::Global;
use tree_base::{List, Memory, Text, TryCopy};

/// A slot whose container is asked what it wrote.
#[derive(Drop)]
pub struct Task {
    /// The slot's place among the declared ones.
    pub slot: u32,
    /// The container's id.
    pub id: Text,
}

/// What is asked of each slot, in their order.
pub(crate) fn all_tasks(
    alloc: Global,
    declared: &Declared,
    rows: &[Listed],
) -> Result<List<Task>, Memory>
    requires { length declared.now.slots ≤ most_log_slots }
    ensures { IfOk result (λ all. all ≡ tasks declared.now rows.now) }
{
    let slots = declared.slots.as_slice();
    let mut all = List::new(alloc);
    for (at, slot) in slots.iter().enumerate() {
        put_task(alloc, declared, rows, slot, at as u32, &mut all)?;
    }
    Ok(all)
}

/// Puts what is asked of the slot at a place.
fn put_task(
    alloc: Global,
    declared: &Declared,
    rows: &[Listed],
    slot: &Slot,
    at: u32,
    all: &mut List<Task>,
) -> Result<(), Memory>
    ensures { OnOk result (all.new ≡ all.old
        ++ tasks_of at (has_terminal slot.now) (container_of declared.now rows.now slot.now)) }
{
    if has_terminal(slot) {
        return Ok(());
    }
    if let Some(row) = container_of(alloc, declared, rows, slot)? {
        let id = row.id.copy(alloc)?;
        all.push(Task { slot: at, id })?;
    }
    Ok(())
}

/// Whether a slot's container has a terminal. No memory.
pub(crate) fn has_terminal(slot: &Slot) -> bool
    ensures { result ≡ has_terminal slot.now }
{
    slot.spec.get().tty.unwrap_or(false)
}

/// The container of a slot: of those with its labels the one whose id is least in byte order.
pub(crate) fn container_of<'a>(
    alloc: Global,
    declared: &Declared,
    rows: &'a [Listed],
    slot: &Slot,
) -> Result<Option<&'a Listed>, Memory>
    ensures { IfOk result (λ row. option_copied row ≡ container_of declared.now rows.now slot.now) }
{
    let mut best = None;
    for at in (0..rows.len()).rev() {
        let row = &rows[at];
        if is_of_slot(alloc, &declared.project, slot, &row.labels)? {
            best = match best {
                Some(other) => Some(lesser(other, row)),
                None => Some(row),
            };
        }
    }
    Ok(best)
}

/// Of two rows the first where its id is less, else the second. No memory.
fn lesser<'a>(other: &'a Listed, row: &'a Listed) -> &'a Listed
    ensures { result.now ≡ (if is_before other.now.id row.now.id then other.now else row.now) }
{
    if other.id < row.id { other } else { row }
}
