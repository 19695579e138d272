ghost use Rattle.std.specs.Prelude.{◌≡◌, if◌then◌else◌, IfOk};
ghost use Rattle.std.specs.Option.{option_copied};
ghost use Rattle.tree_base.specs.ByteOrder.{is_before};
ghost use Rattle.wait_run.specs.Goals.{FindsAll};
ghost use Rattle.wait_run.specs.Looks.{row_of};
ghost use Rattle.wait_run.specs.Taking.{PutsGoal};

use crate::goals::Goals;
use crate::refusal::WaitRefusal;
use engine_types::{Declared, Listed, Slot};
use run_lookups::is_of_slot;
use std::alloc::Global;
use tree_base::{Memory, Text, TryCopy};

/// The goals of all slots, none looked at yet, each with its container in the listing. NotThere where a slot has none: the first
/// of these.
pub(crate) fn goals_of(
    alloc: Global,
    declared: &Declared,
    rows: &[Listed],
) -> Result<Goals, WaitRefusal>
    ensures { FindsAll declared.now rows.now result }
{
    let mut goals = Goals::new(alloc);
    for slot in declared.slots.as_slice() {
        put_goal(alloc, &declared.project, slot, rows, &mut goals)?;
    }
    Ok(goals)
}

/// Puts the goal of the next slot last, with its container in the listing. NotThere where it has none.
fn put_goal(
    alloc: Global,
    project: &Text,
    slot: &Slot,
    rows: &[Listed],
    goals: &mut Goals,
) -> Result<(), WaitRefusal>
    ensures { PutsGoal project.now rows.now slot.now goals.old goals.new result }
{
    match row_of(alloc, project, slot, rows)? {
        Some(row) => {
            goals.push(alloc, slot.goal, &row.id)?;
            Ok(())
        }
        None => {
            let name = slot.name.copy(alloc)?;
            Err(WaitRefusal::NotThere { slot: name })
        }
    }
}

/// The row of a slot's container: of those of the project with its service and its number the one with the least id.
fn row_of<'r>(
    alloc: Global,
    project: &Text,
    slot: &Slot,
    rows: &'r [Listed],
) -> Result<Option<&'r Listed>, Memory>
    ensures { IfOk result (λ row. option_copied row ≡ row_of project.now rows.now slot.now) }
{
    let mut least = None;
    for at in (0..rows.len()).rev() {
        let row = &rows[at];
        if is_of_slot(alloc, project, slot, &row.labels)? {
            least = match least {
                Some(other) => Some(lesser(other, row)),
                None => Some(row),
            };
        }
    }
    Ok(least)
}

/// Of two rows the first where its id is less, else the second. No memory.
fn lesser<'r>(other: &'r Listed, row: &'r Listed) -> &'r Listed
    ensures { result.now ≡ (if is_before other.now.id row.now.id then other.now else row.now) }
{
    if other.id < row.id { other } else { row }
}
