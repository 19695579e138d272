ghost use Rattle.std.specs.Prelude.{◌≡◌, OnErr, OnOk, is_some};
ghost use Rattle.memory_engine.specs.Ticking.{is_running as is_running_state};
ghost use Rattle.tree_base.specs.Entries.{value_at};
ghost use Rattle.shared_hand.specs.Settling.{change_at, changed_by, is_scripted, looked_after, settled_at, settles};

use engine_types::{ContainerRow, ContainerState, Health};
use memory_engine::{Change, MemoryEngine, Tick};
use std::alloc::Global;
use tree_base::{Memory, Text, TextMap};

/// Lets the container with an id settle at a look, and notes that look. Where there is no memory for it, nothing changes.
pub(crate) fn settle_at(
    alloc: Global,
    memory: &mut MemoryEngine,
    looked: &mut TextMap<()>,
    id: &Text,
) -> Result<(), Memory>
    ensures engine { OnOk result (memory.new.engine
        ≡ settled_at looked.old memory.old.script memory.old.engine id.now) }
    ensures looked { OnOk result (looked.new
        ≡ looked_after looked.old memory.old.script memory.old.engine id.now) }
    ensures err { OnErr result (memory.new.engine ≡ memory.old.engine) }
    ensures unlooked { OnErr result (looked.new ≡ looked.old) }
    ensures script { memory.new.script ≡ memory.old.script }
    ensures plan { memory.new.faults ≡ memory.old.faults }
    ensures made { memory.new.made ≡ memory.old.made }
    ensures catalogue { memory.new.catalogue ≡ memory.old.catalogue }
{
    let Some(row) = memory.container(id) else {
        return Ok(());
    };
    if !settles(memory, row) {
        return Ok(());
    }
    let change = change_at(was_looked_at(looked, id), row.report.health);
    looked.put(id.copy(alloc)?, ())?;
    make(memory, id, change);
    Ok(())
}

/// Whether a container settles where it is looked at: it runs, and no script speaks of it. No memory.
fn settles(memory: &MemoryEngine, row: &ContainerRow) -> bool
    ensures { result ≡ settles memory.now.script row.now }
{
    is_running(row.report.state) && !is_scripted(memory.script.as_slice(), &row.name)
}

fn is_running(state: ContainerState) -> bool
    ensures { result ≡ is_running_state state }
{
    match state {
        ContainerState::Running => true,
        _ => false,
    }
}

fn is_scripted(script: &[Tick], name: &Text) -> bool
    ensures { result ≡ is_scripted script.now name.now }
{
    script.iter().any(|tick| *name == tick.container)
}

/// Whether the container with an id was looked at before. No memory.
fn was_looked_at(looked: &TextMap<()>, id: &Text) -> bool
    ensures { result ≡ is_some (value_at looked.now id.now) }
{
    looked.get(id).is_some()
}

/// The change of a container that settles, where it was looked at before or not. No memory.
fn change_at(again: bool, health: Health) -> Option<Change>
    ensures { result ≡ change_at again health }
{
    match health {
        Health::Healthy => None,
        Health::Absent if again => Some(Change::Exit(0)),
        Health::Absent => None,
        Health::Starting | Health::Unhealthy => Some(Change::Health(Health::Healthy)),
    }
}

/// Lets the container with an id make a change by itself, or none. No memory.
fn make(memory: &mut MemoryEngine, id: &Text, change: Option<Change>)
    ensures engine { memory.new.engine ≡ changed_by memory.old.engine id.now change }
    ensures script { memory.new.script ≡ memory.old.script }
    ensures plan { memory.new.faults ≡ memory.old.faults }
    ensures made { memory.new.made ≡ memory.old.made }
    ensures catalogue { memory.new.catalogue ≡ memory.old.catalogue }
{
    if let Some(change) = change {
        memory.change(id, change);
    }
}
