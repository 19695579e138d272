ghost use Rattle.std.specs.Prelude.{◌≡◌, ◌≤◌, IfOk, insert, length};
ghost use Rattle.memory_engine.specs.Listing.{listed_row, listing, network_names, with_name};

use crate::look_ups;
use engine_types::{ContainerRow, Engine, Listed, Reply};
use run_lookups::is_of_project;
use std::alloc::Global;
use std::cmp::Ordering;
use tree_base::{List, Memory, Text, TryCopy};

/// The containers of a project.
pub fn list(alloc: Global, engine: &Engine, project: &Text) -> Result<Reply, Memory>
    ensures { IfOk result (λ reply. reply ≡ Reply.Containers (listing engine.now project.now)) }
{
    let mut rows = List::new(alloc);
    for row in engine.containers.as_slice() {
        if is_of_project(project, &row.labels) {
            rows.push(listed(alloc, engine, row)?)?;
        }
    }
    Ok(Reply::Containers(rows))
}

/// A container as the listing shows it.
fn listed(alloc: Global, engine: &Engine, row: &ContainerRow) -> Result<Listed, Memory>
    ensures { IfOk result (λ l. l ≡ listed_row engine.now row.now) }
{
    Ok(Listed {
        id: row.id.copy(alloc)?,
        name: row.name.copy(alloc)?,
        image_id: row.image_id.copy(alloc)?,
        labels: row.labels.copy(alloc)?,
        state: row.report.state,
        networks: names_of(alloc, engine, row.networks.as_slice())?,
    })
}

/// The names of networks, in byte order and each once.
fn names_of(alloc: Global, engine: &Engine, ids: &[Text]) -> Result<List<Text>, Memory>
    ensures { IfOk result (λ names. names ≡ network_names engine.now ids.now) }
{
    let mut names = Vec::new(alloc);
    for id in ids {
        if let Some(row) = look_ups::network(engine, id) {
            put_name(alloc, &mut names, &row.name)?;
        }
    }
    Ok(List::from_vec(names))
}

/// Puts a name among names in byte order, where it isn't there yet.
fn put_name(alloc: Global, names: &mut Vec<Text>, name: &Text) -> Result<(), Memory>
    ensures { IfOk result (λ _. names.new.items ≡ with_name names.old.items name.now) }
{
    for (at, other) in names.iter().enumerate() {
        match name.cmp(other) {
            Ordering::Less => return put_at(alloc, names, at, name),
            Ordering::Equal => return Ok(()),
            Ordering::Greater => {}
        }
    }
    names.push(name.copy(alloc)?)?;
    Ok(())
}

/// Puts a copy of a name at a place.
fn put_at(alloc: Global, names: &mut Vec<Text>, at: usize, name: &Text) -> Result<(), Memory>
    requires { at ≤ length names.old.items }
    ensures { IfOk result (λ _. names.new.items ≡ insert names.old.items at name.now) }
{
    names.insert(at, name.copy(alloc)?)?;
    Ok(())
}
