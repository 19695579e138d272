ghost use Rattle.std.specs.Prelude.{◌≡◌, ◌++◌, IfOk, OnOk, flat_map, map};
ghost use Rattle.notes.specs.Orphans.{has_service, is_orphan, orphan_name, orphan_names, orphan_note};

use crate::containers::{note_on, rows_told};
use compose_words::Command;
use engine_types::{Exchange, Listed, Pairs, label, labels};
use run_lookups::{is_of_project, shown};
use std::alloc::Global;
use tree_base::{Map, Memory, Text};

/// What is said of an `up` that takes no orphans along, by the project's name, the services of its files by their keys, and the run's
/// exchanges: of the containers of the project that these list, and whose service is none of its files.
pub fn orphan_note(
    alloc: Global,
    command: &Command,
    project: &Text,
    services: &Map,
    exchanges: &[&Exchange],
) -> Result<Option<Text>, Memory>
    ensures { IfOk result (λ note. note ≡ orphan_note command.now project.now services.now
        (map (λ exchange. exchange.now) exchanges.now)) }
{
    match command {
        Command::Up { orphans, .. } => {
            if *orphans {
                Ok(None)
            } else {
                let names = orphan_names(alloc, project, services, exchanges)?;
                note_on(alloc, names.as_str())
            }
        }
        _ => Ok(None),
    }
}

/// The names of the orphans that exchanges list, each behind a space.
fn orphan_names(
    alloc: Global,
    project: &Text,
    services: &Map,
    exchanges: &[&Exchange],
) -> Result<Text, Memory>
    ensures { IfOk result (λ names. names ≡ orphan_names project.now services.now
        (map (λ exchange. exchange.now) exchanges.now)) }
{
    let mut names = Text::new(alloc);
    for exchange in exchanges {
        push_orphans(alloc, project, services, rows_told(exchange), &mut names)?;
    }
    Ok(names)
}

fn push_orphans(
    alloc: Global,
    project: &Text,
    services: &Map,
    rows: &[Listed],
    names: &mut Text,
) -> Result<(), Memory>
    ensures { OnOk result (names.new
        ≡ names.old ++ flat_map (orphan_name project.now services.now) rows.now) }
{
    for row in rows {
        push_orphan(alloc, project, services, row, names)?;
    }
    Ok(())
}

fn push_orphan(
    alloc: Global,
    project: &Text,
    services: &Map,
    row: &Listed,
    names: &mut Text,
) -> Result<(), Memory>
    ensures { OnOk result (names.new
        ≡ names.old ++ orphan_name project.now services.now row.now) }
{
    if is_orphan(project, services, &row.labels) {
        let name = shown(alloc, row.name.as_str())?;
        names.push_str(" ")?;
        names.push_str(name.as_str())?;
    }
    Ok(())
}

/// Whether labels are those of a container of the project, and name none of these services.
fn is_orphan(project: &Text, services: &Map, pairs: &Pairs) -> bool
    ensures { result ≡ is_orphan project.now services.now pairs.now }
{
    is_of_project(project, pairs) && !has_service(services, pairs)
}

/// Whether labels name one of these services.
fn has_service(services: &Map, pairs: &Pairs) -> bool
    ensures { result ≡ has_service services.now pairs.now }
{
    match label(pairs, labels::SERVICE) {
        Some(service) => services.get(service).is_some(),
        None => false,
    }
}
