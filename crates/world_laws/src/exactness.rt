ghost use Rattle.std.specs.Prelude.{◌≡◌, ◌↔◌, ◌&&◌, true, map, IfOk};
ghost use Rattle.std.specs.List.{list_all, list_any};
ghost use Rattle.std.specs.Option.{option_copied};
ghost use Rattle.run_model.specs.EngineRules.{has_volume, network_has_name};
ghost use Rattle.run_model.specs.Exact.{IsExact, agrees_in, is_attached};
ghost use Rattle.run_model.specs.Labels.{is_of_slot};
ghost use Rattle.world_laws.specs.Exactly.{fits, found_containers, found_networks, holds_network, holds_slot, may_be_there, only_container};

use crate::look_ups::{found_containers, found_networks, has_volume, image_at, network_has_name};
use engine_types::{ContainerRow, Declared, Engine, NetRow, Pairs, Slot};
use run_lookups::{agrees, has_declared_service, is_of_project, is_of_slot, network_name};
use std::alloc::Global;
use tree_base::{Memory, Text};

/// Whether an Engine holds exactly what is declared: of each slot one container, which agrees with the slot (labels,
/// hash, image, and neither dead nor being removed) and is on the slot's networks; of each declared network's name
/// one network; each declared volume; and no other container of the project, but for orphans where `orphans` is false.
/// Of several rows with one id the first alone counts. Memory where there is no memory for it.
pub fn exact(
    alloc: Global,
    declared: &Declared,
    engine: &Engine,
    orphans: bool,
) -> Result<bool, Memory>
    ensures { IfOk result (λ answer. (answer ≡ true) ↔ IsExact declared.now engine.now orphans) }
{
    if !holds_networks(alloc, declared, engine)? || !holds_volumes(declared, engine) {
        return Ok(false);
    }
    holds_containers(alloc, declared, engine, orphans)
}

/// Whether exactly one network has each declared network's name.
fn holds_networks(alloc: Global, declared: &Declared, engine: &Engine) -> Result<bool, Memory>
    ensures { IfOk result (λ answer. answer
        ≡ list_all (λ network. holds_network (found_networks engine.now) network.name)
        declared.now.networks) }
{
    let rows = found_networks(alloc, engine)?;
    Ok(are_single(declared, rows.as_slice()))
}

/// Whether exactly one of these networks has each declared network's name. No memory.
fn are_single(declared: &Declared, rows: &[&NetRow]) -> bool
    ensures { result ≡ list_all (λ network. holds_network
        (map (λ row. row.now) rows.now) network.name) declared.now.networks }
{
    declared
        .networks
        .as_slice()
        .iter()
        .all(|network| is_single(rows, &network.name))
}

/// Whether exactly one of these networks has the name. No memory.
fn is_single(rows: &[&NetRow], name: &Text) -> bool
    ensures { result ≡ holds_network (map (λ row. row.now) rows.now) name.now }
{
    rows.iter().filter(|row| *name == row.name).count() == 1
}

/// Whether each declared volume is there. No memory.
fn holds_volumes(declared: &Declared, engine: &Engine) -> bool
    ensures { result ≡ list_all (λ volume. has_volume engine.now volume.name) declared.now.volumes }
{
    declared
        .volumes
        .as_slice()
        .iter()
        .all(|volume| has_volume(engine, &volume.name))
}

/// Whether the containers are those that are declared, and no other is the project's.
fn holds_containers(
    alloc: Global,
    declared: &Declared,
    engine: &Engine,
    orphans: bool,
) -> Result<bool, Memory>
    ensures { IfOk result (λ answer. answer
        ≡ (list_all (holds_slot declared.now engine.now (found_containers engine.now))
        declared.now.slots
        && list_all (λ row. may_be_there declared.now orphans row.labels)
        (found_containers engine.now))) }
{
    let rows = found_containers(alloc, engine)?;
    if !holds_slots(alloc, declared, engine, rows.as_slice())? {
        return Ok(false);
    }
    holds_no_others(alloc, declared, orphans, rows.as_slice())
}

/// Whether exactly one of these containers is each slot's, and fits it.
fn holds_slots(
    alloc: Global,
    declared: &Declared,
    engine: &Engine,
    rows: &[&ContainerRow],
) -> Result<bool, Memory>
    ensures { IfOk result (λ answer. answer
        ≡ list_all (holds_slot declared.now engine.now (map (λ row. row.now) rows.now))
        declared.now.slots) }
{
    for slot in declared.slots.as_slice() {
        if !holds_slot(alloc, declared, engine, rows, slot)? {
            return Ok(false);
        }
    }
    Ok(true)
}

/// Whether exactly one of these containers is the slot's, and fits it.
fn holds_slot(
    alloc: Global,
    declared: &Declared,
    engine: &Engine,
    rows: &[&ContainerRow],
    slot: &Slot,
) -> Result<bool, Memory>
    ensures { IfOk result (λ answer.
        answer ≡ holds_slot declared.now engine.now (map (λ row. row.now) rows.now) slot.now) }
{
    match only_container(alloc, declared, rows, slot)? {
        Some(row) => fits(alloc, declared, engine, slot, row),
        None => Ok(false),
    }
}

/// The container of a slot, where exactly one of these is the slot's.
fn only_container<'a>(
    alloc: Global,
    declared: &Declared,
    rows: &[&'a ContainerRow],
    slot: &Slot,
) -> Result<Option<&'a ContainerRow>, Memory>
    ensures { IfOk result (λ only.
        option_copied only ≡ only_container declared.now (map (λ row. row.now) rows.now) slot.now) }
{
    let mut only = None;
    for row in rows {
        if !is_of_slot(alloc, &declared.project, slot, &row.labels)? {
            continue;
        }
        if only.is_some() {
            return Ok(None);
        }
        only = Some(*row);
    }
    Ok(only)
}

/// Whether a container agrees with a slot and is on the slot's networks.
fn fits(
    alloc: Global,
    declared: &Declared,
    engine: &Engine,
    slot: &Slot,
    row: &ContainerRow,
) -> Result<bool, Memory>
    ensures { IfOk result (λ answer. answer ≡ fits declared.now engine.now slot.now row.now) }
{
    if !is_attached(declared, engine, slot, row) {
        return Ok(false);
    }
    agrees_in(alloc, declared, engine, slot, row)
}

/// Whether a container agrees with a slot, by the Engine's images.
fn agrees_in(
    alloc: Global,
    declared: &Declared,
    engine: &Engine,
    slot: &Slot,
    row: &ContainerRow,
) -> Result<bool, Memory>
    ensures { IfOk result (λ answer. answer ≡ agrees_in declared.now engine.now slot.now row.now) }
{
    match image_at(engine, &slot.image) {
        Some(image) => agrees(
            alloc,
            &declared.project,
            slot,
            image,
            &row.labels,
            &row.image_id,
            row.report.state,
        ),
        None => Ok(false),
    }
}

/// Whether a container is on every network that a slot attaches to. No memory.
fn is_attached(declared: &Declared, engine: &Engine, slot: &Slot, row: &ContainerRow) -> bool
    ensures { result ≡ is_attached declared.now engine.now slot.now row.now }
{
    slot.attach.as_slice().iter().all(|attach| is_on(engine, network_name(declared, attach), row))
}

/// Whether a container is on a network with this name. No memory.
fn is_on(engine: &Engine, name: &str, row: &ContainerRow) -> bool
    ensures { result ≡ list_any (network_has_name engine.now name.now) row.now.networks }
{
    row.networks
        .as_slice()
        .iter()
        .any(|id| network_has_name(engine, name, id))
}

/// Whether each of these containers may be there.
fn holds_no_others(
    alloc: Global,
    declared: &Declared,
    orphans: bool,
    rows: &[&ContainerRow],
) -> Result<bool, Memory>
    ensures { IfOk result (λ answer. answer
        ≡ list_all (λ row. may_be_there declared.now orphans row.labels)
        (map (λ row. row.now) rows.now)) }
{
    for row in rows {
        if !may_be_there(alloc, declared, orphans, &row.labels)? {
            return Ok(false);
        }
    }
    Ok(true)
}

/// Whether a container with these labels may be there: it isn't the project's, or is some slot's, or is an orphan where
/// these weren't asked for.
fn may_be_there(
    alloc: Global,
    declared: &Declared,
    orphans: bool,
    pairs: &Pairs,
) -> Result<bool, Memory>
    ensures { IfOk result (λ answer. answer ≡ may_be_there declared.now orphans pairs.now) }
{
    if !is_of_project(&declared.project, pairs) {
        return Ok(true);
    }
    if !orphans && !has_declared_service(declared, pairs) {
        return Ok(true);
    }
    is_of_some_slot(alloc, declared, pairs)
}

/// Whether labels are those of a container of some slot.
fn is_of_some_slot(alloc: Global, declared: &Declared, pairs: &Pairs) -> Result<bool, Memory>
    ensures { IfOk result (λ answer. answer
        ≡ list_any (λ slot. is_of_slot declared.now.project slot pairs.now) declared.now.slots) }
{
    for slot in declared.slots.as_slice() {
        if is_of_slot(alloc, &declared.project, slot, pairs)? {
            return Ok(true);
        }
    }
    Ok(false)
}
