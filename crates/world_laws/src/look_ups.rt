//! What an Engine's look-ups find: by id or by name, of several rows the first.

ghost use Rattle.std.specs.Prelude.{◌≡◌, ◌++◌, ◌∷◌, [], map, not, if◌then◌else◌, IfOk};
ghost use Rattle.std.specs.List.{list_any};
ghost use Rattle.std.specs.Map.{keys_of};
ghost use Rattle.std.specs.Option.{option_copied};
ghost use Rattle.std.specs.Str.{bytes_eq};
ghost use Rattle.run_model.specs.EngineRules.{has_volume, image_at, network_at, network_has_name};
ghost use Rattle.world_laws.specs.Exactly.{found_containers, found_networks};

use engine_types::{ContainerRow, Engine, NetRow};
use std::alloc::Global;
use tree_base::{Memory, Text, TextMap};

/// The containers that look-ups by id find: of several rows with one id the first.
pub(crate) fn found_containers(alloc: Global, engine: &Engine) -> Result<Vec<&ContainerRow>, Memory>
    ensures { IfOk result (λ found.
        map (λ row. row.now) found.items ≡ found_containers engine.now) }
{
    let mut ids = TextMap::new(alloc);
    let mut found = Vec::new(alloc);
    for row in engine.containers.as_slice() {
        if is_new(alloc, &mut ids, &row.id)? {
            found.push(row)?;
        }
    }
    Ok(found)
}

/// The networks that look-ups by id find: of several rows with one id the first.
pub(crate) fn found_networks(alloc: Global, engine: &Engine) -> Result<Vec<&NetRow>, Memory>
    ensures { IfOk result (λ found. map (λ row. row.now) found.items ≡ found_networks engine.now) }
{
    let mut ids = TextMap::new(alloc);
    let mut found = Vec::new(alloc);
    for row in engine.networks.as_slice() {
        if is_new(alloc, &mut ids, &row.id)? {
            found.push(row)?;
        }
    }
    Ok(found)
}

/// Whether an id is a new one, which is known from then on.
fn is_new(alloc: Global, ids: &mut TextMap<()>, id: &Text) -> Result<bool, Memory>
    ensures new { IfOk result (λ new. new ≡ not (list_any (bytes_eq id.now) (keys_of ids.old))) }
    ensures known { IfOk result (λ new.
        keys_of ids.new ≡ (if new then keys_of ids.old ++ id.now ∷ [] else keys_of ids.old)) }
{
    let key = id.copy(alloc)?;
    let before = ids.put(key, ())?;
    Ok(before.is_none())
}

/// The id of the image with a name. No memory.
pub(crate) fn image_at<'a>(engine: &'a Engine, name: &Text) -> Option<&'a Text>
    ensures { option_copied result ≡ image_at engine.now name.now }
{
    let row = engine
        .images
        .as_slice()
        .iter()
        .find(|row| row.name == *name)?;
    Some(&row.id)
}

/// The network with an id. No memory.
fn network_at<'a>(engine: &'a Engine, id: &Text) -> Option<&'a NetRow>
    ensures { option_copied result ≡ network_at engine.now id.now }
{
    engine.networks.as_slice().iter().find(|row| row.id == *id)
}

/// Whether the network with an id has a name. No memory.
pub(crate) fn network_has_name(engine: &Engine, name: &str, id: &Text) -> bool
    ensures { result ≡ network_has_name engine.now name.now id.now }
{
    network_at(engine, id).is_some_and(|row| name == row.name.as_str())
}

/// Whether a volume with a name is there. No memory.
pub(crate) fn has_volume(engine: &Engine, name: &Text) -> bool
    ensures { result ≡ has_volume engine.now name.now }
{
    engine.volumes.as_slice().iter().any(|own| *name == *own)
}
