ghost use Rattle.std.specs.Prelude.{◌≡◌, IfOk, OnErr, OnOk, true, false};
ghost use Rattle.std.specs.List.{list_all};
ghost use Rattle.std.specs.Option.{option_copied};
ghost use Rattle.run_model.specs.EngineRules.{endpoints_of, has_container_named, has_network_named};
ghost use Rattle.memory_engine.specs.Ids.{id_text};
ghost use Rattle.memory_engine.specs.Serving.{created, image_for, lacks_network as lacks_network_for};
ghost use Rattle.memory_engine.specs.Serving.{networks_for, with_created};

use crate::{ids, look_ups, refusals};
use engine_types::{
    ContainerRow, ContainerSpec, ContainerState, Endpoint, Engine, Health, Reply, Report,
};
use std::alloc::Global;
use tree_base::{Boxed, List, Memory, Text, TryCopy};

/// Makes a container. `is_new` says that no container has its name.
pub fn create(
    alloc: Global,
    engine: &mut Engine,
    name: &Text,
    spec: &ContainerSpec,
    is_new: bool,
) -> Result<Reply, Memory>
    requires { is_new ≡ true → has_container_named engine.old name.now ≡ false }
    ensures ok { IfOk result (λ reply. created engine.old name.now spec.now ≡ (reply, engine.new)) }
    ensures err { OnErr result (engine.new ≡ engine.old) }
{
    if is_taken(engine, name, is_new) {
        return refusals::conflict(alloc);
    }
    let Some(image) = image_of(engine, spec) else {
        return refusals::not_found(alloc);
    };
    if lacks_network(engine, spec) {
        return refusals::not_found(alloc);
    }
    let image = image.copy(alloc)?;
    add(alloc, engine, name, spec, image)
}

/// Whether a container has a name, which needs no look at the containers where it is known to be new.
fn is_taken(engine: &Engine, name: &Text, is_new: bool) -> bool
    requires { is_new ≡ true → has_container_named engine.now name.now ≡ false }
    ensures { result ≡ has_container_named engine.now name.now }
{
    !is_new && look_ups::is_container_named(engine, name)
}

/// Adds a container that nothing stands in the way of, under the next id.
fn add(
    alloc: Global,
    engine: &mut Engine,
    name: &Text,
    spec: &ContainerSpec,
    image: Text,
) -> Result<Reply, Memory>
    ensures reply { IfOk result (λ reply. reply ≡ Reply.Made (id_text engine.old.next)) }
    ensures ok { OnOk result (engine.new ≡ with_created engine.old name.now spec.now image) }
    ensures err { OnErr result (engine.new ≡ engine.old) }
{
    let next = engine.next.checked_add(1).ok_or(Memory)?;
    let id = ids::numbered_id(alloc, engine.next)?;
    let answer = id.copy(alloc)?;
    let row = ContainerRow {
        id,
        name: name.copy(alloc)?,
        spec: Boxed::new(alloc, spec.copy(alloc)?)?,
        labels: spec.labels.copy(alloc)?,
        image_id: image,
        networks: networks_of(alloc, engine, spec)?,
        report: Report {
            state: ContainerState::Created,
            exit_code: 0,
            health: Health::Absent,
        },
        logs: List::new(alloc),
    };
    engine.containers.push(row)?;
    engine.next = next;
    Ok(Reply::Made(answer))
}

/// The id of the image that a container is to be made of.
fn image_of<'e>(engine: &'e Engine, spec: &ContainerSpec) -> Option<&'e Text>
    ensures { option_copied result ≡ image_for engine.now spec.now }
{
    let Some(name) = &spec.image else {
        return None;
    };
    let row = look_ups::image(engine, name)?;
    Some(&row.id)
}

/// The networks that a container is to be on.
fn endpoints(spec: &ContainerSpec) -> &[Endpoint]
    ensures { result.now ≡ endpoints_of spec.now }
{
    match &spec.endpoints_config {
        Some(endpoints) => endpoints.as_slice(),
        None => &[],
    }
}

/// Whether a network that a container is to be on isn't there.
fn lacks_network(engine: &Engine, spec: &ContainerSpec) -> bool
    ensures { result ≡ lacks_network_for engine.now spec.now }
{
    !are_there(engine, endpoints(spec))
}

fn are_there(engine: &Engine, endpoints: &[Endpoint]) -> bool
    ensures { result ≡ list_all (λ e. has_network_named engine.now e.key) endpoints.now }
{
    endpoints.iter().all(|endpoint| look_ups::is_network_named(engine, &endpoint.key))
}

/// The ids of the networks that a container is to be on.
fn networks_of(alloc: Global, engine: &Engine, spec: &ContainerSpec) -> Result<List<Text>, Memory>
    ensures { IfOk result (λ ids. ids ≡ networks_for engine.now spec.now) }
{
    let mut ids = List::new(alloc);
    for endpoint in endpoints(spec) {
        if let Some(row) = look_ups::network_named(engine, &endpoint.key) {
            ids.push(row.id.copy(alloc)?)?;
        }
    }
    Ok(ids)
}
